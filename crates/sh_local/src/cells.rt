// The table of ticket queues, as chairs see it.
ghost use Rattle.std.specs.Prelude.{◌≡◌, ◌≢◌, ◌≤◌, None, Some, true, false, IfOk};
ghost use Rattle.sh_local.specs.{Calls.{counted, gone, held}, Chairs.{AreAll, FitsAt, Gathered, HasTicketFor, SitsAt, IsNewTable, Looked, MayLeave, cells_of}, Steps.{Draws}};

use crate::chair::Chair;
use crate::look::Look;
use crate::queues::{Queues, seat_all};
use crate::rule::{Carried, Setup};
use crate::steps;
use atomic_table::Table;
use std::alloc::{AllocError, Global};
use std::marker::Model;

/// Ticket queues, one a cell, numbered from 0: the chairs draw tickets, and each cell serves one ticket at a time, in
/// order. The turn before may leave one value for the next. A table that was gathered has no cells any more.
pub struct Cells<T: Carried> {
    queues: Option<Queues<T>>,
}

impl<T: Carried> Model for Cells<T> {
    ghost use Rattle.std.specs.Prelude.{Option};
    ghost use Rattle.sh_local.specs.Chairs.{CellTable};

    ghost Value = { Option (CellTable T.Key) };

    ghost view = { λ c. c.queues };
}

impl<T: Carried> Cells<T> {
    /// A table with so many cells, in which no ticket is drawn and no value lies, and all its chairs. All memory is
    /// taken here: no later call takes any, and none waits. The key stays the table's key, for contracts alone.
    /// Condition: at least one chair and one cell.
    pub fn new(
        alloc: Global,
        chairs: u32,
        cells: u32,
        key: T::Key,
    ) -> Result<(Cells<T>, Vec<Chair<T>>), AllocError>
        requires { (1 ≤ chairs) × (1 ≤ cells) }
        ensures { IfOk result (λ r. IsNewTable chairs cells key r.0 r.1.items) }
    {
        let words = Vec::from_elem(alloc, 0u64, cells as usize + cells as usize)?;
        let seats = Vec::with_capacity(alloc, chairs as usize)?;
        let setup = Setup { key, chairs };
        let (table, maker) = Table::vacant(alloc, words.as_slice(), cells as usize, &setup)?;
        let seats = seat_all(&table.shared, maker, chairs, seats);
        let queues = Some(Queues { table, cells });
        Ok((Cells { queues }, seats))
    }

    // The queues of a table that isn't gathered.
    fn queues(&self) -> &Queues<T>
        requires { self.now ≢ None }
        ensures { self.now ≡ Some result.now }
    {
        match &self.queues {
            Some(queues) => queues,
            None => unreachable!(),
        }
    }

    /// Draws the next ticket of the cell, by one fetch and add, and answers its word. The tickets of a cell are 0, 1, 2
    /// and so on; their words wrap at 2^64, and no two tickets that are out have one word. Conditions: the chair is one
    /// of this table's, the table has this cell, and the chair has no ticket.
    pub fn draw(&self, chair: &mut Chair<T>, cell: u32) -> u64
        requires at { SitsAt self.now chair.old cell }
        requires none { chair.old.view.ticket ≡ None }
        ensures same { chair.new.table ≡ chair.old.table }
        ensures drew { Draws cell chair.old.view result chair.new.view }
    {
        let queues = self.queues();
        let ticket = steps::draw(&queues.table.shared, &mut chair.seat, cell as usize);
        chair.ticket = ticket;
        ticket
    }

    /// Asks for the turn, by one load of the number that the cell serves. `Wait` exactly where the number isn't the
    /// chair's ticket, with that number. Else the chair has the turn, with the value that the turn before left, and
    /// that value fits the table's key and this cell. Conditions: the chair is one of this table's, and has a ticket for
    /// this cell and not yet the turn.
    pub fn look(&self, chair: &mut Chair<T>, cell: u32) -> Look<T>
        requires at { SitsAt self.now chair.old cell }
        requires waits { HasTicketFor cell false chair.old.view }
        ensures same { chair.new.table ≡ chair.old.table }
        ensures looked { Looked (FitsAt T.fits self.now cell) chair.old.view result chair.new.view }
    {
        let queues = self.queues();
        steps::look(
            &queues.table.shared,
            &mut chair.seat,
            queues.cells as usize + cell as usize,
            cell as usize,
            chair.ticket,
        )
    }

    /// How many later tickets of the cell are drawn, by one load of the next ticket to be drawn: that number less the
    /// chair's ticket less one. Conditions: the chair is one of this table's, and has the turn in this cell.
    pub fn waiting(&self, chair: &mut Chair<T>, cell: u32) -> u64
        requires at { SitsAt self.now chair.old cell }
        requires turn { HasTicketFor cell true chair.old.view }
        ensures same { chair.new.table ≡ chair.old.table }
        ensures counted { chair.new.view ≡ counted chair.old.view result }
    {
        let queues = self.queues();
        steps::count(
            &queues.table.shared,
            &mut chair.seat,
            cell as usize,
            chair.ticket,
        )
    }

    /// Ends the turn, by one store: the next ticket is served, and its turn carries the value. Conditions: the chair is
    /// one of this table's, and has the turn in this cell; where a value is left, it fits the table's key and this cell,
    /// and `waiting` has answered at least 1 in this turn.
    pub fn leave(&self, chair: &mut Chair<T>, cell: u32, value: Option<T>)
        requires at { SitsAt self.now chair.old cell }
        requires turn { HasTicketFor cell true chair.old.view }
        requires value { MayLeave (FitsAt T.fits self.now cell) (held chair.old.view) value }
        ensures same { chair.new.table ≡ chair.old.table }
        ensures gone { chair.new.view ≡ gone chair.old.view value }
    {
        let queues = self.queues();
        steps::leave(
            &queues.table.shared,
            &mut chair.seat,
            queues.cells as usize + cell as usize,
            cell as usize,
            chair.ticket,
            value,
        );
    }

    /// Takes in all chairs and gives the cells back, none of which keeps a value. Condition: these are all chairs of
    /// this table, each once, and none has a ticket.
    pub fn gather(&mut self, chairs: Vec<Chair<T>>)
        requires { AreAll self.old chairs.items }
        ensures gathered { Gathered (cells_of self.old) chairs.items }
        ensures closed { self.new ≡ None }
    {
        let Some(queues) = self.queues.take() else {
            unreachable!()
        };
        queues.gather(chairs);
    }

    /// Lets go of a table that was gathered. A table of values that may be let go is let go as they are.
    pub fn free(self)
        requires { self ≡ None }
    {
        let Cells { queues } = self;
        match queues {
            None => {}
            Some(_) => unreachable!(),
        }
    }
}

impl<T: Carried + Drop> Drop for Cells<T> {
    fn drop(self) {
        let Cells { queues } = self;
        match queues {
            None => {}
            Some(queues) => drop(queues),
        }
    }
}
