// The four steps of a chair on the table of cells. The next ticket of a cell is the word `cell`, its served number the
// word `at`, behind all next tickets, and its value the slot `cell`.
ghost use Rattle.std.specs.Prelude.{◌≡◌, ◌+◌, ◌%◌, ◌^◌, ◌<◌, None, Some, true, false, [], ◌∷◌};
ghost use Rattle.sh_local.specs.{Calls.{held, counted, gone}, Chairs.{HasTicketFor, Looked, MayLeave, slot_if}, Steps.{Draws}};

use crate::look::Look;
use crate::rule::{Carried, Count, Draw, Leave, Lines, Looking, Setup};
use crate::view::View;
use atomic_table::{Seat, Shared};

pub type Shelf<T> = Shared<
    Option<T>,
    View<T, <T as Carried>::Key>,
    Setup<<T as Carried>::Key>,
    Lines<T>,
>;

pub type Place<T> = Seat<Option<T>, View<T, <T as Carried>::Key>>;

// Draws the next ticket of the cell, by one fetch and add.
pub fn draw<T: Carried>(shelf: &Shelf<T>, seat: &mut Place<T>, cell: usize) -> u64
    requires table { (seat.old.table_id ≡ shelf.now.table_id) × (shelf.now.table_id.words ≡ shelf.now.table_id.slots + shelf.now.table_id.slots) × (cell < shelf.now.table_id.slots) }
    requires none { (seat.old.me.0.ticket ≡ None) × (seat.old.me.0.parts ≡ 1) }
    ensures seat { (seat.new.table_id ≡ seat.old.table_id) × (seat.new.me.1 ≡ seat.old.me.1) }
    ensures drew { Draws cell seat.old.me.0 result seat.new.me.0 }
{
    shelf.fetch_add::<Draw>(seat, cell, 1)
}

// One load of the served number. Where it is the ticket, the slot is out with the seat, and its value is moved out.
pub fn look<T: Carried>(
    shelf: &Shelf<T>,
    seat: &mut Place<T>,
    at: usize,
    cell: usize,
    ticket: u64,
) -> Look<T>
    requires table { (seat.old.table_id ≡ shelf.now.table_id) × (shelf.now.table_id.words ≡ shelf.now.table_id.slots + shelf.now.table_id.slots) × (at ≡ shelf.now.table_id.slots + cell) × (cell < shelf.now.table_id.slots) }
    requires ticket { HasTicketFor cell false seat.old.me.0 × (seat.old.me.1 ≡ []) × (ticket ≡ (held seat.old.me.0).number % 2 ^ 64) }
    requires key { seat.old.me.0.key ≡ Some shelf.now.key.key }
    ensures seat { (seat.new.table_id ≡ seat.old.table_id) × (seat.new.me.1 ≡ slot_if seat.new.me.0.ticket) }
    ensures looked { Looked (T.fits shelf.now.key.key cell) seat.old.me.0 result seat.new.me.0 }
{
    let found = shelf.load::<Looking<T>>(seat, at);
    if found == ticket {
        Look::Turn(shelf.exchange(seat, cell, None))
    } else {
        Look::Wait(found)
    }
}

// One load of the next ticket: how many lie between the chair's and that one.
pub fn count<T: Carried>(shelf: &Shelf<T>, seat: &mut Place<T>, cell: usize, ticket: u64) -> u64
    requires table { (seat.old.table_id ≡ shelf.now.table_id) × (shelf.now.table_id.words ≡ shelf.now.table_id.slots + shelf.now.table_id.slots) × (cell < shelf.now.table_id.slots) }
    requires ticket { HasTicketFor cell true seat.old.me.0 × (ticket ≡ (held seat.old.me.0).number % 2 ^ 64) }
    ensures seat { (seat.new.table_id ≡ seat.old.table_id) × (seat.new.me.1 ≡ seat.old.me.1) }
    ensures after { seat.new.me.0 ≡ counted seat.old.me.0 result }
{
    let next = shelf.load::<Count>(seat, cell);
    next.wrapping_sub(ticket).wrapping_sub(1)
}

// Moves the value into the slot, and then serves the next ticket by one store, with which the slot goes back.
pub fn leave<T: Carried>(
    shelf: &Shelf<T>,
    seat: &mut Place<T>,
    at: usize,
    cell: usize,
    ticket: u64,
    value: Option<T>,
)
    requires table { (seat.old.table_id ≡ shelf.now.table_id) × (shelf.now.table_id.words ≡ shelf.now.table_id.slots + shelf.now.table_id.slots) × (at ≡ shelf.now.table_id.slots + cell) × (cell < shelf.now.table_id.slots) }
    requires ticket { HasTicketFor cell true seat.old.me.0 × (seat.old.me.1 ≡ (cell, None) ∷ []) × (ticket ≡ (held seat.old.me.0).number % 2 ^ 64) }
    requires value { MayLeave (T.fits shelf.now.key.key cell) (held seat.old.me.0) value }
    ensures seat { (seat.new.table_id ≡ seat.old.table_id) × (seat.new.me.1 ≡ []) }
    ensures gone { seat.new.me.0 ≡ gone seat.old.me.0 value }
{
    match shelf.exchange(seat, cell, value) {
        None => {}
        Some(_) => unreachable!(),
    }
    shelf.store::<Leave>(seat, at, ticket.wrapping_add(1));
}
