// The table of cells with its memory: how its chairs are made and taken in.
ghost use Rattle.std.specs.{Prelude.{◌≡◌, ◌<◌, ◌≤◌, [], length, replicate, vec_capacity}, Slots.{slots_items, IsFull}};
ghost use Rattle.sh_local.specs.{Calls.{opener}, Chairs.{fresh_chair, AllFree, AllNone, Gathered, TakenIn}};

use crate::chair::Chair;
use crate::rule::{Carried, Gathering, Lines, Seating, Setup};
use crate::steps::{Place, Shelf};
use crate::view::View;
use atomic_table::{Closed, Table};
use std::alloc::Global;
use std::marker::Model;

// A table that isn't gathered. Its words are the next tickets of all cells, and then their served numbers.
pub struct Queues<T: Carried> {
    pub table: Table<Option<T>, View<T, T::Key>, Setup<T::Key>, Lines<T>, Global>,
    pub cells: u32,
}

impl<T: Carried> Model for Queues<T> {
    ghost use Rattle.std.specs.Prelude.{◌≡◌, ◌+◌, ◌≤◌};
    ghost use Rattle.sh_local.specs.Chairs.{CellTable};

    ghost Value = { CellTable T.Key };

    ghost view = { λ c. record { table = c.table.shared.table_id; key = c.table.shared.key.key; cells = c.cells; chairs = c.table.shared.key.chairs } };

    ghost invariant = { λ c. (c.table.shared.table_id.words ≡ c.cells + c.cells) × (c.table.shared.table_id.slots ≡ c.cells) × (1 ≤ c.cells) × (1 ≤ c.table.shared.key.chairs) };
}

impl<T: Carried> Queues<T> {
    // Takes in all chairs, and gives the memory back. Conditions: these are all chairs, and none has a ticket.
    pub fn gather(self, chairs: Vec<Chair<T>>)
        requires all { length chairs.items ≡ self.chairs }
        requires free { AllFree self.table chairs.items }
        ensures { Gathered self.cells chairs.items }
    {
        let Queues { table, cells: _ } = self;
        let last = take_in(&table.shared, chairs);
        discard(table.close_with(last));
    }
}

impl<T: Carried + Drop> Drop for Queues<T> {
    fn drop(self) {
        let Queues { table, cells: _ } = self;
        drop(table);
    }
}

// So many chairs, which the first seat makes. Conditions: the seat stands for them all, and their room is reserved.
pub fn seat_all<T: Carried>(
    shelf: &Shelf<T>,
    maker: Place<T>,
    chairs: u32,
    seats: Vec<Chair<T>>,
) -> Vec<Chair<T>>
    requires maker { (maker.table_id ≡ shelf.now.table_id) × (0 < shelf.now.table_id.words) × (maker.me ≡ (opener shelf.now.key.key chairs, [])) }
    requires room { (seats.items ≡ []) × (chairs ≤ vec_capacity seats) }
    ensures { result.items ≡ replicate chairs (fresh_chair shelf.now.table_id shelf.now.key.key) }
{
    let mut maker = maker;
    let mut seats = seats;
    let mut made = 0;
    while made < chairs {
        seats.push_reserved(Chair::of(shelf.split_seat::<Seating>(&mut maker)));
        made += 1;
    }
    seats
}

// The seat of one chair, which takes in all others. Conditions: there is a chair, and none of them has a ticket.
pub fn take_in<T: Carried>(shelf: &Shelf<T>, chairs: Vec<Chair<T>>) -> Place<T>
    requires words { 0 < shelf.now.table_id.words }
    requires some { 1 ≤ length chairs.items }
    requires free { AllFree shelf.now.table_id chairs.items }
    ensures seat { (result.table_id ≡ shelf.now.table_id) × (result.me.1 ≡ []) }
    ensures taken { TakenIn chairs.items [] result.me.0 }
{
    let mut chairs = chairs;
    let Some(first) = chairs.pop() else {
        unreachable!()
    };
    let mut last = first.into_seat();
    while let Some(chair) = chairs.pop() {
        let seat = chair.into_seat();
        shelf.join_seat::<Gathering>(&mut last, seat);
    }
    last
}

// Gives the memory back. Condition: no slot has a value.
pub fn discard<T>(mut closed: Closed<Option<T>, Global>)
    requires full { IsFull closed.slots }
    requires none { AllNone (slots_items closed.slots) }
{
    let mut i = 0;
    while i < closed.slot_count() {
        match closed.take(i) {
            None => {}
            Some(_) => unreachable!(),
        }
        i += 1;
    }
    closed.free();
}
