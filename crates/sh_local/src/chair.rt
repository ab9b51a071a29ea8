// A user's token.
ghost use Rattle.std.specs.Prelude.{◌≡◌, None, []};

use crate::rule::Carried;
use crate::view::View;
use atomic_table::Seat;
use std::marker::Model;

/// The token of one user of a table of cells. It has at most one ticket at a time.
#[derive(Drop)]
pub struct Chair<T: Carried> {
    pub(crate) ticket: u64,
    pub(crate) seat: Seat<Option<T>, View<T, T::Key>>,
}

impl<T: Carried> Model for Chair<T> {
    ghost use Rattle.std.specs.Prelude.{◌≡◌};
    ghost use Rattle.sh_local.specs.Chairs.{Sitting, slot_if, word_if};

    ghost Value = { Sitting T T.Key };

    ghost view = { λ c. record { table = c.seat.table_id; view = c.seat.me.0 } };

    ghost invariant = { λ c. (c.seat.me.1 ≡ slot_if c.seat.me.0.ticket) × (c.seat.me.0.parts ≡ 1) × word_if c.ticket c.seat.me.0.ticket };
}

impl<T: Carried> Chair<T> {
    // A chair of this seat. Conditions: the seat stands for one chair, has no ticket and no slot out.
    pub(crate) fn of(seat: Seat<Option<T>, View<T, T::Key>>) -> Chair<T>
        requires { (seat.me.1 ≡ []) × (seat.me.0.parts ≡ 1) × (seat.me.0.ticket ≡ None) }
        ensures { (result.table ≡ seat.table_id) × (result.view ≡ seat.me.0) }
    {
        Chair { ticket: 0, seat }
    }

    pub(crate) fn into_seat(self) -> Seat<Option<T>, View<T, T::Key>>
        ensures seat { (result.table_id ≡ self.table) × (result.me.0 ≡ self.view) }
        ensures free { self.view.ticket ≡ None → result.me.1 ≡ [] }
        ensures part { self.view.parts ≡ 1 }
    {
        let Chair { ticket: _, seat } = self;
        seat
    }
}
