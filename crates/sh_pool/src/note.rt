// A note that a pass makes for others.
use atomic_table::Seat;
use sh_pool_rule::PassView;
use std::marker::Model;

/// What a pass has seen and done, for a pass that learns it. It is moved, and never copied.
#[derive(Drop)]
pub struct Note {
    pub(crate) seat: Seat<(), PassView>,
}

impl Model for Note {
    ghost use Rattle.std.specs.Prelude.{◌≡◌, []};
    ghost use Rattle.sh_pool_rule.specs.Rights.{card_view, first_card};
    ghost use Rattle.sh_pool.specs.Cards.{NoteState};

    ghost Value = { NoteState };

    ghost view = { λ n. record { table = n.seat.table_id; card = first_card n.seat.me.0.cards } };

    ghost invariant = { λ n. (n.seat.me.1 ≡ []) × (n.seat.me.0 ≡ card_view (first_card n.seat.me.0.cards)) };
}
