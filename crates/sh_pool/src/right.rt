// The right to a lock, as a value that lies in a cell.
ghost use Rattle.sh_base.specs.Parts.{parts_of};
ghost use Rattle.sh_pool.specs.Fitting.{FitsCell};

use atomic_table::Seat;
use sh_base::Config;
use sh_local::Carried;
use sh_pool_rule::PassView;
use std::marker::Model;

/// The right to a lock. It is moved, and never copied.
#[derive(Drop)]
pub struct Right {
    pub(crate) seat: Seat<(), PassView>,
    pub(crate) depth: u32,
}

impl Model for Right {
    ghost use Rattle.std.specs.Prelude.{◌≡◌, []};
    ghost use Rattle.sh_pool.specs.Handed.{Handed, HasDepth};

    ghost Value = { Handed };

    ghost view = { λ r. record { table = r.seat.table_id; view = r.seat.me.0; depth = r.depth } };

    ghost invariant = { λ r. (r.seat.me.1 ≡ []) × (r.seat.me.0.members ≡ []) × HasDepth r.seat.me.0.right r.depth };
}

/// What the cells are told of the pool: which table of words it has, and its setting.
#[derive(Drop)]
pub struct Knower {
    pub seat: Seat<(), PassView>,
    pub cfg: Config,
}

impl Carried for Right {
    type Key = Knower;

    ghost fits = { λ key cell r. FitsCell (parts_of key.cfg) key.seat.table_id cell r };
}
