// What a pass is.
use crate::right::Right;
use atomic_table::Seat;
use sh_client::Client;
use sh_local::Chair;
use sh_map::Reply;
use sh_pool_rule::PassView;
use std::marker::Model;

/// What a turn came to: the call goes on, or has ended with this reply.
#[derive(Clone, Copy, Debug)]
pub enum Step {
    Going,
    Done(Reply),
}

/// A seat of the pool: its client, with its seat at the table of words and its chair at the cells.
#[derive(Drop)]
pub struct Pass {
    pub(crate) client: Client,
    // Its call was begun, and has made no event yet.
    pub(crate) begun: bool,
    pub(crate) seat: Seat<(), PassView>,
    pub(crate) chair: Chair<Right>,
    // Its compute server.
    pub(crate) compute: u32,
}

impl Model for Pass {
    ghost use Rattle.std.specs.Prelude.{◌≡◌, []};
    ghost use Rattle.sh_base.specs.Layout.{compute_of};
    ghost use Rattle.sh_pool.specs.Passes.{Standing, IsPass};

    ghost Value = { Standing };

    ghost view = { λ p. record { table = p.seat.table_id; client = p.client; begun = p.begun; view = p.seat.me.0; chair = p.chair } };

    ghost invariant = { λ p. (p.seat.me.1 ≡ []) × IsPass record { table = p.seat.table_id; client = p.client; begun = p.begun; view = p.seat.me.0; chair = p.chair } × (p.compute ≡ compute_of p.client.setting p.client.seat) };
}
