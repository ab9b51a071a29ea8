// A pass's turns that its compute server answers.
ghost use Rattle.std.specs.Prelude.{◌≡◌, ◌+◌, ◌*◌, ◌<◌, ◌≤◌, None, Some, [], length};
ghost use Rattle.sh_base.specs.{Parts.{parts_of}, Setting.{all_locks}};
ghost use Rattle.sh_client.specs.declared.state.Want.TheVariants as want;
ghost use Rattle.sh_client.specs.{Wants.{want_of}, Sound.{IsCarry}};
ghost use Rattle.sh_pool_rule.specs.{Untold.{IsActorOf}, Views.{view_seat}, Rights.{right_by, depth_of, parted_view, right_view, taken_view, IsHanding, MeetsRight}};
ghost use Rattle.sh_pool.specs.{Fitting.{cell_for}, Passes.{pass_actor, tale_of, IsOf, IsPass}, Turns.{CountedLater, DrewTicket, LeftQueue, LookedOnce}};

use crate::events::Words;
use crate::pool::LaidPool;
use crate::right::Right;
use crate::state::Pass;
use atomic_table::Seat;
use sh_base::Config;
use sh_local::Look;
use sh_pool_rule::{Parting, PassView, TakingUp, TurnOf};
use std::marker::Brand;

// The cell of a lock and a compute server.
#[tactic(auto, unfolding(crate::specs::Fitting::cell_for))]
fn cell_at(cfg: &Config, lock: u32, compute: u32) -> u32
    requires lock { lock < all_locks (parts_of cfg.now) }
    requires compute { compute < (parts_of cfg.now).computes }
    ensures at { result ≡ cell_for (parts_of cfg.now) lock compute }
    ensures within { result < all_locks (parts_of cfg.now) * (parts_of cfg.now).computes }
{
    lock * cfg.parts().computes + compute
}

// A right is taken up, by one step on the table of words. Its depth comes back.
fn take_as<A: TurnOf>(words: &Words, seat: &mut Seat<(), PassView>, right: Right) -> u32
    requires table { (seat.old.table_id ≡ words.now.table_id) × (right.table ≡ words.now.table_id) × (0 < words.now.table_id.words) }
    requires own { seat.old.me.0.right ≡ None }
    requires actor { IsActorOf (parts_of words.now.key) seat.old.me.0 A.actor }
    requires meets { MeetsRight (parts_of words.now.key) (view_seat seat.old.me.0) A.actor.client right.view.right }
    ensures seat { (seat.new.table_id ≡ seat.old.table_id) × (seat.new.me.1 ≡ seat.old.me.1) × (seat.new.me.0 ≡ taken_view A.actor A.tale seat.old.me.0 right.view) }
    ensures depth { (result ≡ right.depth) × (depth_of right.view.right ≡ Some right.depth) }
{
    let Right { seat: other, depth } = right;
    words.join_seat::<TakingUp<A>>(seat, other);
    depth
}

// A right is parted with, by one step on the table of words.
fn part_as<A: TurnOf>(words: &Words, seat: &mut Seat<(), PassView>, depth: u32) -> Right
    requires table { (seat.old.table_id ≡ words.now.table_id) × (0 < words.now.table_id.words) }
    requires actor { IsActorOf (parts_of words.now.key) seat.old.me.0 A.actor }
    requires hands { IsHanding A.actor.client }
    requires depth { depth_of (right_by A.actor.client) ≡ Some depth }
    ensures seat { (seat.new.table_id ≡ seat.old.table_id) × (seat.new.me.1 ≡ seat.old.me.1) × (seat.new.me.0 ≡ parted_view A.actor A.tale seat.old.me.0) }
    ensures right { (result.table ≡ words.now.table_id) × (result.view ≡ right_view A.actor seat.old.me.0) × (result.depth ≡ depth) }
{
    let seat = words.split_seat::<Parting<A>>(seat);
    Right { seat, depth }
}

impl Pass {
    // Draws a ticket.
    pub(crate) fn draw(&mut self, pool: &LaidPool, lock: u32)
        requires of { IsOf pool.now self.old }
        requires wants { want_of self.old.client ≡ want.Draw lock }
        requires within { lock < all_locks self.old.client.setting }
        ensures drew { DrewTicket lock self.old self.new }
        ensures pass { IsPass self.old }
    {
        let cell = cell_at(&pool.cfg, lock, self.compute);
        let ticket = pool.cells.draw(&mut self.chair, cell);
        self.client.fed(ticket);
    }

    fn look_as<A: TurnOf>(&mut self, pool: &LaidPool, lock: u32)
        requires of { IsOf pool.now self.old }
        requires wants { want_of self.old.client ≡ want.Look lock }
        requires within { lock < all_locks self.old.client.setting }
        requires actor { A.actor ≡ pass_actor self.old }
        requires tale { A.tale ≡ tale_of self.old (length self.old.chair.view.calls + 1) }
        ensures looked { LookedOnce self.old self.new }
        ensures pass { IsPass self.old }
    {
        let cell = cell_at(&pool.cfg, lock, self.compute);
        match pool.cells.look(&mut self.chair, cell) {
            Look::Wait(found) => self.client.fed(found),
            Look::Turn(None) => self.client.fed_turn(None),
            Look::Turn(Some(right)) => {
                let depth = take_as::<A>(&pool.table.shared, &mut self.seat, right);
                self.client.fed_turn(Some(depth));
                self.begun = false;
            }
        }
    }

    // Looks whether its ticket is served; a right that was left is taken up.
    pub(crate) fn look(&mut self, pool: &LaidPool, lock: u32)
        requires of { IsOf pool.now self.old }
        requires wants { want_of self.old.client ≡ want.Look lock }
        requires within { lock < all_locks self.old.client.setting }
        ensures looked { LookedOnce self.old self.new }
        ensures pass { IsPass self.old }
    {
        self.look_as::<Brand>(pool, lock);
    }

    // Counts the later tickets.
    pub(crate) fn count(&mut self, pool: &LaidPool, lock: u32)
        requires of { IsOf pool.now self.old }
        requires wants { want_of self.old.client ≡ want.Waiting lock }
        requires within { lock < all_locks self.old.client.setting }
        ensures counted { CountedLater lock self.old self.new }
        ensures pass { IsPass self.old }
    {
        let cell = cell_at(&pool.cfg, lock, self.compute);
        let count = pool.cells.waiting(&mut self.chair, cell);
        self.client.fed(count);
    }

    fn leave_as<A: TurnOf>(&mut self, pool: &LaidPool, lock: u32, carry: Option<u32>)
        requires of { IsOf pool.now self.old }
        requires wants { want_of self.old.client ≡ want.Leave lock carry }
        requires within { lock < all_locks self.old.client.setting }
        requires carry { IsCarry self.old.client.setting carry }
        requires actor { A.actor ≡ pass_actor self.old }
        requires tale { A.tale ≡ tale_of self.old (length self.old.chair.view.calls) }
        ensures left { LeftQueue carry self.old self.new }
        ensures pass { IsPass self.old }
    {
        let cell = cell_at(&pool.cfg, lock, self.compute);
        match carry {
            None => {
                pool.cells.leave(&mut self.chair, cell, None);
                self.client.fed(0);
            }
            Some(depth) => {
                let right = part_as::<A>(&pool.table.shared, &mut self.seat, depth);
                pool.cells.leave(&mut self.chair, cell, Some(right));
                self.client.fed(0);
            }
        }
    }

    // Leaves the queue, and hands the lock over where a depth is carried.
    pub(crate) fn leave(&mut self, pool: &LaidPool, lock: u32, carry: Option<u32>)
        requires of { IsOf pool.now self.old }
        requires wants { want_of self.old.client ≡ want.Leave lock carry }
        requires within { lock < all_locks self.old.client.setting }
        requires carry { IsCarry self.old.client.setting carry }
        ensures left { LeftQueue carry self.old self.new }
        ensures pass { IsPass self.old }
    {
        self.leave_as::<Brand>(pool, lock, carry);
    }
}
