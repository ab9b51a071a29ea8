// Calls of a pass, from begin to end.
ghost use Rattle.std.specs.{Prelude.{◌≡◌, IfSome, true, false}, Option.{option_map}};
ghost use Rattle.sh_cache.specs.Cached.{found};
ghost use Rattle.sh_map.specs.{declared.call.Call.TheVariants.{Get, Put, Del, Range}, Calls.{IsInRange}};
ghost use Rattle.sh_client.specs.{Machine.{fresh_machine}, Rests.{is_resting, rows_told}};
ghost use Rattle.sh_pool_rule.specs.Views.{view_seat};
ghost use Rattle.sh_pool.specs.{Calls.{HasServed}, Passes.{life_of, WasShown}, Pools.{IsOfPool}, Turns.{EndsWith, TookUpTo}};

use crate::pool::Pool;
use crate::state::{Pass, Step};
use sh_base::Value;
use sh_client::Tally;
use sh_image::InnerImage;
use sh_map::{Call, Reply, Row};
use std::sync::Wait;

impl Pass {
    /// Takes turns until the call under way has ended, but no more than `limit`. `Going` where it hasn't ended with them.
    /// Conditions: a pass of this pool, with a call under way.
    pub fn step_up_to(&mut self, pool: &Pool, limit: u64) -> Step
        requires of { IsOfPool pool.now self.old }
        requires busy { is_resting self.old.client ≡ false }
        ensures of { IsOfPool pool.now self.new }
        ensures seat { view_seat self.new.view ≡ view_seat self.old.view }
        ensures ends { EndsWith result self.new.client }
        ensures turns { TookUpTo limit result self.old self.new }
    {
        for _ in 0..limit {
            if let Step::Done(reply) = self.step(pool) {
                return Step::Done(reply);
            }
        }
        Step::Going
    }

    // Serves a call to its end.
    fn serve<R: Wait>(&mut self, rt: &R, pool: &Pool, call: Call) -> Reply
        requires of { IsOfPool pool.now self.old }
        requires rests { is_resting self.old.client ≡ true }
        requires in_range { IsInRange self.old.client.setting call }
        ensures of { IsOfPool pool.now self.new }
        ensures served { HasServed call result self.old self.new }
    {
        self.begin(call);
        for _ in rt.forever() {
            if let Step::Done(reply) = self.step(pool) {
                return reply;
            }
        }
        unreachable!()
    }

    /// Gets the value at a key, or none. It steps until the call has ended. Conditions: a pass of this pool with no call
    /// under way, and a key of the setting.
    pub fn get<R: Wait>(&mut self, rt: &R, pool: &Pool, key: u64) -> Reply
        requires of { IsOfPool pool.now self.old }
        requires rests { is_resting self.old.client ≡ true }
        requires in_range { IsInRange self.old.client.setting (Get key) }
        ensures of { IsOfPool pool.now self.new }
        ensures served { HasServed (Get key) result self.old self.new }
    {
        self.serve(rt, pool, Call::Get { key })
    }

    /// Puts a value at a key, and answers what was there. It steps until the call has ended. Conditions: as `get`, and a
    /// value as wide as the setting says.
    pub fn put<R: Wait>(&mut self, rt: &R, pool: &Pool, key: u64, value: Value) -> Reply
        requires of { IsOfPool pool.now self.old }
        requires rests { is_resting self.old.client ≡ true }
        requires in_range { IsInRange self.old.client.setting (Put key value) }
        ensures of { IsOfPool pool.now self.new }
        ensures served { HasServed (Put key value) result self.old self.new }
    {
        self.serve(rt, pool, Call::Put { key, value })
    }

    /// Deletes a key, and answers what was there. It steps until the call has ended. Conditions: as `get`.
    pub fn del<R: Wait>(&mut self, rt: &R, pool: &Pool, key: u64) -> Reply
        requires of { IsOfPool pool.now self.old }
        requires rests { is_resting self.old.client ≡ true }
        requires in_range { IsInRange self.old.client.setting (Del key) }
        ensures of { IsOfPool pool.now self.new }
        ensures served { HasServed (Del key) result self.old self.new }
    {
        self.serve(rt, pool, Call::Del { key })
    }

    /// Gathers the rows from `low` on, below `high`. It steps until the call has ended; the rows are then in `rows`.
    /// Conditions: as `get`, and both ends are of the setting, in their order.
    pub fn range<R: Wait>(&mut self, rt: &R, pool: &Pool, low: u64, high: u64) -> Reply
        requires of { IsOfPool pool.now self.old }
        requires rests { is_resting self.old.client ≡ true }
        requires in_range { IsInRange self.old.client.setting (Range low high) }
        ensures of { IsOfPool pool.now self.new }
        ensures served { HasServed (Range low high) result self.old self.new }
    {
        self.serve(rt, pool, Call::Range { low, high })
    }

    /// The rows of the call that has ended: a range's, and none of any other call.
    pub fn rows_told(&self) -> &[Row]
        ensures { result.now ≡ rows_told self.now.client }
    {
        self.client.rows_told()
    }

    /// The rows of its last range, as far as they are gathered.
    pub fn rows(&self) -> &[Row]
        ensures { result.now ≡ self.now.client.registers.rows }
    {
        self.client.rows()
    }

    /// What its client has counted since the pool was laid.
    pub fn tally(&self) -> Tally
        ensures { result ≡ self.now.client.registers.tally }
    {
        self.client.tally()
    }

    /// Of the cached inner nodes of level 1 that cover a key the one with the greatest low fence. None exactly where none
    /// covers it. It is what a READ accepts of words that the pass found one behind another.
    pub fn cached_row(&self, key: u64) -> Option<&InnerImage>
        ensures row { option_map (λ r. r.now) result ≡ found self.now.client.registers.cached key }
        ensures level { IfSome result (λ r. r.now.level ≡ 1) }
        ensures shown { IfSome result (λ r. WasShown (fresh_machine self.now.client.setting (view_seat self.now.view)) (life_of self.now) r.now) }
    {
        self.client.cached_row(key)
    }
}
