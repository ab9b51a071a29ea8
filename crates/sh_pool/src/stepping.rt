// A pass's step.
ghost use Rattle.std.specs.Prelude.{◌≡◌, ◌≢◌, None, Some, false, true};
ghost use Rattle.sh_client.specs.declared.state.Want.TheVariants as want;
ghost use Rattle.sh_client.specs.{Rests.{is_resting, reply_of}, Wants.{want_of}};
ghost use Rattle.sh_pool.specs.{Passes.{IsPass}, Pools.{IsOfPool}, Turns.{step_of, StepsBy, TookTurn}};

use crate::pool::{LaidPool, Pool};
use crate::state::{Pass, Step};

impl Pool {
    // Its tables. Condition: it is laid.
    pub(crate) fn laid(&self) -> &LaidPool
        requires { self.now.laid ≢ None }
        ensures { self.now.laid ≡ Some result.now }
    {
        match &self.laid {
            Some(laid) => laid,
            None => unreachable!(),
        }
    }
}

impl Pass {
    // What holds of each pass.
    fn judge(&self)
        ensures { IsPass self.now }
    {
        let _client = &self.client;
    }

    /// One turn: exactly the one that its client wants. An event is one step on the pool's table of words, and the
    /// client is fed just the word found; a local turn is one call on the pass's own chair. It takes no memory and waits
    /// for nothing. `Going` exactly where the call hasn't ended with it. Conditions: a pass of this pool, with a call under
    /// way.
    pub fn step(&mut self, pool: &Pool) -> Step
        requires of { IsOfPool pool.now self.old }
        requires busy { is_resting self.old.client ≡ false }
        ensures step { StepsBy (want_of self.old.client) self.old self.new }
        ensures wants { want_of self.old.client ≢ want.Done }
        ensures turn { TookTurn self.old self.new }
        ensures reply { result ≡ step_of (reply_of self.new.client) }
        ensures of { IsOfPool pool.now self.new }
        ensures pass { IsPass self.new }
    {
        self.turn(pool.laid());
        self.judge();
        match self.client.reply() {
            Some(reply) => Step::Done(reply),
            None => Step::Going,
        }
    }
}
