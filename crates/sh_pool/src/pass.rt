// A pass's turns.
ghost use Rattle.std.specs.Prelude.{◌≡◌, ◌<◌, true, false, None, length};
ghost use Rattle.sh_base.specs.{Memory.{at_of}, Setting.{pool_words}};
ghost use Rattle.sh_map.specs.Calls.{IsInRange};
ghost use Rattle.sh_client.specs.declared.state.Want.TheVariants as want;
ghost use Rattle.sh_client.specs.{Feeds.{finished}, Rests.{is_resting, reply_of}, Wants.{want_of}};
ghost use Rattle.sh_pool.specs.{Passes.{pass_actor, tale_of, IsOf, IsPass}, Turns.{step_of, HasBegunCall, MadeEvent, StepsBy, TookTurn}};

use crate::events::event_as;
use crate::pool::LaidPool;
use crate::state::{Pass, Step};
use sh_base::Event;
use sh_client::{Client, Want};
use sh_map::Call;
use sh_pool_rule::TurnOf;
use std::marker::Brand;

// Takes a call away that has ended.
fn rest(client: &mut Client)
    requires { is_resting client.old ≡ true }
    ensures { client.new ≡ finished client.old }
{
    match client.reply() {
        Some(_) => client.finish(),
        None => {}
    }
}

impl Pass {
    /// Begins a call, which makes no turn yet. Conditions: it has no call under way, and the call is in range.
    pub fn begin(&mut self, call: Call)
        requires rests { is_resting self.old.client ≡ true }
        requires in_range { IsInRange self.old.client.setting call }
        ensures begun { HasBegunCall call self.old self.new }
        ensures pass { IsPass self.old }
    {
        rest(&mut self.client);
        self.client.begin(call);
        self.begun = true;
    }

    fn event_as<A: TurnOf>(&mut self, pool: &LaidPool, event: Event)
        requires of { IsOf pool.now self.old }
        requires wants { want_of self.old.client ≡ want.Event event }
        requires within { at_of event < pool_words self.old.client.setting }
        requires actor { A.actor ≡ pass_actor self.old }
        requires tale { A.tale ≡ tale_of self.old (length self.old.chair.view.calls) }
        ensures made { MadeEvent event self.old self.new }
        ensures pass { IsPass self.old }
    {
        let found = event_as::<A>(&pool.table.shared, &mut self.seat, event);
        self.client.fed(found);
        self.begun = false;
    }

    // The event that its client wants: one step on the table of words.
    fn event(&mut self, pool: &LaidPool, event: Event)
        requires of { IsOf pool.now self.old }
        requires wants { want_of self.old.client ≡ want.Event event }
        requires within { at_of event < pool_words self.old.client.setting }
        ensures made { MadeEvent event self.old self.new }
        ensures pass { IsPass self.old }
    {
        self.event_as::<Brand>(pool, event);
    }

    // The turn that its client wants.
    pub(crate) fn turn(&mut self, pool: &LaidPool)
        requires { IsOf pool.now self.old }
        ensures step { StepsBy (want_of self.old.client) self.old self.new }
        ensures wants { is_resting self.old.client ≡ false → want_of self.old.client ≡ want.Done → ⊥ }
        ensures pass { IsPass self.old }
    {
        match self.client.want() {
            Want::Event(event) => self.event(pool, event),
            Want::Draw { lock } => self.draw(pool, lock),
            Want::Look { lock } => self.look(pool, lock),
            Want::Waiting { lock } => self.count(pool, lock),
            Want::Leave { lock, carry } => self.leave(pool, lock, carry),
            Want::Done => {}
        }
    }
}
