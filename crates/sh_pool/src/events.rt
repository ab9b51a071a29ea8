// One step on the words' table, of the actor that the caller picks.
ghost use Rattle.std.specs.Prelude.{◌≡◌, ◌<◌};
ghost use Rattle.sh_base.specs.{Parts.{parts_of}, Memory.{at_of}, declared.event.Event.TheVariants.{Load, Store, Exchange, Add}};
ghost use Rattle.sh_client.specs.declared.state.Want.TheVariants as want;
ghost use Rattle.sh_client.specs.Wants.{want_of};
ghost use Rattle.sh_pool_rule.specs.{Untold.{IsActorOf}, Rule.{TookEvent}};

use atomic_table::{Seat, Shared};
use sh_base::{Config, Event};
use sh_pool_rule::{Fed, PassView, PoolRule, Stored, TurnOf};

pub type Words = Shared<(), PassView, Config, PoolRule>;

fn load_as<J: TurnOf>(words: &Words, seat: &mut Seat<(), PassView>, at: u32) -> u64
    requires table { (seat.old.table_id ≡ words.now.table_id) × (at < words.now.table_id.words) }
    requires actor { IsActorOf (parts_of words.now.key) seat.old.me.0 J.actor }
    requires wants { want_of J.actor.client ≡ want.Event (Load at) }
    ensures seat { (seat.new.table_id ≡ seat.old.table_id) × (seat.new.me.1 ≡ seat.old.me.1) }
    ensures went { TookEvent J.actor J.tale seat.old.me.0 result seat.new.me.0 }
{
    words.load::<Fed<J>>(seat, at as usize)
}

fn store_as<J: TurnOf>(words: &Words, seat: &mut Seat<(), PassView>, at: u32, word: u64)
    requires table { (seat.old.table_id ≡ words.now.table_id) × (at < words.now.table_id.words) }
    requires actor { IsActorOf (parts_of words.now.key) seat.old.me.0 J.actor }
    requires wants { want_of J.actor.client ≡ want.Event (Store at word) }
    ensures seat { (seat.new.table_id ≡ seat.old.table_id) × (seat.new.me.1 ≡ seat.old.me.1) }
    ensures went { TookEvent J.actor J.tale seat.old.me.0 0 seat.new.me.0 }
{
    words.store::<Stored<J>>(seat, at as usize, word);
}

fn exchange_as<J: TurnOf>(
    words: &Words,
    seat: &mut Seat<(), PassView>,
    at: u32,
    old: u64,
    new: u64,
) -> u64
    requires table { (seat.old.table_id ≡ words.now.table_id) × (at < words.now.table_id.words) }
    requires actor { IsActorOf (parts_of words.now.key) seat.old.me.0 J.actor }
    requires wants { want_of J.actor.client ≡ want.Event (Exchange at old new) }
    ensures seat { (seat.new.table_id ≡ seat.old.table_id) × (seat.new.me.1 ≡ seat.old.me.1) }
    ensures went { TookEvent J.actor J.tale seat.old.me.0 result seat.new.me.0 }
{
    words.compare_exchange::<Fed<J>>(seat, at as usize, old, new)
}

fn add_as<J: TurnOf>(words: &Words, seat: &mut Seat<(), PassView>, at: u32) -> u64
    requires table { (seat.old.table_id ≡ words.now.table_id) × (at < words.now.table_id.words) }
    requires actor { IsActorOf (parts_of words.now.key) seat.old.me.0 J.actor }
    requires wants { want_of J.actor.client ≡ want.Event (Add at) }
    ensures seat { (seat.new.table_id ≡ seat.old.table_id) × (seat.new.me.1 ≡ seat.old.me.1) }
    ensures went { TookEvent J.actor J.tale seat.old.me.0 result seat.new.me.0 }
{
    words.fetch_add::<Fed<J>>(seat, at as usize, 1)
}

/// The event that the actor's client wants, and the word that it is to be fed.
pub fn event_as<J: TurnOf>(words: &Words, seat: &mut Seat<(), PassView>, event: Event) -> u64
    requires table { (seat.old.table_id ≡ words.now.table_id) × (at_of event < words.now.table_id.words) }
    requires actor { IsActorOf (parts_of words.now.key) seat.old.me.0 J.actor }
    requires wants { want_of J.actor.client ≡ want.Event event }
    ensures seat { (seat.new.table_id ≡ seat.old.table_id) × (seat.new.me.1 ≡ seat.old.me.1) }
    ensures went { TookEvent J.actor J.tale seat.old.me.0 result seat.new.me.0 }
{
    match event {
        Event::Load { at } => load_as::<J>(words, seat, at),
        Event::Store { at, word } => {
            store_as::<J>(words, seat, at, word);
            0
        }
        Event::Exchange { at, old, new } => exchange_as::<J>(words, seat, at, old, new),
        Event::Add { at } => add_as::<J>(words, seat, at),
    }
}
