// What the headline means for a caller.
ghost use Rattle.std.specs.{Prelude.{◌≡◌, ℕ, true, List, Option, map}, List.{sum_by}};
ghost use Rattle.sh_sheet.specs.{declared.status.Status.{Status}, Sheet.{item_calls, done_item}, Status.{IsNoFault}};
ghost use Rattle.sh_text.specs.Text.{calls_text};
ghost use Rattle.sh_text.specs.declared.points.Points.TheVariants as points;
ghost use Rattle.sh_world.specs.States.{Given, dones_of, State, IsBlank};
ghost use Rattle.sh_replay.specs.{Output.{lines_from}, Served.{item_of}, Course.{budget_of, have_ended}, Headline.{Headline}, Complete.{IsFree, EndsWell}};
ghost use Rattle.sh_options.specs.Order.{Asked, order_of};
ghost use Rattle.sh_sheet.specs.declared.item.Mode.TheVariants.{Replay};

use crate::replay_top;
use sh_port::{Sink, Source, SureSink, SureSource};
use sh_sheet::Status;
use sh_world::World;
use std::alloc::Global;

/// A replay is complete: with accepted words, lawful rows that are served and within the numbers, and no fault of source
/// or sink, it ends with `Ok`, with `NoMemory`, or with `Unfinished` and the number of turns that the rounds may make.
/// Where every call has ended, there is a finished call for each, with its seat and its call, and the lines of the calls
/// are those of the finished calls.
pub fn replay_laws()
    ensures each { (calls : List Given) → have_ended calls ≡ true → map done_item (dones_of calls) ≡ map item_of calls }
    ensures lines { (calls : List Given) → have_ended calls ≡ true → lines_from 1 calls ≡ calls_text points.Shown (dones_of calls) }
    ensures complete { (asked : Option Asked) (old new : State) (left rest : Option (List ℕ)) (before now : ℕ) (held after : Option (List ℕ)) (fell fallen : ℕ) (status : Status) → Headline asked old new left rest before now held after fell fallen status → (free : IsFree asked left before now fell fallen) → EndsWell (budget_of (sum_by item_calls free.items)) status }
{}

/// [`replay_top`] over a source and a sink that never fail: neither `ReadFault` nor `WriteFault` comes, and all that is
/// said of the other statuses holds. Condition: the world is blank.
pub fn replay_sure(
    alloc: Global,
    words: &[&str],
    world: &mut World,
    source: &mut SureSource,
    sink: &mut SureSink,
) -> Status
    requires { IsBlank world.old }
    ensures no_fault { IsNoFault result }
    ensures headline { Headline (order_of Replay (map (λ w. w.now) words.now)) world.old world.new (⟦<SureSource as Source>⟧.left source.old) (⟦<SureSource as Source>⟧.left source.new) 0 0 (⟦<SureSink as Sink>⟧.held sink.old) (⟦<SureSink as Sink>⟧.held sink.new) 0 0 result }
{
    replay_top(alloc, words, world, source, sink)
}
