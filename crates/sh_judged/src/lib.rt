//! What ties the programs to one another: the judge finds lawful what a replay prints, and a world's words are a lawful picture.
#![tactic(auto)]

ghost use Rattle.std.specs.Prelude.{◌≡◌, ◌<◌, ℕ, false, List, Option, None, length, map};
ghost use Rattle.sh_map.specs.declared.book.Row.{Row};
ghost use Rattle.sh_options.specs.Order.{Asked, order_of};
ghost use Rattle.sh_sheet.specs.declared.item.Mode.TheVariants.{Replay};
ghost use Rattle.sh_world.specs.{Running.{IsRunning}, States.{State, IsBlank}};
ghost use Rattle.sh_replay.specs.{declared.ending.Finish.TheVariants.{Done as AllDone}, Headline.{Headline, Served}, Course.{SeatEvent}, Output.{text_of}};
ghost use Rattle.sh_judge.specs.{declared.finding.Finding.TheVariants.{Lawful}, Finding.{IsFinding}};
ghost use Rattle.sh_judged.specs.Judged.{WritesLawful};

use sh_port::{Sink, Source};
use sh_replay::{World, replay_top};
use sh_sheet::Status;
use std::alloc::Global;

#[cfg(test)]
mod tests;

/// Where a sheet that was read has been served, and every call has ended, the judge finds the output lawful, with the calls
/// and the log of its world: with the lines of the map or without.
pub fn output_is_lawful()
    ensures { (o : Asked) (left rest : Option (List ℕ)) (before now : ℕ) (s : State) (turns : ℕ) (events : List SeatEvent) (rows : List Row) → IsRunning s → o.make ≡ None → o.events ≡ false → Served o left rest before now s (AllDone turns) events rows → IsFinding o.parts.value_words (text_of o events s.calls rows) (Lawful (length s.calls) (length s.log)) }
{}

/// [`replay_top`], whose output is found lawful where it ends with `Ok`. Condition: the world is blank.
pub fn replay_judged<S: Source, K: Sink>(
    alloc: Global,
    words: &[&str],
    world: &mut World,
    source: &mut S,
    sink: &mut K,
) -> Status
    requires { IsBlank world.old }
    ensures headline { Headline (order_of Replay (map (λ w. w.now) words.now)) world.old world.new (S.left source.old) (S.left source.new) (S.faults source.old) (S.faults source.new) (K.held sink.old) (K.held sink.new) (K.faults sink.old) (K.faults sink.new) result }
    ensures lawful { WritesLawful (order_of Replay (map (λ w. w.now) words.now)) world.new (K.held sink.old) (K.held sink.new) result }
{
    match replay_top(alloc, words, world, source, sink) {
        Status::Ok => {
            world.keeps_the_laws();
            Status::Ok
        }
        status => status,
    }
}
