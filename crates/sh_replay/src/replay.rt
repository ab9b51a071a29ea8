// From the bytes in to the bytes out.
ghost use Rattle.std.specs.Prelude.{◌≡◌, ◌≤◌, ℕ, List, Option, None, Some, length, map, All, IfOk, MatchResult};
ghost use Rattle.sh_base.specs.Parts.{parts_of};
ghost use Rattle.sh_sheet.specs.{declared.item.Mode.TheVariants.{Replay}, Sheet.{AreFew, IsLawfulItem}};
ghost use Rattle.sh_options.specs.Order.{asked_of, order_of};
ghost use Rattle.sh_world.specs.States.{IsBlank};
ghost use Rattle.sh_replay.specs.Headline.{AreItems, HasCount, HasNoItems, Headline, Replayed};

use crate::serve::{serve, world_of};
use crate::tells::{Told, Untold};
use crate::turns::Plan;
use sh_options::{Order, WordFault, read_words};
use sh_port::{Intake, Sink, Source, read_all};
use sh_sheet::{Mode, Sheet, SheetFault, Status, generate, read_sheet};
use sh_world::World;
use std::alloc::Global;

// The sheet that the source's bytes say.
fn read_items<S: Source>(alloc: Global, order: &Order, source: &mut S) -> Result<Sheet, Status>
    requires { order.now.make ≡ None }
    ensures are { MatchResult result (λ s. AreItems (asked_of order.now) (S.left source.old) (S.left source.new) (S.faults source.old) (S.faults source.new) s.items) (HasNoItems (asked_of order.now) (S.left source.old) (S.left source.new) (S.faults source.old) (S.faults source.new)) }
    ensures few { IfOk result (λ s. AreFew (parts_of order.now.cfg) s.items) }
    ensures lawful { IfOk result (λ s. All (IsLawfulItem (parts_of order.now.cfg)) s.items) }
{
    let bytes = match read_all(alloc, source) {
        Ok(bytes) => bytes,
        Err(Intake::Fault) => return Err(Status::ReadFault),
        Err(Intake::TooLong) => return Err(Status::TooLong),
        Err(Intake::NoMemory) => return Err(Status::NoMemory),
    };
    let sheet = match read_sheet(alloc, &bytes, Mode::Replay, &order.cfg) {
        Ok(sheet) => sheet,
        Err(SheetFault::Row { row, cause }) => return Err(Status::BadRow { row, cause }),
        Err(SheetFault::TooMany) => return Err(Status::TooMany),
        Err(SheetFault::NoMemory) => return Err(Status::NoMemory),
    };
    Ok(sheet)
}

// The sheet of the calls that are made for the order.
fn make_items(alloc: Global, order: &Order, n: u64) -> Result<Sheet, Status>
    requires make { order.now.make ≡ Some n }
    requires count { HasCount (Some n) }
    ensures are { (left : Option (List ℕ)) (now : ℕ) → MatchResult result (λ s. AreItems (asked_of order.now) left left now now s.items) (HasNoItems (asked_of order.now) left left now now) }
    ensures few { IfOk result (λ s. AreFew (parts_of order.now.cfg) s.items) }
    ensures lawful { IfOk result (λ s. All (IsLawfulItem (parts_of order.now.cfg)) s.items) }
{
    match generate(alloc, &order.cfg, n, order.seed) {
        Ok(sheet) => Ok(sheet),
        Err(SheetFault::TooMany) => Err(Status::TooMany),
        Err(_) => Err(Status::NoMemory),
    }
}

// The sheet of the order: calls that are made, or what is read.
fn items_of<S: Source>(alloc: Global, order: &Order, source: &mut S) -> Result<Sheet, Status>
    requires { HasCount order.now.make }
    ensures are { MatchResult result (λ s. AreItems (asked_of order.now) (S.left source.old) (S.left source.new) (S.faults source.old) (S.faults source.new) s.items) (HasNoItems (asked_of order.now) (S.left source.old) (S.left source.new) (S.faults source.old) (S.faults source.new)) }
    ensures few { IfOk result (λ s. AreFew (parts_of order.now.cfg) s.items) }
    ensures lawful { IfOk result (λ s. All (IsLawfulItem (parts_of order.now.cfg)) s.items) }
{
    match order.make {
        Some(n) => make_items(alloc, order, n),
        None => read_items(alloc, order, source),
    }
}

// Replays the order: serves its sheet and writes the lines.
fn replay<S: Source, K: Sink>(
    alloc: Global,
    order: &Order,
    world: &mut World,
    source: &mut S,
    sink: &mut K,
) -> Status
    requires blank { IsBlank world.old }
    requires count { HasCount order.now.make }
    ensures { Replayed (asked_of order.now) world.old world.new (S.left source.old) (S.left source.new) (S.faults source.old) (S.faults source.new) (K.held sink.old) (K.held sink.new) (K.faults sink.old) (K.faults sink.new) result }
{
    let sheet = match items_of(alloc, order, source) {
        Ok(sheet) => sheet,
        Err(status) => return status,
    };
    let Ok(given) = world_of(alloc, &order.cfg, &sheet) else {
        return Status::NoMemory;
    };
    let Ok(plan) = Plan::of(alloc, sheet) else {
        return Status::NoMemory;
    };
    *world = given;
    if order.events {
        serve::<K, Told>(alloc, order, world, plan, sink)
    } else {
        serve::<K, Untold>(alloc, order, world, plan, sink)
    }
}

/// Replays a sheet as the words ask for it: reads it from the source, or makes its calls and reads nothing; lays a pool and
/// gives the calls to their seats; makes the turns of its rows in their order, and then rounds of all seats until every call
/// has ended; and writes a line for each call to the sink, or of made calls their number and seed and how many were answered
/// in which way; then the map where it is asked for, and a last line with the number of calls, the keys that the pool's
/// words hold, and the sum of their values. Where events are asked for, the line of each is written right behind its turn;
/// all other lines come behind the last turn. Condition: the world is blank.
///
/// A seat before an after takes no turn until the after's mark is passed: until its seat's earlier calls have ended, and the
/// marks of its seat's earlier afters are passed.
///
/// `Usage` comes exactly where the words are refused; then nothing is read. `ReadFault` comes only where the source's count
/// of faults rose, `TooLong` exactly where 16,777,217 bytes were taken, `BadRow` exactly where a row is refused, with the
/// first such row and its cause, and `TooMany` exactly where the rows ask for too many calls, turns or rows of ranges, or the
/// calls that are made for too many rows. Up to there nothing is written and the world is blank. `Unfinished` comes exactly
/// where the rounds made 4,096 turns and 100,000 more for each call, a call hasn't ended, and all lines were written; then a
/// call without an end has the word `pending` in its line, and the last line tells how many have ended. `WriteFault` comes
/// only where the sink's count rose; what was written is a front of the output, and where the line of an event failed, no
/// turn is made behind that event's. `NoMemory` is free: nothing was written, or a front of the output in the same way, and
/// the world is blank, or its book is lawful.
pub fn replay_top<S: Source, K: Sink>(
    alloc: Global,
    words: &[&str],
    world: &mut World,
    source: &mut S,
    sink: &mut K,
) -> Status
    requires { IsBlank world.old }
    ensures { Headline (order_of Replay (map (λ w. w.now) words.now)) world.old world.new (S.left source.old) (S.left source.new) (S.faults source.old) (S.faults source.new) (K.held sink.old) (K.held sink.new) (K.faults sink.old) (K.faults sink.new) result }
{
    match read_words(alloc, words, Mode::Replay) {
        Ok(order) => replay(alloc, &order, world, source, sink),
        Err(WordFault::Usage) => Status::Usage,
        Err(WordFault::NoMemory) => Status::NoMemory,
    }
}
