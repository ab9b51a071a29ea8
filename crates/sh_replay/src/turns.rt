// The turns of a replay: those that the sheet's rows name, and then the finishing rounds.
ghost use Rattle.std.specs.{Prelude.{◌≡◌, ◌≢◌, ◌≤◌, ◌<◌, ◌+◌, ℕ, [], ◌∷◌, List, Option, All, IfOk, OnOk, OnErr, length, map, take, filter, slice_get, true}, List.{fold, range_with_len, sum_by}, Io.KnownBytes.{Appends}};
ghost use Rattle.sh_port.specs.Port.{AppendsFront};
ghost use Rattle.sh_text.specs.Write.{HasWriteCause};
ghost use Rattle.sh_sheet.specs.{declared.item.Item.{Item}, Sheet.{item_calls, IsLawfulItem, item_seat, is_call}};
ghost use Rattle.sh_world.specs.declared.turn.Turn.TheVariants as turn;
ghost use Rattle.sh_replay.specs.{Course.{all_asks, begun, finished, found_in, goes_on, have_ended, rounds_asks, turn_asks, Asking, Course, HasFinished, InRound}, Output.{event_lines, line_of}, Served.{item_of}};
ghost use Rattle.sh_replay.specs.{Standing.{left_after, HasCause, HasEnds, IsAsk, IsAt, IsChoice, IsMove, IsPlan, Keeps}, Stopping.{Stops}, Thinning.{goes_in, AllRest, IsThinned}, TurnRows.{kept_asks, turn_rows}};

use crate::Finish;
use crate::marks::Marks;
use crate::tells::{Tells, Untold};
use sh_base::Event;
use sh_port::{Sink, SureSink};
use sh_sheet::{Item, Sheet};
use sh_text::{WriteError, write_event};
use sh_world::{Calls, Turn, World};
use std::alloc::{AllocError, Global};

// A row of turns.
#[derive(Clone, Copy, Debug)]
pub(crate) struct TurnRow {
    pub(crate) seat: u32,
    pub(crate) count: u64,
}

// What became of a seat that was asked: it took a turn, it was idle, or it is held back.
#[derive(Clone, Copy, Debug)]
enum Outcome {
    Turned,
    Idle,
    Held,
}

// What a round leaves: how many seats aren't idle, and how many turns may still be made.
#[derive(Clone, Copy, Debug)]
struct Left {
    seats: usize,
    turns: u64,
}

// Writes the line of a turn's event, where the events are told.
#[inline]
fn tell<K: Sink, T: Tells>(
    alloc: Global,
    sink: &mut K,
    seat: u32,
    event: &Event,
    found: u64,
) -> Result<(), WriteError>
    ensures ok { OnOk result (Appends (K.held sink.old) (K.held sink.new) (event_lines T.TOLD (found_in seat (turn.Event event.now found)))) }
    ensures err { OnErr result (AppendsFront (K.held sink.old) (K.held sink.new) (line_of (record { seat = seat; event = event.now; found = found }))) }
    ensures told { OnErr result (T.TOLD ≡ true) }
    ensures cause { HasWriteCause (K.faults sink.old) (K.faults sink.new) result }
{
    if T::TOLD {
        write_event(alloc, sink, seat, event, found)
    } else {
        Ok(())
    }
}

// The seat takes a turn, unless it is idle or held back; an event's line is written right behind it.
#[inline]
fn ask<K: Sink, T: Tells>(
    alloc: Global,
    sink: &mut K,
    world: &mut World,
    marks: &mut Marks,
    seat: u32,
) -> Result<Outcome, WriteError>
    requires seat { seat < length world.old.seats }
    requires few { length world.old.seats ≤ 64 }
    ensures moved { IfOk result (λ o. IsMove world.old seat world.new o) }
    ensures choice { (items : List Item) → Keeps items world.old marks.old → IfOk result (λ o. IsChoice items world.old seat o) }
    ensures ok { (items : List Item) (c : Course) (left : ℕ) (held : Option (List ℕ)) (a : Asking) → IsAt items T.TOLD c world.old marks.old left held (K.held sink.old) → IsAsk seat left a → IfOk result (λ o. IsAt items T.TOLD (goes_on items c a) world.new marks.new (left_after o a left) held (K.held sink.new)) }
    ensures err { (items : List Item) (c : Course) (left : ℕ) (held : Option (List ℕ)) (a : Asking) → IsAt items T.TOLD c world.old marks.old left held (K.held sink.old) → IsAsk seat left a → OnErr result (Stops items c (a ∷ []) world.new held (K.held sink.new)) }
    ensures told { OnErr result (T.TOLD ≡ true) }
    ensures seats { length world.new.seats ≡ length world.old.seats }
    ensures cause { HasCause (K.faults sink.old) (K.faults sink.new) result }
{
    world.keeps_the_laws();
    if marks.holds(world, seat) {
        return Ok(Outcome::Held);
    }
    match world.turn(seat) {
        Turn::Event(event, found) => match tell::<K, T>(alloc, sink, seat, &event, found) {
            Ok(()) => Ok(Outcome::Turned),
            Err(error) => Err(error),
        },
        Turn::Local => Ok(Outcome::Turned),
        Turn::Idle => Ok(Outcome::Idle),
    }
}

// The seat takes so many turns, where there is one. Once it is idle or held back the rest is left out.
fn take_turns<K: Sink, T: Tells>(
    alloc: Global,
    sink: &mut K,
    world: &mut World,
    marks: &mut Marks,
    seat: u32,
    count: u64,
) -> Result<(), WriteError>
    requires { length world.old.seats ≤ 64 }
    ensures ok { (items : List Item) (c : Course) (left : ℕ) (held : Option (List ℕ)) → IsAt items T.TOLD c world.old marks.old left held (K.held sink.old) → OnOk result (IsAt items T.TOLD (fold (goes_on items) c (turn_asks seat count)) world.new marks.new left held (K.held sink.new)) }
    ensures err { (items : List Item) (c : Course) (left : ℕ) (held : Option (List ℕ)) → IsAt items T.TOLD c world.old marks.old left held (K.held sink.old) → OnErr result (Stops items c (turn_asks seat count) world.new held (K.held sink.new)) }
    ensures told { OnErr result (T.TOLD ≡ true) }
    ensures seats { length world.new.seats ≡ length world.old.seats }
    ensures cause { HasCause (K.faults sink.old) (K.faults sink.new) result }
{
    if seat >= world.seats() {
        return Ok(());
    }
    for _ in 0..count {
        match ask::<K, T>(alloc, sink, world, marks, seat) {
            Ok(outcome) => match outcome {
                Outcome::Turned => {}
                _ => return Ok(()),
            },
            Err(error) => return Err(error),
        }
    }
    Ok(())
}

// The rows of turns among these items, in their order.
fn turn_rows(alloc: Global, items: &[Item]) -> Result<Vec<TurnRow>, AllocError>
    ensures { IfOk result (λ v. v.items ≡ turn_rows items.now) }
{
    let mut rows = Vec::new(alloc);
    for item in items {
        if let Item::Turn { seat, count } = item {
            rows.push(TurnRow {
                seat: *seat,
                count: *count,
            })?;
        }
    }
    Ok(rows)
}

// The turns of these rows, in their order.
fn take_all<K: Sink, T: Tells>(
    alloc: Global,
    sink: &mut K,
    world: &mut World,
    marks: &mut Marks,
    rows: &[TurnRow],
) -> Result<(), WriteError>
    requires { length world.old.seats ≤ 64 }
    ensures ok { (items : List Item) (c : Course) (left : ℕ) (held : Option (List ℕ)) → IsAt items T.TOLD c world.old marks.old left held (K.held sink.old) → OnOk result (IsAt items T.TOLD (fold (goes_on items) c (kept_asks rows.now)) world.new marks.new left held (K.held sink.new)) }
    ensures err { (items : List Item) (c : Course) (left : ℕ) (held : Option (List ℕ)) → IsAt items T.TOLD c world.old marks.old left held (K.held sink.old) → OnErr result (Stops items c (kept_asks rows.now) world.new held (K.held sink.new)) }
    ensures told { OnErr result (T.TOLD ≡ true) }
    ensures seats { length world.new.seats ≡ length world.old.seats }
    ensures cause { HasCause (K.faults sink.old) (K.faults sink.new) result }
{
    for row in rows {
        match take_turns::<K, T>(alloc, sink, world, marks, row.seat, row.count) {
            Ok(()) => {}
            Err(error) => return Err(error),
        }
    }
    Ok(())
}

// A round of the first so many of these seats: each is asked in its place. Those that aren't idle come to the front, in
// their order.
fn round<K: Sink, T: Tells>(
    alloc: Global,
    sink: &mut K,
    world: &mut World,
    marks: &mut Marks,
    seats: &mut [u32],
    asked: Left,
) -> Result<Left, WriteError>
    requires few { length world.old.seats ≤ 64 }
    requires count { asked.seats ≤ length seats.old }
    requires seats { All (λ x. x < length world.old.seats) (take asked.seats seats.old) }
    ensures ok { (items : List Item) (c : Course) (held : Option (List ℕ)) → IsAt items T.TOLD c world.old marks.old asked.turns held (K.held sink.old) → IfOk result (λ l. IsAt items T.TOLD (fold (goes_in items) c (take asked.seats seats.old)) world.new marks.new l.turns held (K.held sink.new)) }
    ensures err { (items : List Item) (c : Course) (held : Option (List ℕ)) → IsAt items T.TOLD c world.old marks.old asked.turns held (K.held sink.old) → OnErr result (Stops items c (map InRound (take asked.seats seats.old)) world.new held (K.held sink.new)) }
    ensures thinned { IfOk result (IsThinned world.old seats.old asked world.new seats.new) }
    ensures told { OnErr result (T.TOLD ≡ true) }
    ensures size { length world.new.seats ≡ length world.old.seats }
    ensures cause { HasCause (K.faults sink.old) (K.faults sink.new) result }
{
    let mut kept = 0;
    let mut turns = asked.turns;
    for i in 0..asked.seats {
        if turns == 0 {
            return Ok(Left { seats: kept, turns });
        }
        let seat = seats[i];
        match ask::<K, T>(alloc, sink, world, marks, seat) {
            Ok(outcome) => match outcome {
                Outcome::Turned => {
                    turns -= 1;
                    seats[kept] = seat;
                    kept += 1;
                }
                Outcome::Held => {
                    seats[kept] = seat;
                    kept += 1;
                }
                Outcome::Idle => {}
            },
            Err(error) => return Err(error),
        }
    }
    Ok(Left { seats: kept, turns })
}

// So many seats, rising.
fn rising(count: usize) -> [u32; 64]
    requires { count ≤ 64 }
    ensures length { length result ≡ 64 }
    ensures seats { take count result ≡ range_with_len 0 count }
{
    let mut seats = [0; 64];
    for seat in 0..count {
        seats[seat] = seat as u32;
    }
    seats
}

// Rounds of all seats, until none can take a turn or all turns were made. How many may still be made comes back.
fn rounds<K: Sink, T: Tells>(
    alloc: Global,
    sink: &mut K,
    world: &mut World,
    marks: &mut Marks,
    budget: u64,
) -> Result<u64, WriteError>
    requires { length world.old.seats ≤ 64 }
    ensures ok { (items : List Item) (c : Course) (held : Option (List ℕ)) → IsAt items T.TOLD c world.old marks.old budget held (K.held sink.old) → IfOk result (λ n. IsAt items T.TOLD (fold (goes_on items) c (rounds_asks budget (length world.old.seats))) world.new marks.new n held (K.held sink.new) × AllRest items (record { world = world.new; left = n })) }
    ensures err { (items : List Item) (c : Course) (held : Option (List ℕ)) → IsAt items T.TOLD c world.old marks.old budget held (K.held sink.old) → OnErr result (Stops items c (rounds_asks budget (length world.old.seats)) world.new held (K.held sink.new)) }
    ensures left { IfOk result (λ n. n ≤ budget) }
    ensures told { OnErr result (T.TOLD ≡ true) }
    ensures size { length world.new.seats ≡ length world.old.seats }
    ensures cause { HasCause (K.faults sink.old) (K.faults sink.new) result }
{
    let mut count = world.seats() as usize;
    let mut seats = rising(count);
    let mut turns = budget;
    while turns > 0 {
        let asked = Left {
            seats: count,
            turns,
        };
        match round::<K, T>(alloc, sink, world, marks, &mut seats, asked) {
            Ok(left) => {
                if left.turns == turns {
                    return Ok(turns);
                }
                count = left.seats;
                turns = left.turns;
            }
            Err(error) => return Err(error),
        }
    }
    Ok(turns)
}

/// Whether every call has ended.
pub fn have_ended(calls: &Calls) -> bool
    ensures { result ≡ have_ended calls.now.calls }
{
    for i in 0..calls.len() {
        if calls.get(i).reply.is_none() {
            return false;
        }
    }
    true
}

// The rounds of a world whose turn rows were made, and how they ended.
fn finish_rounds<K: Sink, T: Tells>(
    alloc: Global,
    sink: &mut K,
    world: &mut World,
    marks: &mut Marks,
    budget: u64,
) -> Result<Finish, WriteError>
    requires laid { 0 < length world.old.seats }
    requires few { length world.old.seats ≤ 64 }
    ensures ok { (items : List Item) (c : Course) (held : Option (List ℕ)) → IsAt items T.TOLD c world.old marks.old budget held (K.held sink.old) → map item_of world.old.calls ≡ filter is_call items → IfOk result (λ f. HasEnds T.TOLD budget (fold (goes_on items) c (rounds_asks budget (length world.old.seats))) f world.new held (K.held sink.new)) }
    ensures err { (items : List Item) (c : Course) (held : Option (List ℕ)) → IsAt items T.TOLD c world.old marks.old budget held (K.held sink.old) → OnErr result (Stops items c (rounds_asks budget (length world.old.seats)) world.new held (K.held sink.new)) }
    ensures told { OnErr result (T.TOLD ≡ true) }
    ensures cause { HasCause (K.faults sink.old) (K.faults sink.new) result }
{
    match rounds::<K, T>(alloc, sink, world, marks, budget) {
        Ok(left) => {
            let turns = budget - left;
            world.keeps_the_laws();
            if have_ended(world.calls()) {
                Ok(Finish::Done(turns))
            } else {
                Ok(Finish::Spent(turns))
            }
        }
        Err(error) => Err(error),
    }
}

// What a run needs of a sheet: its turn rows, and its marks and afters.
#[derive(Debug, Drop)]
pub(crate) struct Plan {
    turns: Vec<TurnRow>,
    marks: Marks,
}

impl Plan {
    // The plan of a sheet, which is let go.
    pub(crate) fn of(alloc: Global, sheet: Sheet) -> Result<Plan, AllocError>
        requires seats { All (λ (i : Item). item_seat i < 64) sheet.items }
        requires few { sum_by item_calls sheet.items < 4294967296 }
        ensures { IfOk result (λ p. IsPlan sheet.items p) }
    {
        let turns = turn_rows(alloc, sheet.as_slice())?;
        let marks = Marks::of(alloc, sheet.as_slice())?;
        Ok(Plan { turns, marks })
    }
}

// Makes the turns of a planned sheet: those of its rows, and then rounds.
pub(crate) fn make_turns<K: Sink, T: Tells>(
    alloc: Global,
    sink: &mut K,
    world: &mut World,
    plan: Plan,
    budget: u64,
) -> Result<Finish, WriteError>
    requires laid { 0 < length world.old.seats }
    ensures ok { (items : List Item) → IsPlan items plan → map item_of world.old.calls ≡ filter is_call items → IfOk result (λ f. HasEnds T.TOLD budget (finished world.old items budget) f world.new (K.held sink.old) (K.held sink.new)) }
    ensures err { (items : List Item) → IsPlan items plan → OnErr result (Stops items (begun world.old budget) (all_asks items (length world.old.seats) budget) world.new (K.held sink.old) (K.held sink.new)) }
    ensures told { OnErr result (T.TOLD ≡ true) }
    ensures cause { HasCause (K.faults sink.old) (K.faults sink.new) result }
{
    world.keeps_the_laws();
    let Plan { turns, mut marks } = plan;
    match take_all::<K, T>(alloc, sink, world, &mut marks, &turns) {
        Ok(()) => finish_rounds::<K, T>(alloc, sink, world, &mut marks, budget),
        Err(error) => Err(error),
    }
}

/// Serves the calls that the world was given: first come the turns of the sheet's rows, in their order, then rounds of
/// all seats, rising. A seat that is asked takes one turn, where it has a call under way or left; a seat that stands before
/// an after takes none until all calls that come before the after's mark have ended. `Done` comes exactly where every call
/// has ended, and `Spent` exactly where `budget` turns were made in the rounds and a call hasn't ended. The sheet is let go
/// before the first turn, but for its turn rows and afters; after want of memory the world is as it was. Conditions: the
/// world is laid and was given just the sheet's calls, in their order, and the sheet's seats are its own.
pub fn finish(
    alloc: Global,
    world: &mut World,
    sheet: Sheet,
    budget: u64,
) -> Result<Finish, AllocError>
    requires laid { 0 < length world.old.seats }
    requires calls { map item_of world.old.calls ≡ filter is_call sheet.items }
    requires items { All (IsLawfulItem world.old.setting) sheet.items }
    ensures course { IfOk result (λ f. world.new ≡ (finished world.old sheet.items budget).stage.world) }
    ensures finish { IfOk result (λ f. HasFinished budget (finished world.old sheet.items budget).stage f) }
    ensures err { OnErr result (world.new ≡ world.old) }
{
    world.keeps_the_laws();
    let plan = Plan::of(alloc, sheet)?;
    let mut sink = SureSink::new();
    match make_turns::<SureSink, Untold>(alloc, &mut sink, world, plan, budget) {
        Ok(finish) => Ok(finish),
        Err(_) => Err(AllocError),
    }
}
