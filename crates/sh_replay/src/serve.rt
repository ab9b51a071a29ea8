// A sheet is served by a world.
ghost use Rattle.std.specs.{Prelude.{◌≡◌, ◌≤◌, ◌<◌, ℕ, [], List, Option, All, IfOk, OnOk, length, map, filter}, List.{fold, sum_by}};
ghost use Rattle.sh_base.specs.{Parts.{parts_of}, Setting.{all_seats}};
ghost use Rattle.sh_sheet.specs.Sheet.{item_calls, AreFew, IsLawfulItem, is_call};
ghost use Rattle.sh_options.specs.Order.{asked_of};
ghost use Rattle.sh_world.specs.States.{State};
ghost use Rattle.sh_replay.specs.{Course.{budget_of, given_by}, Headline.{ended_with, unwritten, AreItems, IsWritten, Replayed}, Served.{item_of, HasEnded, HoldsRows, IsGiven, IsReady}, Standing.{IsPlan}};

use crate::Finish;
use crate::output::write_lines;
use crate::tells::Tells;
use crate::turns::{Plan, make_turns};
use sh_base::Config;
use sh_map::Rows;
use sh_options::Order;
use sh_port::Sink;
use sh_sheet::{Item, Sheet, Status};
use sh_text::WriteError;
use sh_tree::pairs_in;
use sh_world::World;
use std::alloc::{AllocError, Global};

// The calls of these items are given, in their order.
fn give_all(world: &mut World, items: &[Item]) -> Result<(), AllocError>
    requires seats { length world.old.seats ≡ all_seats world.old.setting }
    requires none { world.old.calls ≡ [] }
    requires items { All (IsLawfulItem world.old.setting) items.now }
    requires few { sum_by item_calls items.now ≤ 1000000 }
    ensures { OnOk result (world.new ≡ fold given_by world.old items.now) }
{
    for item in items {
        if let Item::Ask { seat, call } = item {
            world.give(*seat, *call)?;
        }
    }
    Ok(())
}

// The status of a run whose lines weren't all written.
fn unwritten(error: WriteError) -> Status
    ensures { result ≡ unwritten error }
{
    match error {
        WriteError::Fault => Status::WriteFault,
        WriteError::NoMemory => Status::NoMemory,
    }
}

// The status of a run whose lines were all written.
fn ended_with(finish: Finish) -> Status
    ensures { result ≡ ended_with finish }
{
    match finish {
        Finish::Done(_) => Status::Ok,
        Finish::Spent(turns) => Status::Unfinished { turns },
    }
}

// How many turns the rounds of so many calls may make.
fn budget_of(calls: usize) -> u64
    requires { calls ≤ 1000000 }
    ensures { result ≡ budget_of calls }
{
    4096 + 100_000 * calls as u64
}

// The rows that the words hold, where every call has ended.
fn rows_in(alloc: Global, world: &World, finish: &Finish) -> Result<Rows, AllocError>
    requires laid { 0 < length world.now.seats }
    requires ended { HasEnded world.now finish.now }
    ensures { IfOk result (λ rows. HoldsRows world.now finish.now rows) }
{
    world.keeps_the_laws();
    match finish {
        Finish::Done(_) => pairs_in(alloc, world.setting(), world.words()),
        Finish::Spent(_) => Ok(Rows::new(alloc)),
    }
}

// A world that was laid and given the sheet's calls.
pub(crate) fn world_of(alloc: Global, cfg: &Config, sheet: &Sheet) -> Result<World, AllocError>
    requires items { All (IsLawfulItem (parts_of cfg.now)) sheet.now.items }
    requires few { sum_by item_calls sheet.now.items ≤ 1000000 }
    ensures given { IfOk result (λ w. IsGiven (parts_of cfg.now) sheet.now.items w) }
    ensures laid { IfOk result (λ w. 0 < length w.seats) }
    ensures calls { IfOk result (λ w. map item_of w.calls ≡ filter is_call sheet.now.items) }
    ensures lawful { IfOk result (λ w. All (IsLawfulItem w.setting) sheet.now.items) }
{
    let mut world = World::blank(alloc);
    world.lay(alloc, cfg)?;
    give_all(&mut world, sheet.as_slice())?;
    Ok(world)
}

// Writes the lines behind those of the events, and tells how the replay ended.
fn write_behind<K: Sink>(
    alloc: Global,
    order: &Order,
    world: &World,
    finish: Finish,
    sink: &mut K,
) -> Status
    requires laid { 0 < length world.now.seats }
    requires few { length world.now.calls ≤ 1000000 }
    requires ended { HasEnded world.now finish }
    ensures { IsWritten (asked_of order.now) world.now finish (K.held sink.old) (K.held sink.new) (K.faults sink.old) (K.faults sink.new) result }
{
    world.keeps_the_laws();
    let Ok(rows) = rows_in(alloc, world, &finish) else {
        return Status::NoMemory;
    };
    match write_lines(alloc, sink, order, world.calls(), rows.as_slice()) {
        Ok(()) => ended_with(finish),
        Err(error) => unwritten(error),
    }
}

/// Serves the items of a plan, whose calls the world was given, and writes the lines of the order: those of the events as
/// the turns are made, and the others behind them.
pub(crate) fn serve<K: Sink, T: Tells>(
    alloc: Global,
    order: &Order,
    world: &mut World,
    plan: Plan,
    sink: &mut K,
) -> Status
    requires ready { IsReady (parts_of order.now.cfg) world.old plan }
    requires told { order.now.events ≡ T.TOLD }
    ensures { (items : List Item) (blank : State) (left rest : Option (List ℕ)) (before now : ℕ) → IsPlan items plan → IsGiven (parts_of order.now.cfg) items world.old → All (IsLawfulItem (parts_of order.now.cfg)) items → AreItems (asked_of order.now) left rest before now items → AreFew (parts_of order.now.cfg) items → Replayed (asked_of order.now) blank world.new left rest before now (K.held sink.old) (K.held sink.new) (K.faults sink.old) (K.faults sink.new) result }
{
    world.keeps_the_laws();
    let budget = budget_of(world.calls().len());
    match make_turns::<K, T>(alloc, sink, world, plan, budget) {
        Ok(finish) => {
            world.keeps_the_laws();
            write_behind(alloc, order, world, finish, sink)
        }
        Err(error) => {
            world.keeps_the_laws();
            unwritten(error)
        }
    }
}
