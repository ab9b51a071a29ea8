// What the headline means for a caller.
ghost use Rattle.std.specs.Prelude.{ℕ, List, Option, map};
ghost use Rattle.sh_sheet.specs.{declared.status.Status.{Status}, Status.{IsNoFault}};
ghost use Rattle.sh_options.specs.Order.{Asked};
ghost use Rattle.sh_pool.specs.Pools.{PoolState, IsBlankPool};
ghost use Rattle.sh_fleet.specs.{Headline.{accepted, Headline}, Complete.{IsFree, EndsWell}};

use crate::run_top;
use sh_pool::Pool;
use sh_port::{Sink, Source, SureSink, SureSource};
use sh_sheet::{Gate, Status};
use std::alloc::Global;
use std::marker::Sync;
use std::sync::Wait;
use std::thread::Threads;

/// A run is complete: with accepted words, lawful rows that are served and within the numbers, and no fault of source or
/// sink, it ends with `Ok` or with `NoMemory`.
pub fn run_laws()
    ensures complete { (asked : Option Asked) (old new : PoolState) (left rest : Option (List ℕ)) (before now : ℕ) (held after : Option (List ℕ)) (fell fallen : ℕ) (status : Status) → Headline asked old new left rest before now held after fell fallen status → IsFree asked left before now fell fallen → EndsWell status }
{}

/// [`run_top`] over a source and a sink that never fail: neither `ReadFault` nor `WriteFault` comes, and all that is said of
/// the other statuses holds. Condition: the pool is blank.
pub fn run_sure<R: Threads + Wait + Sync, G: Gate + Sync>(
    rt: &R,
    alloc: Global,
    words: &[&str],
    pool: &mut Pool,
    source: &mut SureSource,
    sink: &mut SureSink,
    gate: &G,
) -> Status
    requires { IsBlankPool pool.old }
    ensures no_fault { IsNoFault result }
    ensures headline { Headline (accepted (map (λ w. w.now) words.now)) pool.old pool.new (⟦<SureSource as Source>⟧.left source.old) (⟦<SureSource as Source>⟧.left source.new) 0 0 (⟦<SureSink as Sink>⟧.held sink.old) (⟦<SureSink as Sink>⟧.held sink.new) 0 0 result }
{
    run_top(rt, alloc, words, pool, source, sink, gate)
}
