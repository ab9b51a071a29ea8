// What is kept of spare nodes and of a walk over the counters.
ghost use Rattle.std.specs.Prelude.{◌+◌, ◌<◌, ◌≤◌};
ghost use Rattle.sh_alloc.specs.Walks.{IsWalk};

use sh_base::{Config, Event};

/// Nodes of rising numbers: `count` of them, from `first` on.
#[derive(Clone, Copy, Debug, PartialEq, Eq)]
pub struct NodeRange {
    pub(crate) first: u32,
    pub(crate) count: u32,
}

/// The nodes of a seat that stand in no tree yet.
#[derive(Clone, Copy, Debug)]
pub struct Spare {
    pub(crate) range: NodeRange,
    ghost low: { 1 ≤ range.first },
    ghost high: { range.first + range.count < 4294967296 },
}

/// How far a walk is at its server: before the load of the counter, before the add, with a chunk, or at the end.
#[derive(Clone, Copy, Debug, PartialEq, Eq)]
pub enum Phase {
    Loading,
    Adding,
    Found { chunk: u32 },
    Spent,
}

/// Where a walk is: the server that it began at, how many servers it has passed, and how far it is at this one.
#[derive(Clone, Copy, Debug, PartialEq, Eq)]
pub struct Walk {
    pub(crate) first: u32,
    pub(crate) passed: u32,
    pub(crate) phase: Phase,
}

/// A walk over the servers' counters, once round, for a chunk that is nobody's yet.
#[derive(Clone, Copy, Debug)]
pub struct Chunks {
    pub(crate) cfg: Config,
    pub(crate) walk: Walk,
    ghost lawful: { IsWalk cfg.parts walk },
}

/// What a walk wants: an event on a counter, whose word is to be fed; or nothing more, with this chunk of this server
/// in hand, or with the chunks of every server spent.
#[derive(Clone, Copy, Debug, PartialEq, Eq)]
pub enum ChunkWant {
    Event(Event),
    Got { server: u32, chunk: u32 },
    AllSpent,
}
