// What a client is, what it wants, and what it is at.
use crate::Words;
use sh_alloc::{Chunks, Spare};
use sh_base::{Config, Event};
use sh_cache::Cache;
use sh_decide::{Aim, Posting};
use sh_map::{Call, Reply, Row};
use sh_read::Reading;
use std::marker::Model;

/// The turn that a client wants.
#[derive(Clone, Copy, Debug, PartialEq, Eq)]
pub enum Want {
    /// An event on one word; it's fed the word that the event found.
    Event(Event),
    /// A ticket of its compute server's queue of this lock; it's fed the ticket.
    Draw { lock: u32 },
    /// A look whether its ticket is served.
    Look { lock: u32 },
    /// How many later tickets were drawn; it's fed that number.
    Waiting { lock: u32 },
    /// To leave the queue, and where `carry` is there to hand the lock over with this depth; it's fed 0.
    Leave { lock: u32, carry: Option<u32> },
    /// Nothing: it's idle, or its call has ended.
    Done,
}

/// An event that a client made itself, and the word that it found.
#[derive(Clone, Copy, Debug, PartialEq, Eq)]
pub struct Step {
    pub event: Event,
    pub found: u64,
}

/// What a client has counted since it was made. A counter stays at its last value, 2^64 - 1.
#[derive(Clone, Copy, Debug, PartialEq, Eq)]
pub struct Tally {
    /// READs whose words were torn.
    pub again: u64,
    /// Hops to the right.
    pub rights: u64,
    /// Nodes that were split.
    pub splits: u64,
    /// Locks that were handed over.
    pub handed: u64,
    /// Calls that began at the child of a cached row.
    pub from_cache: u64,
    /// Posts that were skipped since there was no node left.
    pub skipped_spent: u64,
    /// Posts that were skipped since the node's version was the last one.
    pub skipped_worn: u64,
    /// Leaves that were rewritten.
    pub rewritten: u64,
}

/// What follows when a lock is given back: the call ends, or a descent starts at the root word, or the lock of the node
/// to the right is taken.
#[derive(Clone, Copy, Debug, PartialEq, Eq)]
pub enum Then {
    Ends,
    Starts { aim: Aim },
    Takes { aim: Aim, node: u32 },
}

/// What is stored before a lock is given back: nothing, one entry, a rewritten leaf, the left half of a leaf, an inner
/// node with a pair more, or the left half of an inner node.
#[derive(Clone, Copy, Debug, PartialEq, Eq)]
pub enum Write {
    Nothing,
    Entry { index: u32 },
    Leaf,
    LeftLeaf,
    Inner,
    LeftInner,
}

/// The lock of a node that is to be given back: behind this write, and with what follows then.
#[derive(Clone, Copy, Debug, PartialEq, Eq)]
pub struct Giving {
    pub node: u32,
    pub write: Write,
    pub after: Then,
}

/// What a fresh node is sought for: the right half of the node that was READ under its lock, which was handed over
/// `depth` times, or a new root over this one.
#[derive(Clone, Copy, Debug, PartialEq, Eq)]
pub enum Need {
    ToSplit { aim: Aim, depth: u32 },
    ToGrow { posting: Posting, root: u32 },
}

/// What a fresh node is filled with: the right half of a node whose lock is given back then, or a new root over this one.
#[derive(Clone, Copy, Debug, PartialEq, Eq)]
pub enum Filling {
    RightHalf { depth: u32, giving: Giving },
    NewRoot { posting: Posting, root: u32 },
}

/// What a client is at.
#[derive(Clone, Copy, Debug, PartialEq, Eq)]
pub enum Phase {
    /// It has no call.
    Idle,
    /// It loads the root word.
    Root {
        aim: Aim,
    },
    /// It READs a node without a lock; `top` says that the root word named it.
    Read {
        aim: Aim,
        top: bool,
    },
    /// It draws a ticket for the lock of a node.
    Draw {
        aim: Aim,
        node: u32,
    },
    /// It looks whether its ticket is served.
    Look {
        aim: Aim,
        node: u32,
    },
    /// It exchanges the lock word.
    Grab {
        aim: Aim,
        node: u32,
    },
    /// It READs the node under its lock, which was handed over `depth` times.
    ReadLocked {
        aim: Aim,
        depth: u32,
    },
    /// It looks for a chunk of nodes.
    Seek {
        need: Need,
    },
    /// It stores a right half or a new root to a fresh node; `done` words are stored.
    Fill {
        fresh: u32,
        done: u32,
        filling: Filling,
    },
    /// It asks how many wait for the lock.
    Waiting {
        depth: u32,
        giving: Giving,
    },
    /// It stores what is to be written; `done` words are stored.
    Body {
        carry: Option<u32>,
        done: u32,
        giving: Giving,
    },
    /// It stores 0 to the lock word.
    Unlock {
        node: u32,
        after: Then,
    },
    /// It leaves the queue.
    Leave {
        node: u32,
        carry: Option<u32>,
        after: Then,
    },
    /// It exchanges the root word, of the old root for the new one.
    Swap {
        posting: Posting,
        root: u32,
        fresh: u32,
    },
    /// Its call has ended.
    Ended,
}

/// Where a call begins by a cached node: that node's low fence, and its child for the call's key.
#[derive(Clone, Copy, Debug, PartialEq, Eq)]
pub struct Origin {
    pub low: u64,
    pub child: u32,
}

/// Where a leaf ends: its high fence, and the node to the right of it.
#[derive(Clone, Copy, Debug, PartialEq, Eq)]
pub struct Edge {
    pub high: u64,
    pub next: u32,
}

/// A client of one seat. It has room for the words of two nodes to be stored, for the rows of a range and for the inner
/// nodes that it caches. It takes memory when it is made alone.
#[derive(Debug, Drop)]
pub struct Client {
    pub(crate) cfg: Config,
    pub(crate) seat: u32,
    pub(crate) spare: Spare,
    pub(crate) tally: Tally,
    pub(crate) call: Call,
    pub(crate) reply: Reply,
    pub(crate) reading: Reading,
    pub(crate) chunks: Chunks,
    pub(crate) body: Words,
    pub(crate) fresh_words: Words,
    pub(crate) rows: Vec<Row>,
    pub(crate) cache: Cache,
    pub(crate) origin: Option<u64>,
    // The lock for which it waits, where it does: it's worked out once, and not at each turn.
    pub(crate) lock: u32,
    pub(crate) phase: Phase,
}

impl Model for Client {
    ghost use Rattle.std.specs.Vec.{vec_capacity};
    ghost use Rattle.sh_client.specs.{Machine.{Machine, Registers}, Sound.{IsClient}};

    ghost Value = { Machine };

    ghost view = { λ c. record { setting = c.cfg.parts; seat = c.seat; registers = record { spare = c.spare.range; tally = c.tally; call = c.call; reply = c.reply; reads = c.reading.reads; walk = c.chunks.walk; body = c.body; fresh_words = c.fresh_words; rows = c.rows.items; cached = c.cache.rows; origin = c.origin }; phase = c.phase } };

    ghost invariant = { λ c. IsClient c.cfg.parts c.seat (record { spare = c.spare.range; tally = c.tally; call = c.call; reply = c.reply; reads = c.reading.reads; walk = c.chunks.walk; body = c.body; fresh_words = c.fresh_words; rows = c.rows.items; cached = c.cache.rows; origin = c.origin }) c.reading c.chunks c.cache (vec_capacity c.rows) c.lock c.phase };
}
