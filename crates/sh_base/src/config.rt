// The numbers of a setting, and the first that is refused.
ghost use Rattle.sh_base.specs.Setting.{IsSetting};

/// The numbers of a setting, as they are given. Each has a range and a default; a lawful setting is a [`Config`].
#[derive(Clone, Copy, Debug, PartialEq, Eq)]
pub struct ConfigParts {
    /// Memory servers: 1 to 8, by default 2.
    pub servers: u32,
    /// Chunks of each server: 1 to 4096, by default 64.
    pub chunks: u32,
    /// Nodes of a chunk: 1 to 256, by default 32.
    pub chunk_nodes: u32,
    /// Lock words of each server: 1 to 1024, by default 64.
    pub locks: u32,
    /// Entries of a leaf: 4 to 64, by default 16. An inner node has up to twice as many pairs.
    pub leaf: u32,
    /// Compute servers: 1 to 8, by default 2.
    pub computes: u32,
    /// Seats of each compute server: 1 to 8, by default 4.
    pub seats: u32,
    /// The most handovers of a lock in a row: 0 to 64, by default 4.
    pub bound: u32,
    /// Bits of a node's version: 4 to 48, by default 32.
    pub bits: u32,
    /// Rows of a range's buffer: 1 to 4096, by default 256.
    pub rows: u32,
    /// Inner nodes that a seat caches: 0 to 256, by default 16.
    pub cached: u32,
    /// Words of a value: 1 to 8, by default 1.
    pub value_words: u32,
}

/// The first number of a setting that is out of its range, or the words of a pool that is too large.
#[derive(Clone, Copy, Debug, PartialEq, Eq)]
pub enum ConfigFault {
    Servers(u32),
    Chunks(u32),
    ChunkNodes(u32),
    Locks(u32),
    Leaf(u32),
    Computes(u32),
    Seats(u32),
    Bound(u32),
    Bits(u32),
    Rows(u32),
    Cached(u32),
    ValueWords(u32),
    /// The pool would have this many words, more than 4,194,304.
    TooLarge(u64),
}

/// A lawful setting: each number lies in its range, and the pool has at most 4,194,304 words.
#[derive(Clone, Copy, Debug)]
pub struct Config {
    pub(crate) parts: ConfigParts,
    ghost lawful: { IsSetting parts },
}
