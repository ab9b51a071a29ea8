// An inner node as columns of its pairs.
ghost use Rattle.std.specs.Prelude.{◌≡◌, ◌<◌, ◌≤◌, ◌++◌, ◌∷◌, [], length, slice_get, Some};

use crate::LeafImage;
use std::marker::Model;

/// A pair of an inner node: the child covers the keys from the separator on, up to the next pair's.
#[derive(Clone, Copy, Debug)]
pub struct Pair {
    /// The least key that the child covers.
    pub separator: u64,
    /// The child, by its node number.
    pub child: u32,
}

/// An inner node: its version, its level (1 above the leaves), its fences (it covers the keys from `low` on below
/// `high`), the next node of its level (0 for none) and its pairs. There is room for 128 pairs, in columns, and it
/// takes no memory.
#[derive(Debug, Drop)]
pub struct InnerImage {
    version: u64,
    level: u64,
    low: u64,
    high: u64,
    next: u32,
    count: u32,
    separators: [u64; 128],
    children: [u32; 128],
}

/// The image of a node.
#[derive(Debug, Drop)]
pub enum Image {
    /// A leaf's.
    Leaf(LeafImage),
    /// An inner node's.
    Inner(InnerImage),
}

impl Model for InnerImage {
    ghost use Rattle.std.specs.Prelude.{length, ◌≡◌, ◌≤◌};
    ghost use Rattle.sh_image.specs.{Inner.{Inner}, PairColumns.{pairs_of_columns}};

    ghost Value = { Inner };

    ghost view = { λ a. record { version = a.version; level = a.level; low = a.low; high = a.high; next = a.next; pairs = pairs_of_columns a.count a.separators a.children } };

    ghost invariant = { λ a. (a.count ≤ 128) × (length a.separators ≡ 128) × (length a.children ≡ 128) };
}

impl InnerImage {
    /// An inner node without pairs.
    pub fn new(version: u64, level: u64, low: u64, high: u64, next: u32) -> InnerImage
        ensures { result ≡ record { version = version; level = level; low = low; high = high; next = next; pairs = [] } }
    {
        InnerImage {
            version,
            level,
            low,
            high,
            next,
            count: 0,
            separators: [0; 128],
            children: [0; 128],
        }
    }

    // Begins another inner node in the place of this one, without pairs.
    pub(crate) fn begin(&mut self, version: u64, level: u64, low: u64, high: u64, next: u32)
        ensures { self.new ≡ record { version = version; level = level; low = low; high = high; next = next; pairs = [] } }
    {
        self.version = version;
        self.level = level;
        self.low = low;
        self.high = high;
        self.next = next;
        self.count = 0;
    }

    /// Becomes a copy of another inner node. It copies the pairs that the other has, and no room behind them.
    pub fn copy_from(&mut self, other: &InnerImage)
        ensures { self.new ≡ other.now }
    {
        self.version = other.version;
        self.level = other.level;
        self.low = other.low;
        self.high = other.high;
        self.next = other.next;
        self.count = other.count;
        let count = other.count as usize;
        self.separators[..count].copy_from_slice(&other.separators[..count]);
        self.children[..count].copy_from_slice(&other.children[..count]);
    }

    /// Its version.
    pub fn version(&self) -> u64
        ensures { result ≡ self.now.version }
    {
        self.version
    }

    /// Its level: 1 where its children are leaves.
    pub fn level(&self) -> u64
        ensures { result ≡ self.now.level }
    {
        self.level
    }

    /// Its lower fence: the least key that it covers.
    pub fn low(&self) -> u64
        ensures { result ≡ self.now.low }
    {
        self.low
    }

    /// Its upper fence: it covers the keys below.
    pub fn high(&self) -> u64
        ensures { result ≡ self.now.high }
    {
        self.high
    }

    /// The next node of its level, and 0 for none.
    pub fn next(&self) -> u32
        ensures { result ≡ self.now.next }
    {
        self.next
    }

    /// How many pairs it has. There are 128 at most.
    pub fn pairs(&self) -> u32
        ensures pairs { result ≡ length self.now.pairs }
        ensures most { result ≤ 128 }
    {
        self.count
    }

    /// A pair. Condition: the index is below the number of pairs.
    pub fn pair(&self, index: u32) -> Pair
        requires { index < length self.now.pairs }
        ensures { slice_get self.now.pairs index ≡ Some result }
    {
        prove!(index < self.count);
        Pair {
            separator: self.separators[index as usize],
            child: self.children[index as usize],
        }
    }

    /// Puts a pair behind the others. Condition: there are fewer than 128.
    pub fn push(&mut self, pair: Pair)
        requires { length self.old.pairs < 128 }
        ensures { self.new ≡ record self.old { pairs = self.old.pairs ++ pair ∷ [] } }
    {
        prove!(self.count < 128);
        self.separators[self.count as usize] = pair.separator;
        self.children[self.count as usize] = pair.child;
        self.count += 1;
    }
}
