// A leaf as columns of its entries.
ghost use Rattle.std.specs.Prelude.{◌≡◌, ◌<◌, ◌≤◌, length, replicate, slice_get, slice_set, Some};
ghost use Rattle.sh_image.specs.Entries.{keys_of};

use sh_base::Value;
use std::marker::Model;

/// One entry of a leaf. An empty one has the key 0.
#[derive(Clone, Copy, Debug)]
pub struct LeafEntry {
    /// The entry's version: 0 to 15.
    pub version: u64,
    /// The key, and 0 for none.
    pub key: u64,
    /// The value of the key; an empty entry's words are 0.
    pub value: Value,
}

/// A leaf: its version, its fences (it covers the keys from `low` on below `high`), the next leaf of its chain (0 for
/// none) and its entries. There is room for 64 entries, in columns, and it takes no memory.
#[derive(Debug, Drop)]
pub struct LeafImage {
    version: u64,
    low: u64,
    high: u64,
    next: u32,
    count: u32,
    versions: [u64; 64],
    keys: [u64; 64],
    values: [Value; 64],
}

impl Model for LeafImage {
    ghost use Rattle.std.specs.Prelude.{length, ◌≡◌, ◌≤◌};
    ghost use Rattle.sh_image.specs.{Leaf.{Leaf}, Columns.{entries_of_columns}};

    ghost Value = { Leaf };

    ghost view = { λ a. record { version = a.version; low = a.low; high = a.high; next = a.next; entries = entries_of_columns a.count a.versions a.keys a.values } };

    ghost invariant = { λ a. (a.count ≤ 64) × (length a.versions ≡ 64) × (length a.keys ≡ 64) × (length a.values ≡ 64) };
}

impl LeafImage {
    /// A leaf of so many empty entries, with `zero` for their values. Condition: there are 64 at most.
    pub fn new(version: u64, low: u64, high: u64, next: u32, entries: u32, zero: Value) -> LeafImage
        requires { entries ≤ 64 }
        ensures { result ≡ record { version = version; low = low; high = high; next = next; entries = replicate entries (record { version = 0; key = 0; value = zero }) } }
    {
        LeafImage {
            version,
            low,
            high,
            next,
            count: entries,
            versions: [0; 64],
            keys: [0; 64],
            values: [zero; 64],
        }
    }

    // Begins another leaf in the place of this one, with so many entries that are yet to be written. Condition: there
    // are 64 at most.
    pub(crate) fn begin(&mut self, version: u64, low: u64, high: u64, next: u32, entries: u32)
        requires { entries ≤ 64 }
        ensures parts { self.new ≡ record { version = version; low = low; high = high; next = next; entries = self.new.entries } }
        ensures count { length self.new.entries ≡ entries }
    {
        self.version = version;
        self.low = low;
        self.high = high;
        self.next = next;
        self.count = entries;
    }

    /// Its version.
    pub fn version(&self) -> u64
        ensures { result ≡ self.now.version }
    {
        self.version
    }

    /// Its lower fence: the least key that it covers.
    pub fn low(&self) -> u64
        ensures { result ≡ self.now.low }
    {
        self.low
    }

    /// Its upper fence: it covers the keys below.
    pub fn high(&self) -> u64
        ensures { result ≡ self.now.high }
    {
        self.high
    }

    /// The next leaf of its chain, and 0 for none.
    pub fn next(&self) -> u32
        ensures { result ≡ self.now.next }
    {
        self.next
    }

    /// How many entries it has, the empty ones too.
    pub fn entries(&self) -> u32
        ensures { result ≡ length self.now.entries }
    {
        self.count
    }

    /// The keys of its entries, in their order; an empty entry's is 0. There are 64 at most.
    pub fn keys(&self) -> &[u64]
        ensures keys { result.now ≡ keys_of self.now.entries }
        ensures most { length result.now ≤ 64 }
    {
        &self.keys[..self.count as usize]
    }

    /// An entry. Condition: the index is below the number of entries.
    pub fn entry(&self, index: u32) -> LeafEntry
        requires { index < length self.now.entries }
        ensures { slice_get self.now.entries index ≡ Some result }
    {
        prove!(index < self.count);
        LeafEntry {
            version: self.versions[index as usize],
            key: self.keys[index as usize],
            value: self.values[index as usize],
        }
    }

    /// Writes an entry, and leaves the others. Condition: the index is below the number of entries.
    pub fn set(&mut self, index: u32, entry: LeafEntry)
        requires { index < length self.old.entries }
        ensures { self.new ≡ record self.old { entries = slice_set self.old.entries index entry } }
    {
        prove!(index < self.count);
        self.versions[index as usize] = entry.version;
        self.keys[index as usize] = entry.key;
        self.values[index as usize] = entry.value;
    }

    /// Gives it another version.
    pub fn set_version(&mut self, version: u64)
        ensures { self.new ≡ record self.old { version = version } }
    {
        self.version = version;
    }
}
