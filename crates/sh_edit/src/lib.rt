//! Changes of leaves and inner nodes, and what a range takes of a leaf.
#![tactic(auto)]

mod inner;
mod laws;
mod ranging;
mod split;

ghost use Rattle.std.specs.Prelude.{◌≡◌, ◌↔◌, IsTrue, ◌-◌, ◌<◌, ◌≤◌, ◌^◌, MatchOption, length, map};
ghost use Rattle.sh_edit.specs.{Held.{value_at, HasKeysOnce}, Placing.{LacksKey, IsFirstWith, PlacedBy, StandsFirst}, Rewriting.{cleared, rewritten}};

pub use inner::{InnerHalves, add_child, new_root, split_inner};
pub use laws::{
    edits_are_the_maps, edits_keep_keys_apart, entry_writes_are_the_maps,
    inner_nodes_keep_their_pairs, splits_are_the_maps,
};
pub use ranging::{ranges_take_least_keys, take_rows, upto};
use sh_base::Value;
use sh_image::{LeafEntry, LeafImage};
use sh_lanes::first_equal;
pub use split::{LeafHalves, split_leaf};

/// Where a put of a key goes.
#[derive(Clone, Copy, Debug)]
pub enum Placed {
    /// Over the entry at this index, which has the key, with this value.
    Over { index: u32, old: Value },
    /// Into the empty entry at this index.
    New { index: u32 },
    /// Nowhere: the leaf has neither the key nor an empty entry.
    NoRoom,
}

/// The least index with this key; none exactly where no entry has it. The key 0 is an empty entry's.
pub fn find(leaf: &LeafImage, key: u64) -> Option<u32>
    ensures { MatchOption result (LacksKey leaf.now.entries key) (λ index. IsFirstWith leaf.now.entries key index) }
{
    match first_equal(leaf.keys(), key) {
        Some(index) => Some(index as u32),
        None => None,
    }
}

/// Whether no key stands twice. The key 0 is an empty entry's, and may.
pub fn keys_differ(leaf: &LeafImage) -> bool
    ensures { IsTrue result ↔ HasKeysOnce leaf.now.entries }
{
    for index in 0..leaf.entries() {
        if !stands_first(leaf, index) {
            return false;
        }
    }
    true
}

// Whether an entry is empty, or no entry before it has its key. Condition: an index of the leaf.
fn stands_first(leaf: &LeafImage, index: u32) -> bool
    requires { index < length leaf.now.entries }
    ensures { IsTrue result ↔ StandsFirst leaf.now.entries index }
{
    let key = leaf.entry(index).key;
    match find(leaf, key) {
        Some(first) => key == 0 || first == index,
        None => key == 0,
    }
}

/// Where a put of the key goes: over the entry with the key, the least such; else into the least empty entry.
pub fn place(leaf: &LeafImage, key: u64) -> Placed
    ensures { PlacedBy leaf.now.entries key result }
{
    if let Some(index) = find(leaf, key) {
        return Placed::Over {
            index,
            old: leaf.entry(index).value,
        };
    }
    match find(leaf, 0) {
        Some(index) => Placed::New { index },
        None => Placed::NoRoom,
    }
}

/// The index and the value of the key; none exactly where no entry has it.
pub fn remove(leaf: &LeafImage, key: u64) -> Option<(u32, Value)>
    ensures { MatchOption result (LacksKey leaf.now.entries key) (λ found. IsFirstWith leaf.now.entries key found.0 × (found.1 ≡ value_at leaf.now.entries found.0)) }
{
    let index = find(leaf, key)?;
    Some((index, leaf.entry(index).value))
}

/// The leaf with this key and value at the index (for a delete the key 0 and a value of zeros), every other entry's
/// key and value in its place, all entry versions 0, and the node's version raised by one. Condition: an index of the
/// leaf, and the version isn't 2^64 - 1.
pub fn rewrite(leaf: &LeafImage, index: u32, key: u64, value: Value) -> LeafImage
    requires index { index < length leaf.now.entries }
    requires version { leaf.now.version < 2 ^ 64 - 1 }
    ensures { result ≡ rewritten leaf.now index key value }
{
    let mut image = cleared(leaf, value);
    image.set(
        index,
        LeafEntry {
            version: 0,
            key,
            value,
        },
    );
    image.set_version(leaf.version() + 1);
    image
}

// The leaf with all entry versions 0; `zero` is any value.
fn cleared(leaf: &LeafImage, zero: Value) -> LeafImage
    ensures { result ≡ record leaf.now { entries = map cleared leaf.now.entries } }
{
    let count = leaf.keys().len() as u32;
    let mut image = LeafImage::new(
        leaf.version(),
        leaf.low(),
        leaf.high(),
        leaf.next(),
        count,
        zero,
    );
    for index in 0..count {
        let LeafEntry { key, value, .. } = leaf.entry(index);
        image.set(
            index,
            LeafEntry {
                version: 0,
                key,
                value,
            },
        );
    }
    image
}

#[cfg(test)]
mod tests {
    use super::*;
    use sh_base::{Config, ConfigFault, ConfigParts};
    use sh_image::{InnerImage, Pair};

    // A leaf of version 7 with these keys, all entry versions 5. A key is its own value.
    fn leaf_of(keys: [u64; 4]) -> LeafImage
        ensures count { length result.entries ≡ 4 }
        ensures version { result.version ≡ 7 }
    {
        let mut leaf = LeafImage::new(7, 10, 20, 2, 4, Value::of(&[0]));
        leaf.set(0, entry_of(keys[0]));
        leaf.set(1, entry_of(keys[1]));
        leaf.set(2, entry_of(keys[2]));
        leaf.set(3, entry_of(keys[3]));
        leaf
    }

    fn entry_of(key: u64) -> LeafEntry {
        LeafEntry {
            version: 5,
            key,
            value: Value::of(&[key]),
        }
    }

    fn is_over(placed: Placed, at: u32, word: u64) -> bool {
        match placed {
            Placed::Over { index, old } => index == at && old.words() == [word].as_slice(),
            _ => false,
        }
    }

    fn is_new(placed: Placed, at: u32) -> bool {
        match placed {
            Placed::New { index } => index == at,
            _ => false,
        }
    }

    fn has_no_room(placed: Placed) -> bool {
        match placed {
            Placed::NoRoom => true,
            _ => false,
        }
    }

    #[test]
    fn a_put_goes_over_its_key_or_into_the_first_empty_entry(rt: HostRuntime) {
        let leaf = leaf_of([12, 0, 15, 0]);
        assert!(rt; is_over(place(&leaf, 12), 0, 12));
        assert!(rt; is_over(place(&leaf, 15), 2, 15));
        assert!(rt; is_new(place(&leaf, 13), 1));
        let full = leaf_of([16, 12, 15, 11]);
        assert!(rt; is_over(place(&full, 11), 3, 11));
        assert!(rt; has_no_room(place(&full, 13)));
    }

    #[test]
    fn a_delete_finds_its_key_and_value(rt: HostRuntime) {
        let leaf = leaf_of([12, 0, 15, 0]);
        assert!(rt;
            match remove(&leaf, 15) {
                Some((index, value)) => index == 2 && value.words() == [15].as_slice(),
                None => false
            }
        );
        assert!(rt;
            match remove(&leaf, 13) {
                Some(_) => false,
                None => true
            }
        );
    }

    #[test]
    fn a_rewrite_clears_the_entry_versions(rt: HostRuntime) {
        let leaf = leaf_of([12, 0, 15, 0]);
        let image = rewrite(&leaf, 1, 13, Value::of(&[130]));
        assert!(rt; image.keys() == [12, 13, 15, 0].as_slice());
        assert_eq!(rt; image.version(), 8);
        assert!(rt;
            image.entries() == 4
                && image.entry(2).version == 0
                && image.entry(2).value.words() == [15].as_slice()
                && image.entry(1).value.words() == [130].as_slice()
        );
    }

    // The halves of a leaf that has no room for the key, and no key twice.
    fn split(leaf: &LeafImage, key: u64, value: Value, right: u32) -> Option<LeafHalves> {
        if leaf.entries() == 0 || leaf.version() == u64::MAX || !keys_differ(leaf) {
            return None;
        }
        match place(leaf, key) {
            Placed::NoRoom => Some(split_leaf(leaf, key, value, right)),
            _ => None,
        }
    }

    // The leaf after a put that has room.
    fn put(leaf: &LeafImage, key: u64, value: Value) -> Option<LeafImage> {
        if leaf.version() == u64::MAX {
            return None;
        }
        match place(leaf, key) {
            Placed::Over { index, .. } => Some(rewrite(leaf, index, key, value)),
            Placed::New { index } => Some(rewrite(leaf, index, key, value)),
            Placed::NoRoom => None,
        }
    }

    // So many words, all the same; 8 at most.
    fn value_of(word: u64, count: usize) -> Value {
        let words = [word; 8];
        if 1 <= count && count <= 8 {
            Value::of(&words[..count])
        } else {
            Value::of(&words)
        }
    }

    // Whether an entry of version 0 has this key and value.
    fn has_entry(leaf: &LeafImage, index: u32, key: u64, value: Value) -> bool {
        if index >= leaf.entries() {
            return false;
        }
        let entry = leaf.entry(index);
        entry.version == 0 && entry.key == key && entry.value == value
    }

    #[test]
    fn the_fifth_put_splits_at_the_third_key(rt: HostRuntime) {
        for count in [1, 2, 8] {
            let mut leaf = LeafImage::new(0, 0, u64::MAX, 0, 4, value_of(0, count));
            for key in [10, 20, 30, 40] {
                let Some(more) = put(&leaf, key, value_of(key / 10, count)) else {
                    assert!(rt; false, "no room");
                    return;
                };
                leaf = more;
            }
            let Some(halves) = split(&leaf, 50, value_of(5, count), 9) else {
                assert!(rt; false, "no split");
                return;
            };
            let (left, right) = (&halves.left, &halves.right);
            assert_eq!(rt; halves.separator, 30);
            assert!(rt; left.keys() == [10, 20, 0, 0].as_slice());
            assert!(rt; right.keys() == [30, 40, 50, 0].as_slice());
            assert!(rt;
                left.version() == 5 && left.low() == 0 && left.high() == 30 && left.next() == 9
            );
            assert!(rt;
                right.version() == 0
                    && right.low() == 30
                    && right.high() == u64::MAX
                    && right.next() == 0
            );
            assert!(rt; has_entry(left, 1, 20, value_of(2, count)));
            assert!(rt; has_entry(left, 2, 0, value_of(0, count)));
            assert!(rt; has_entry(right, 0, 30, value_of(3, count)));
            assert!(rt; has_entry(right, 2, 50, value_of(5, count)));
            assert!(rt; has_entry(right, 3, 0, value_of(0, count)));
        }
    }

    #[test]
    fn a_leaf_without_room_alone_is_split(rt: HostRuntime) {
        let value = Value::of(&[130]);
        assert!(rt; split(&leaf_of([15, 12, 15, 11]), 13, value, 9).is_none());
        assert!(rt; split(&leaf_of([16, 12, 0, 11]), 13, value, 9).is_none());
        assert!(rt; split(&leaf_of([16, 12, 15, 11]), 12, value, 9).is_none());
        let Some(halves) = split(&leaf_of([16, 12, 15, 11]), 13, value, 9) else {
            assert!(rt; false, "no split");
            return;
        };
        let (left, right) = (&halves.left, &halves.right);
        assert_eq!(rt; halves.separator, 13);
        assert!(rt; left.keys() == [11, 12, 0, 0].as_slice());
        assert!(rt; right.keys() == [13, 15, 16, 0].as_slice());
        assert!(rt;
            left.version() == 8 && left.low() == 10 && left.high() == 13 && left.next() == 9
        );
        assert!(rt;
            right.version() == 0 && right.low() == 13 && right.high() == 20 && right.next() == 2
        );
        assert!(rt; has_entry(right, 0, 13, value));
        assert!(rt; has_entry(right, 1, 15, Value::of(&[15])));
    }

    // Its keys are 1000, 990 and so on down to 370; a key below all of them is put.
    #[test]
    fn the_largest_leaf_splits_at_the_33rd_key(rt: HostRuntime) {
        for count in [1, 2, 8] {
            let mut leaf = LeafImage::new(7, 0, u64::MAX, 0, 64, value_of(0, count));
            for index in 0u32..64 {
                if index < leaf.entries() {
                    leaf.set(
                        index,
                        LeafEntry {
                            version: 15,
                            key: 1000 - 10 * u64::from(index),
                            value: value_of(u64::from(index), count),
                        },
                    );
                }
            }
            let Some(halves) = split(&leaf, 5, value_of(99, count), 9) else {
                assert!(rt; false, "no split");
                return;
            };
            let (left, right) = (&halves.left, &halves.right);
            assert_eq!(rt; halves.separator, 680);
            assert!(rt; has_entry(left, 0, 5, value_of(99, count)));
            assert!(rt; has_entry(left, 31, 670, value_of(33, count)));
            assert!(rt; has_entry(left, 32, 0, value_of(0, count)));
            assert!(rt; has_entry(right, 0, 680, value_of(32, count)));
            assert!(rt; has_entry(right, 32, 1000, value_of(0, count)));
            assert!(rt; has_entry(right, 33, 0, value_of(0, count)));
        }
    }

    // Leaves of so many entries, so inner nodes of twice as many pairs.
    fn setting(leaf: u32, value_words: u32) -> Result<Config, ConfigFault> {
        Config::new(ConfigParts {
            servers: 1,
            chunks: 1,
            chunk_nodes: 16,
            locks: 1,
            leaf,
            computes: 1,
            seats: 1,
            bound: 0,
            bits: 4,
            rows: 1,
            cached: 0,
            value_words,
        })
    }

    fn has_pair(image: &InnerImage, index: u32, separator: u64, child: u32) -> bool {
        if index >= image.pairs() {
            return false;
        }
        let pair = image.pair(index);
        pair.separator == separator && pair.child == child
    }

    // The node with the pair added, where its version allows.
    fn added(cfg: &Config, inner: &InnerImage, separator: u64, child: u32) -> Option<InnerImage> {
        if inner.version() > 100 || inner.pairs() > 2 * cfg.leaf() {
            return None;
        }
        add_child(cfg, inner, separator, child)
    }

    #[test]
    fn a_pair_is_added_in_its_place(rt: HostRuntime) {
        let Ok(cfg) = setting(4, 1) else {
            assert!(rt; false, "no setting");
            return;
        };
        let Some(image) = added(&cfg, &new_root(1, 1, 20, 2), 10, 3) else {
            assert!(rt; false, "no room");
            return;
        };
        assert!(rt; image.version() == 1 && image.level() == 1 && image.pairs() == 3);
        assert!(rt; image.low() == 0 && image.high() == u64::MAX && image.next() == 0);
        assert!(rt;
            has_pair(&image, 0, 0, 1) && has_pair(&image, 1, 10, 3) && has_pair(&image, 2, 20, 2)
        );
    }

    #[test]
    fn a_full_inner_node_is_split_before_the_fifth_pair(rt: HostRuntime) {
        let Ok(cfg) = setting(4, 1) else {
            assert!(rt; false, "no setting");
            return;
        };
        let mut full = InnerImage::new(5, 1, 0, 100, 7);
        for index in 0u32..8 {
            if full.pairs() < 128 {
                full.push(Pair {
                    separator: 10 * u64::from(index),
                    child: index + 1,
                });
            }
        }
        if full.pairs() != 2 * cfg.leaf() || full.version() != 5 {
            assert!(rt; false, "not full");
            return;
        }
        assert!(rt; add_child(&cfg, &full, 35, 9).is_none());
        let InnerHalves {
            left,
            right,
            separator,
        } = split_inner(&cfg, &full, 35, 9, 6);
        assert_eq!(rt; separator, 35);
        assert!(rt;
            left.version() == 6 && left.pairs() == 4 && left.high() == 35 && left.next() == 6
        );
        assert!(rt; right.version() == 0 && right.pairs() == 5 && right.low() == 35);
        assert!(rt; right.high() == 100 && right.next() == 7);
        assert!(rt;
            has_pair(&left, 3, 30, 4) && has_pair(&right, 0, 35, 9) && has_pair(&right, 1, 40, 5)
        );
    }

    // Its separators are 0, 10 and so on up to 1270; 5 is added behind the first.
    #[test]
    fn the_largest_inner_node_splits_before_the_65th_pair(rt: HostRuntime) {
        let Ok(cfg) = setting(64, 8) else {
            assert!(rt; false, "no setting");
            return;
        };
        let mut full = InnerImage::new(5, 1, 0, 2000, 7);
        for index in 0u32..128 {
            if full.pairs() < 128 {
                full.push(Pair {
                    separator: 10 * u64::from(index),
                    child: index + 1,
                });
            }
        }
        if full.pairs() != 2 * cfg.leaf() || full.version() != 5 {
            assert!(rt; false, "not full");
            return;
        }
        let InnerHalves {
            left,
            right,
            separator,
        } = split_inner(&cfg, &full, 5, 9, 6);
        assert_eq!(rt; separator, 630);
        assert!(rt; left.pairs() == 64 && left.low() == 0 && left.high() == 630);
        assert!(rt; right.pairs() == 65 && right.low() == 630 && right.high() == 2000);
        assert!(rt;
            has_pair(&left, 0, 0, 1) && has_pair(&left, 1, 5, 9) && has_pair(&left, 63, 620, 63)
        );
        assert!(rt; has_pair(&right, 0, 630, 64) && has_pair(&right, 64, 1270, 128));
    }
}
