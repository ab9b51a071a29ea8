// The words of entries and leaves.
ghost use Rattle.std.specs.Prelude.{◌≡◌, ◌+◌, ◌*◌, ◌<◌, ◌≤◌, ◌++◌, length, replicate, take};
ghost use Rattle.std.specs.List.{flat_map};
ghost use Rattle.sh_base.specs.{Parts.{parts_of}, Setting.{node_size}};
ghost use Rattle.sh_image.specs.{Entries.{entry_words}, Inner.{inner_header, inner_words, pair_words}, Leaf.{header, leaf_words, HaveWords}};

use crate::{InnerImage, LeafImage, Pair};
use sh_base::{Config, Value};

/// Writes the words of an entry: its version, its key, its value's words, and its version again. Condition: there is
/// room for three words more than the value has, and no more.
pub fn write_entry(version: u64, key: u64, value: Value, out: &mut [u64])
    requires { length out.old ≡ 3 + length value }
    ensures { out.new ≡ entry_words (record { version = version; key = key; value = value }) }
{
    let rear = out.len() - 1;
    out[0] = version;
    out[1] = key;
    out[2..rear].copy_from_slice(value.words());
    out[rear] = version;
}

/// Writes the words of a leaf. Conditions: there is room for a node's words, and no more; the image has the setting's
/// number of entries; and each entry's value has the setting's number of words.
pub fn write_leaf(cfg: &Config, image: &LeafImage, out: &mut [u64])
    requires size { length out.old ≡ node_size (parts_of cfg.now) }
    requires count { length image.now.entries ≡ cfg.now.parts.leaf }
    requires values { HaveWords (parts_of cfg.now) image.now.entries }
    ensures { out.new ≡ leaf_words image.now }
{
    write_header(image, out);
    let size = cfg.entry_size() as usize;
    for index in 0..cfg.leaf() {
        let at = cfg.entry_at(index) as usize;
        let entry = image.entry(index);
        write_entry(
            entry.version,
            entry.key,
            entry.value,
            &mut out[at..at + size],
        );
    }
    out[cfg.rear_at() as usize] = image.version();
}

// Writes the words before the entries.
fn write_header(image: &LeafImage, out: &mut [u64])
    requires { 6 < length out.old }
    ensures { take 6 out.new ≡ header image.now }
{
    out[0] = image.version();
    out[1] = 0;
    out[2] = image.low();
    out[3] = image.high();
    out[4] = u64::from(image.next());
    out[5] = 0;
}

/// Writes the words of an inner node. Conditions: there is room for a node's words, and no more; and the image has at
/// most twice as many pairs as the setting's leaves have entries.
pub fn write_inner(cfg: &Config, image: &InnerImage, out: &mut [u64])
    requires size { length out.old ≡ node_size (parts_of cfg.now) }
    requires count { length image.now.pairs ≤ 2 * cfg.now.parts.leaf }
    ensures { out.new ≡ inner_words (parts_of cfg.now) image.now }
{
    let rear = cfg.rear_at() as usize;
    write_inner_header(image, out);
    let end = write_pairs(image, out);
    for at in end..rear {
        out[at] = 0;
    }
    out[rear] = image.version();
}

// Writes the pairs behind the header, and answers where they end. Condition: there is room for them.
fn write_pairs(image: &InnerImage, out: &mut [u64]) -> usize
    requires room { 6 + 2 * length image.now.pairs < length out.old }
    requires header { take 6 out.old ≡ inner_header image.now }
    ensures end { result ≡ 6 + 2 * length image.now.pairs }
    ensures front { take result out.new ≡ inner_header image.now ++ flat_map pair_words image.now.pairs }
    ensures as_long { length out.new ≡ length out.old }
{
    let count = image.pairs() as usize;
    for index in 0..count {
        let Pair { separator, child } = image.pair(index as u32);
        out[6 + 2 * index] = separator;
        out[7 + 2 * index] = u64::from(child);
    }
    6 + 2 * count
}

// Writes the words before the pairs.
fn write_inner_header(image: &InnerImage, out: &mut [u64])
    requires { 6 < length out.old }
    ensures front { take 6 out.new ≡ inner_header image.now }
    ensures as_long { length out.new ≡ length out.old }
{
    out[0] = image.version();
    out[1] = image.level();
    out[2] = image.low();
    out[3] = image.high();
    out[4] = u64::from(image.next());
    out[5] = u64::from(image.pairs());
}
