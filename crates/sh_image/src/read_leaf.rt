// Whether the words of a node are a leaf's.
ghost use Rattle.std.specs.Prelude.{◌≡◌, ◌↔◌, ◌≤◌, All, IsTrue, MatchOption, drop, length, replicate, slice_index};
ghost use Rattle.sh_base.specs.{Parts.{parts_of}, Setting.{nodes, node_size}};
ghost use Rattle.sh_image.specs.{Entries.{entries_in}, Leaf.{leaf_in, IsEntry, IsLeaf, Leaf, Spells}, Node.{seen_as}, Seen.{HasWholeEntries, IsTornAt, IsUntorn, SeenBy}};

use crate::{Image, LeafEntry, LeafImage};
use sh_base::{Config, Value};
use sh_lanes::count_empty;

/// The first entry whose two versions differ. Condition: the words are as many as the setting says.
#[tactic(auto, using(sh_base::proofs::LayoutLemmas::node_size_is, sh_base::proofs::LayoutLemmas::entry_within))]
pub(crate) fn first_torn(cfg: &Config, words: &[u64]) -> Option<u32>
    requires { length words.now ≡ node_size (parts_of cfg.now) }
    ensures { MatchOption result (HasWholeEntries (parts_of cfg.now) words.now) (λ index. IsTornAt (parts_of cfg.now) words.now index) }
{
    let behind = 2 + cfg.value_words() as usize;
    for index in 0..cfg.leaf() {
        let at = cfg.entry_at(index) as usize;
        if words[at] != words[at + behind] {
            return Some(index);
        }
    }
    None
}

/// Reads the words into an image, and answers whether they spell a leaf: then it is the image's. Conditions: they are
/// as many as the setting says, their versions agree, and their level is 0.
pub(crate) fn leaf_into(cfg: &Config, words: &[u64], image: &mut Image) -> bool
    requires size { length words.now ≡ node_size (parts_of cfg.now) }
    requires untorn { IsUntorn (parts_of cfg.now) words.now }
    requires level { slice_index words.now 1 ≡ 0 }
    ensures spelled { IsTrue result → SeenBy (parts_of cfg.now) words.now (seen_as image.new) }
    ensures always { (a : Leaf) → Spells (parts_of cfg.now) words.now a → IsTrue result }
{
    match image {
        Image::Leaf(leaf) => read_leaf(cfg, words, leaf),
        Image::Inner(_) => leaf_in_place(cfg, words, image),
    }
}

// The same, where the image is no leaf's.
#[inline(never)]
fn leaf_in_place(cfg: &Config, words: &[u64], image: &mut Image) -> bool
    requires size { length words.now ≡ node_size (parts_of cfg.now) }
    requires untorn { IsUntorn (parts_of cfg.now) words.now }
    requires level { slice_index words.now 1 ≡ 0 }
    ensures spelled { IsTrue result → SeenBy (parts_of cfg.now) words.now (seen_as image.new) }
    ensures always { (a : Leaf) → Spells (parts_of cfg.now) words.now a → IsTrue result }
{
    let mut leaf = LeafImage::new(0, 0, 0, 0, 0, Value::of(&[0]));
    let spells = read_leaf(cfg, words, &mut leaf);
    *image = Image::Leaf(leaf);
    spells
}

// Reads the words into a leaf's image, and answers whether they spell that leaf.
#[tactic(auto, using(sh_base::proofs::LayoutLemmas::node_size_is, sh_base::proofs::LayoutLemmas::rear_at_low))]
fn read_leaf(cfg: &Config, words: &[u64], image: &mut LeafImage) -> bool
    requires size { length words.now ≡ node_size (parts_of cfg.now) }
    requires untorn { IsUntorn (parts_of cfg.now) words.now }
    requires level { slice_index words.now 1 ≡ 0 }
    ensures spelled { IsTrue result → Spells (parts_of cfg.now) words.now image.new }
    ensures always { (a : Leaf) → Spells (parts_of cfg.now) words.now a → IsTrue result }
{
    if words[5] != 0 || words[4] > u64::from(cfg.nodes()) {
        return false;
    }
    if !is_leaf(cfg, words) {
        return false;
    }
    image.begin(words[0], words[2], words[3], words[4] as u32, cfg.leaf());
    fill(cfg, words, image);
    true
}

// Writes the entries that the words spell, if they are a leaf's, into an image with as many.
#[tactic(auto, using(sh_base::proofs::LayoutLemmas::node_size_is, sh_base::proofs::LayoutLemmas::entry_within))]
fn fill(cfg: &Config, words: &[u64], image: &mut LeafImage)
    requires size { length words.now ≡ node_size (parts_of cfg.now) }
    requires count { length image.old.entries ≡ cfg.now.parts.leaf }
    ensures { image.new ≡ record image.old { entries = entries_in cfg.now.parts.value_words cfg.now.parts.leaf (drop 6 words.now) } }
{
    let count = cfg.value_words() as usize;
    for index in 0..cfg.leaf() {
        let at = cfg.entry_at(index) as usize;
        image.set(
            index,
            LeafEntry {
                version: words[at],
                key: words[at + 1],
                value: value_of(&words[at + 2..at + 2 + count]),
            },
        );
    }
}

// The value of these words. A value of one word is made apart: there no words are copied, whose number isn't known.
fn value_of(words: &[u64]) -> Value
    requires low { 1 ≤ length words.now }
    requires high { length words.now ≤ 8 }
    ensures { result ≡ words.now }
{
    if words.len() == 1 {
        Value::of(&words[..1])
    } else {
        Value::of(words)
    }
}

// Whether the leaf that the words spell, if they are a leaf's, meets the rules, where its next leaf does.
#[tactic(auto, using(sh_base::proofs::LayoutLemmas::node_size_is, sh_base::proofs::LayoutLemmas::rear_at_low))]
fn is_leaf(cfg: &Config, words: &[u64]) -> bool
    requires size { length words.now ≡ node_size (parts_of cfg.now) }
    requires next { slice_index words.now 4 ≤ nodes (parts_of cfg.now) }
    ensures { IsTrue result ↔ IsLeaf (parts_of cfg.now) (leaf_in (parts_of cfg.now) words.now) }
{
    let (low, high, next) = (words[2], words[3], words[4]);
    if words[0] > cfg.last_version() || low >= high {
        return false;
    }
    if (next == 0) != (high == u64::MAX) {
        return false;
    }
    are_entries(cfg, words, low, high)
}

// Whether the entries that the words spell may all stand in a leaf with these fences.
#[tactic(auto, using(sh_base::proofs::LayoutLemmas::node_size_is, sh_base::proofs::LayoutLemmas::entry_within))]
fn are_entries(cfg: &Config, words: &[u64], low: u64, high: u64) -> bool
    requires { length words.now ≡ node_size (parts_of cfg.now) }
    ensures { IsTrue result ↔ All (IsEntry (parts_of cfg.now) low high) (entries_in cfg.now.parts.value_words cfg.now.parts.leaf (drop 6 words.now)) }
{
    let count = cfg.value_words() as usize;
    for index in 0..cfg.leaf() {
        let at = cfg.entry_at(index) as usize;
        let value = &words[at + 2..at + 2 + count];
        if !is_entry(cfg, low, high, words[at], words[at + 1], value) {
            return false;
        }
    }
    true
}

// Whether an entry may stand in a leaf with these fences.
fn is_entry(cfg: &Config, low: u64, high: u64, version: u64, key: u64, value: &[u64]) -> bool
    requires { length value.now ≡ cfg.now.parts.value_words }
    ensures { IsTrue result ↔ IsEntry (parts_of cfg.now) low high (record { version = version; key = key; value = value.now }) }
{
    if version > cfg.last_entry_version() {
        return false;
    }
    if key == 0 {
        return are_empty(value);
    }
    low <= key && key < high
}

// Whether all words are 0.
#[tactic(auto, using(crate::proofs::EmptyLemmas::empty_exactly))]
pub(crate) fn are_empty(words: &[u64]) -> bool
    ensures { IsTrue result ↔ (words.now ≡ replicate (length words.now) 0) }
{
    count_empty(words) == words.len()
}
