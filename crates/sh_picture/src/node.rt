// One node, by its words: whatever they are.
ghost use Rattle.std.specs.Prelude.{◌≡◌, ◌≤◌, ◌<◌, ◌↔◌, IsTrue, length, slice_index};
ghost use Rattle.sh_base.specs.{Parts.{parts_of}, Setting.{nodes, node_size, pool_words, IsNode}, Layout.{node_part}};
ghost use Rattle.sh_tree.specs.Nodes.{high_at, next_at};
ghost use Rattle.sh_picture.specs.Walk.{first_child, IsSoundNode, IsSpelled};

use sh_base::Config;
use sh_image::{Seen, read_image};

// A word of a node, by its offset.
#[tactic(auto, using(sh_base::proofs::LayoutLemmas::node_word_high, sh_base::proofs::LayoutLemmas::part_word))]
pub(crate) fn word_at(cfg: &Config, words: &[u64], node: u32, offset: u32) -> u64
    requires pool { length words.now ≡ pool_words (parts_of cfg.now) }
    requires node { IsNode (parts_of cfg.now) node }
    requires offset { offset < node_size (parts_of cfg.now) }
    ensures { result ≡ slice_index (node_part (parts_of cfg.now) words.now node) offset }
{
    words[(cfg.node_word(node) + offset) as usize]
}

// The node that a word names, and 0 where the pool has none of that number.
pub(crate) fn named_by(cfg: &Config, word: u64) -> u32
    ensures most { result ≤ nodes (parts_of cfg.now) }
    ensures same { word ≤ nodes (parts_of cfg.now) → result ≡ word }
{
    if word <= u64::from(cfg.nodes()) {
        word as u32
    } else {
        0
    }
}

// Whether a number names a node that spells an image.
#[tactic(auto, using(sh_base::proofs::LayoutLemmas::node_word_high))]
pub(crate) fn is_spelled(cfg: &Config, words: &[u64], node: u64) -> bool
    requires { length words.now ≡ pool_words (parts_of cfg.now) }
    ensures { IsTrue result ↔ IsSpelled (parts_of cfg.now) words.now node }
{
    if node == 0 || node > u64::from(cfg.nodes()) {
        return false;
    }
    let at = cfg.node_word(node as u32) as usize;
    match read_image(cfg, &words[at..at + cfg.node_size() as usize]) {
        Seen::Leaf(_) => true,
        Seen::Inner(_) => true,
        _ => false,
    }
}

// Whether a number that the walk comes to is sound.
#[tactic(auto, using(sh_base::proofs::LayoutLemmas::node_size_is, sh_base::proofs::LayoutLemmas::rear_at_low))]
pub(crate) fn is_sound(cfg: &Config, words: &[u64], level: u64, low: u64, node: u32) -> bool
    requires { length words.now ≡ pool_words (parts_of cfg.now) }
    ensures { IsTrue result ↔ IsSoundNode (parts_of cfg.now) words.now level low node }
{
    if !is_spelled(cfg, words, u64::from(node)) {
        return false;
    }
    word_at(cfg, words, node, 1) == level && word_at(cfg, words, node, 2) == low
}

// Where a node ends, by its words.
#[tactic(auto, using(sh_base::proofs::LayoutLemmas::node_size_is, sh_base::proofs::LayoutLemmas::rear_at_low))]
pub(crate) fn high_of(cfg: &Config, words: &[u64], node: u32) -> u64
    requires pool { length words.now ≡ pool_words (parts_of cfg.now) }
    requires node { IsNode (parts_of cfg.now) node }
    ensures { result ≡ high_at (parts_of cfg.now) words.now node }
{
    word_at(cfg, words, node, 3)
}

// The next node of a level.
#[tactic(auto, using(sh_base::proofs::LayoutLemmas::node_size_is, sh_base::proofs::LayoutLemmas::rear_at_low))]
pub(crate) fn next_of(cfg: &Config, words: &[u64], node: u32) -> u32
    requires pool { length words.now ≡ pool_words (parts_of cfg.now) }
    requires node { IsNode (parts_of cfg.now) node }
    ensures { next_at (parts_of cfg.now) words.now node ≤ nodes (parts_of cfg.now) → result ≡ next_at (parts_of cfg.now) words.now node }
{
    named_by(cfg, word_at(cfg, words, node, 4))
}

// The child of a node's first pair.
#[tactic(auto, using(sh_base::proofs::LayoutLemmas::node_size_by_words, sh_tree::proofs::WalkLemmas::eight_words))]
pub(crate) fn child_of(cfg: &Config, words: &[u64], node: u32) -> u32
    requires pool { length words.now ≡ pool_words (parts_of cfg.now) }
    requires node { IsNode (parts_of cfg.now) node }
    ensures { first_child (parts_of cfg.now) words.now node ≤ nodes (parts_of cfg.now) → result ≡ first_child (parts_of cfg.now) words.now node }
{
    named_by(cfg, word_at(cfg, words, node, 7))
}
