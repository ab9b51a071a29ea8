// A whole node is written, a word at a time.
ghost use Rattle.std.specs.Prelude.{◌≡◌, ◌+◌, ◌<◌, ◌≤◌, ◌⊎◌, ℕ, length, slice_index};
ghost use Rattle.sh_base.specs.{Parts.{parts_of}, Setting.{node_size, pool_words, IsNode}, Layout.{node_part, node_word}};

use sh_base::{Config, Place, WritePlan};

/// Stores a node's words, from the first to the last. Condition: the words are a pool of this setting, and `from` has
/// as many words as a node. No other word changes.
pub(crate) fn write_node(cfg: &Config, words: &mut [u64], node: u32, from: &[u64])
    requires node { IsNode (parts_of cfg.now) node }
    requires pool { length words.old ≡ pool_words (parts_of cfg.now) }
    requires part { length from.now ≡ node_size (parts_of cfg.now) }
    ensures long { length words.new ≡ length words.old }
    ensures here { node_part (parts_of cfg.now) words.new node ≡ from.now }
    ensures elsewhere { (i : ℕ) → (i < node_word (parts_of cfg.now) node) ⊎ (node_word (parts_of cfg.now) node + node_size (parts_of cfg.now) ≤ i) → slice_index words.new i ≡ slice_index words.old i }
{
    let plan = WritePlan::node(cfg, node, false);
    for step in 0..plan.steps() {
        match plan.place(step) {
            Place::Body { at, offset } => words[at as usize] = from[offset as usize],
            Place::Lock { .. } => unreachable!(),
        }
    }
}
