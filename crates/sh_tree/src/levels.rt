// The levels of a tree, as its nodes name each other.
ghost use Rattle.std.specs.Prelude.{◌≡◌, ◌≢◌, ◌<◌, ◌≤◌, ℕ, List, length, map, slice_index, IfOk};
ghost use Rattle.sh_base.specs.{Parts.{parts_of}, Setting.{nodes, node_size, pool_words, IsNode}, Layout.{node_part}};
ghost use Rattle.sh_tree.specs.{Lists.{first_of, AreNodes}, Nodes.{next_at}, Tree.{leaves_of, IsChain, IsTree}};

use sh_base::Config;
use std::alloc::{AllocError, Global};

// A word of a node, by its offset.
#[tactic(auto, using(sh_base::proofs::LayoutLemmas::node_word_high, sh_base::proofs::LayoutLemmas::part_word))]
pub(crate) fn word_at(cfg: &Config, words: &[u64], node: u32, offset: u32) -> u64
    requires pool { length words.now ≡ pool_words (parts_of cfg.now) }
    requires node { IsNode (parts_of cfg.now) node }
    requires offset { offset < node_size (parts_of cfg.now) }
    ensures { result ≡ slice_index (node_part (parts_of cfg.now) words.now node) offset }
{
    words[(cfg.node_word(node) + offset) as usize]
}

// The node that a word names, and 0 where the pool has none of that number.
fn named_by(cfg: &Config, word: u64) -> u32
    ensures most { result ≤ nodes (parts_of cfg.now) }
    ensures same { word ≤ nodes (parts_of cfg.now) → result ≡ word }
{
    if word <= u64::from(cfg.nodes()) {
        word as u32
    } else {
        0
    }
}

// The node that the next word of a node names.
#[tactic(auto, using(sh_base::proofs::LayoutLemmas::node_size_is, sh_base::proofs::LayoutLemmas::rear_at_low))]
fn next_of(cfg: &Config, words: &[u64], node: u32) -> u32
    requires pool { length words.now ≡ pool_words (parts_of cfg.now) }
    requires node { IsNode (parts_of cfg.now) node }
    ensures most { result ≤ nodes (parts_of cfg.now) }
    ensures same { next_at (parts_of cfg.now) words.now node ≤ nodes (parts_of cfg.now) → result ≡ next_at (parts_of cfg.now) words.now node }
{
    named_by(cfg, word_at(cfg, words, node, 4))
}

// The child of an inner node's first pair, and 0 for a leaf.
#[tactic(auto, using(sh_base::proofs::LayoutLemmas::node_size_by_words, crate::proofs::WalkLemmas::eight_words))]
fn first_child(cfg: &Config, words: &[u64], node: u32) -> u32
    requires pool { length words.now ≡ pool_words (parts_of cfg.now) }
    requires node { IsNode (parts_of cfg.now) node }
    ensures most { result ≤ nodes (parts_of cfg.now) }
    ensures leaf { slice_index (node_part (parts_of cfg.now) words.now node) 1 ≡ 0 → result ≡ 0 }
    ensures inner { slice_index (node_part (parts_of cfg.now) words.now node) 1 ≢ 0 → slice_index (node_part (parts_of cfg.now) words.now node) 7 ≤ nodes (parts_of cfg.now) → result ≡ slice_index (node_part (parts_of cfg.now) words.now node) 7 }
{
    if word_at(cfg, words, node, 1) == 0 {
        return 0;
    }
    named_by(cfg, word_at(cfg, words, node, 7))
}

// The nodes of a level, from its first one on, each named by the one before. Of words that hold no tree there are as
// many as the pool has nodes at most.
pub(crate) fn level_from(
    alloc: Global,
    cfg: &Config,
    words: &[u64],
    first: u32,
) -> Result<Vec<u32>, AllocError>
    requires pool { length words.now ≡ pool_words (parts_of cfg.now) }
    requires first { first ≤ nodes (parts_of cfg.now) }
    ensures most { IfOk result (λ v. length v.items ≤ nodes (parts_of cfg.now)) }
    ensures nodes { IfOk result (λ v. AreNodes (parts_of cfg.now) v.items) }
    ensures level { (low : ℕ) (chain : List ℕ) → IsChain (parts_of cfg.now) words.now low chain → length chain ≤ nodes (parts_of cfg.now) → first ≡ first_of chain → IfOk result (λ v. v.items ≡ chain) }
{
    let mut level = Vec::new(alloc);
    let mut node = first;
    for _ in 0..cfg.nodes() {
        if node == 0 {
            return Ok(level);
        }
        level.push(node)?;
        node = next_of(cfg, words, node);
    }
    Ok(level)
}

// The first node of each level, from the root down to the first leaf, each the first child of the one before. Of words
// that hold no tree there are as many as the pool has nodes at most.
pub(crate) fn firsts(alloc: Global, cfg: &Config, words: &[u64]) -> Result<Vec<u32>, AllocError>
    requires pool { length words.now ≡ pool_words (parts_of cfg.now) }
    ensures most { IfOk result (λ v. length v.items ≤ nodes (parts_of cfg.now)) }
    ensures nodes { IfOk result (λ v. AreNodes (parts_of cfg.now) v.items) }
    ensures firsts { (levels : List (List ℕ)) → IsTree (parts_of cfg.now) words.now levels → IfOk result (λ v. v.items ≡ map first_of levels) }
{
    let mut firsts = Vec::new(alloc);
    let mut node = named_by(cfg, words[1]);
    for _ in 0..cfg.nodes() {
        if node == 0 {
            return Ok(firsts);
        }
        firsts.push(node)?;
        node = first_child(cfg, words, node);
    }
    Ok(firsts)
}

// The leaves, from the first one on.
pub(crate) fn leaves(alloc: Global, cfg: &Config, words: &[u64]) -> Result<Vec<u32>, AllocError>
    requires pool { length words.now ≡ pool_words (parts_of cfg.now) }
    ensures nodes { IfOk result (λ v. AreNodes (parts_of cfg.now) v.items) }
    ensures leaves { (levels : List (List ℕ)) → IsTree (parts_of cfg.now) words.now levels → IfOk result (λ v. v.items ≡ leaves_of levels) }
{
    let firsts = firsts(alloc, cfg, words)?;
    let count = firsts.len();
    if count == 0 {
        return Ok(firsts);
    }
    level_from(alloc, cfg, words, firsts[count - 1])
}
