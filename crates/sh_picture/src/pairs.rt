// The pairs of the levels that were walked.
ghost use Rattle.std.specs.{Prelude.{◌≡◌, ◌↔◌, ◌≤◌, ◌<◌, ◌+◌, ℕ, List, length, map, slice_index, IsTrue, MatchOption}, List.{AllByRecursion}};
ghost use Rattle.sh_base.specs.{Parts.{parts_of}, Setting.{nodes, pool_words, IsNode}};
ghost use Rattle.sh_image.specs.{Inner.{HasChild}, declared.inner.Image.TheVariants.{Inner}};
ghost use Rattle.sh_tree.specs.{Nodes.{inner_at, NodeIn}, Tree.{IsChildIn}};
ghost use Rattle.sh_picture.specs.{Walk.{IsWalked}, Tree.{pair_count, AllLead, AllLeadBelow, IsFirstAstray, IsFirstBad, LeadsBelow}, Marks.{AreInner, AreMarked, AreUnder, IsAstrayIn, PairLeads}};

use crate::node::word_at;
use sh_base::Config;
use sh_image::{InnerImage, Pair, Seen, read_image};

// Marks these nodes, where none bears the mark or a greater one yet.
fn mark_all(marks: &mut [u64], nodes: &[u32], mark: u64)
    requires within { (i : ℕ) → i < length nodes.now → slice_index nodes.now i < length marks.old }
    requires fresh { AreUnder mark marks.old }
    ensures marked { AreMarked nodes.now mark marks.new }
    ensures under { AreUnder (mark + 1) marks.new }
    ensures long { length marks.new ≡ length marks.old }
{
    for node in nodes {
        marks[*node as usize] = mark;
    }
}

// Whether a pair leads to a node of the level below, whose nodes bear the mark, that begins at its separator.
#[tactic(auto, using(sh_base::proofs::LayoutLemmas::node_size_is, sh_base::proofs::LayoutLemmas::rear_at_low))]
fn leads(cfg: &Config, words: &[u64], marks: &[u64], mark: u64, pair: Pair) -> bool
    requires pool { length words.now ≡ pool_words (parts_of cfg.now) }
    requires marks { length marks.now ≡ nodes (parts_of cfg.now) + 1 }
    requires child { HasChild (parts_of cfg.now) pair }
    ensures { (below : List ℕ) → AreMarked below mark marks.now → (IsTrue result ↔ IsChildIn (parts_of cfg.now) words.now below pair) }
{
    if marks[pair.child as usize] != mark {
        return false;
    }
    word_at(cfg, words, pair.child, 2) == pair.separator
}

// The first pair of an inner node that doesn't.
fn first_of_pairs(
    cfg: &Config,
    words: &[u64],
    marks: &[u64],
    mark: u64,
    image: &InnerImage,
) -> Option<u32>
    requires pool { length words.now ≡ pool_words (parts_of cfg.now) }
    requires marks { length marks.now ≡ nodes (parts_of cfg.now) + 1 }
    requires children { AllByRecursion (HasChild (parts_of cfg.now)) image.now.pairs }
    ensures { (below : List ℕ) → AreMarked below mark marks.now → MatchOption result ((i : ℕ) → i < length image.now.pairs → PairLeads (parts_of cfg.now) words.now below image.now.pairs i) (λ index. IsFirstBad (PairLeads (parts_of cfg.now) words.now below image.now.pairs) (length image.now.pairs) index) }
{
    for index in 0..image.pairs() {
        if !leads(cfg, words, marks, mark, image.pair(index)) {
            return Some(index);
        }
    }
    None
}

// The first pair of a node that doesn't.
#[tactic(auto, using(sh_base::proofs::LayoutLemmas::node_word_high))]
fn first_in_node(cfg: &Config, words: &[u64], marks: &[u64], mark: u64, node: u32) -> Option<u32>
    requires pool { length words.now ≡ pool_words (parts_of cfg.now) }
    requires marks { length marks.now ≡ nodes (parts_of cfg.now) + 1 }
    requires node { IsNode (parts_of cfg.now) node }
    requires inner { NodeIn (parts_of cfg.now) words.now node (Inner (inner_at (parts_of cfg.now) words.now node)) }
    ensures { (below : List ℕ) → AreMarked below mark marks.now → MatchOption result (AllLeadBelow (parts_of cfg.now) words.now below node) (λ index. IsFirstBad (LeadsBelow (parts_of cfg.now) words.now below node) (pair_count (parts_of cfg.now) words.now node) index) }
{
    let at = cfg.node_word(node) as usize;
    match read_image(cfg, &words[at..at + cfg.node_size() as usize]) {
        Seen::Inner(image) => first_of_pairs(cfg, words, marks, mark, &image),
        _ => None,
    }
}

// The first pair of a level that doesn't: its node, and its index there.
fn first_in_level(
    cfg: &Config,
    words: &[u64],
    marks: &[u64],
    mark: u64,
    level: &[u32],
) -> Option<(u32, u32)>
    requires pool { length words.now ≡ pool_words (parts_of cfg.now) }
    requires marks { length marks.now ≡ nodes (parts_of cfg.now) + 1 }
    requires inner { AreInner (parts_of cfg.now) words.now level.now }
    ensures { (below : List ℕ) → AreMarked below mark marks.now → MatchOption result ((i : ℕ) → i < length level.now → AllLeadBelow (parts_of cfg.now) words.now below (slice_index level.now i)) (λ found. IsAstrayIn (parts_of cfg.now) words.now below level.now found.0 found.1) }
{
    for node in level {
        if let Some(index) = first_in_node(cfg, words, marks, mark, *node) {
            return Some((*node, index));
        }
    }
    None
}

// The first pair of a level that doesn't lead to the one below.
fn first_below(
    cfg: &Config,
    words: &[u64],
    marks: &mut [u64],
    mark: u64,
    level: &[u32],
    below: &[u32],
) -> Option<(u32, u32)>
    requires pool { length words.now ≡ pool_words (parts_of cfg.now) }
    requires marks { length marks.old ≡ nodes (parts_of cfg.now) + 1 }
    requires fresh { AreUnder mark marks.old }
    requires inner { AreInner (parts_of cfg.now) words.now level.now }
    requires below { (i : ℕ) → i < length below.now → IsNode (parts_of cfg.now) (slice_index below.now i) }
    ensures found { MatchOption result ((i : ℕ) → i < length level.now → AllLeadBelow (parts_of cfg.now) words.now below.now (slice_index level.now i)) (λ found. IsAstrayIn (parts_of cfg.now) words.now below.now level.now found.0 found.1) }
    ensures under { AreUnder (mark + 1) marks.new }
    ensures long { length marks.new ≡ length marks.old }
{
    mark_all(marks, below, mark);
    first_in_level(cfg, words, marks, mark, level)
}

// The first pair that is astray, from the top level down: its node, and its index there. No node bears a mark yet.
pub(crate) fn first_astray(
    cfg: &Config,
    words: &[u64],
    levels: &[Vec<u32>],
    marks: &mut [u64],
) -> Option<(u32, u32)>
    requires pool { length words.now ≡ pool_words (parts_of cfg.now) }
    requires walked { IsWalked (parts_of cfg.now) words.now (map (λ nodes. nodes.items) levels.now) }
    requires marks { length marks.old ≡ nodes (parts_of cfg.now) + 1 }
    requires fresh { AreUnder 1 marks.old }
    ensures { MatchOption result (AllLead (parts_of cfg.now) words.now (map (λ nodes. nodes.items) levels.now)) (λ found. IsFirstAstray (parts_of cfg.now) words.now (map (λ nodes. nodes.items) levels.now) found.0 found.1) }
{
    for depth in 1..levels.len() {
        if let Some(found) = first_below(
            cfg,
            words,
            marks,
            depth as u64,
            &levels[depth - 1],
            &levels[depth],
        ) {
            return Some(found);
        }
    }
    None
}
