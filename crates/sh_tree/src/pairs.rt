// The keys and values that a tree holds.
ghost use Rattle.std.specs.{Prelude.{◌≡◌, ◌∷◌, [], ℕ, List, length, map, IfOk, OnOk}, FinMap.{entries}};
ghost use Rattle.sh_base.specs.{Parts.{parts_of}, Setting.{pool_words, IsNode}, Layout.{node_part}};
ghost use Rattle.sh_map.specs.Map.{row_pair};
ghost use Rattle.sh_image.specs.Leaf.{Leaf, Spells};
ghost use Rattle.sh_tree.specs.{Tree.{map_in, IsTree}, Adding.{Adds}};

use crate::levels::leaves;
use sh_base::Config;
use sh_image::{LeafEntry, LeafImage, Seen, read_image};
use sh_map::{PlainMap, Rows};
use std::alloc::{AllocError, Global};

// Adds an entry's pair, where it isn't empty.
fn add_entry(map: &mut PlainMap, entry: &LeafEntry) -> Result<(), AllocError>
    ensures { OnOk result (Adds map.old (entry.now ∷ []) map.new) }
{
    if entry.key != 0 {
        map.put(entry.key, entry.value)?;
    }
    Ok(())
}

// Adds the pairs of a leaf's entries.
fn add_entries(map: &mut PlainMap, leaf: &LeafImage) -> Result<(), AllocError>
    ensures { OnOk result (Adds map.old leaf.now.entries map.new) }
{
    let count = leaf.entries();
    for step in 0..count {
        let entry = leaf.entry(count - 1 - step);
        add_entry(map, &entry)?;
    }
    Ok(())
}

// Adds the pairs of the leaf that a node's words spell, if they spell one.
#[tactic(auto, using(sh_base::proofs::LayoutLemmas::node_word_high))]
fn add_leaf(map: &mut PlainMap, cfg: &Config, words: &[u64], node: u32) -> Result<(), AllocError>
    requires pool { length words.now ≡ pool_words (parts_of cfg.now) }
    requires node { IsNode (parts_of cfg.now) node }
    ensures { (a : Leaf) → Spells (parts_of cfg.now) (node_part (parts_of cfg.now) words.now node) a → OnOk result (Adds map.old a.entries map.new) }
{
    let at = cfg.node_word(node) as usize;
    match read_image(cfg, &words[at..at + cfg.node_size() as usize]) {
        Seen::Leaf(leaf) => add_entries(map, &leaf),
        _ => Ok(()),
    }
}

/// The keys and values of a tree's leaves, rising: the rows of the map that it holds. Conditions: the words are as many
/// as the pool's, and hold a tree; of words that hold none the rows say nothing.
pub fn pairs_in(alloc: Global, cfg: &Config, words: &[u64]) -> Result<Rows, AllocError>
    requires { length words.now ≡ pool_words (parts_of cfg.now) }
    ensures { (levels : List (List ℕ)) → IsTree (parts_of cfg.now) words.now levels → IfOk result (λ rows. map row_pair rows ≡ entries (map_in (parts_of cfg.now) words.now levels)) }
{
    let mut map = PlainMap::new(alloc);
    let leaves = leaves(alloc, cfg, words)?;
    for leaf in &leaves {
        add_leaf(&mut map, cfg, words, *leaf)?;
    }
    Ok(map.into_rows())
}
