// The keys of the leaves that were walked.
ghost use Rattle.std.specs.Prelude.{◌≡◌, ◌≢◌, ◌↔◌, ◌≤◌, ◌<◌, ◌⊎◌, ℕ, length, slice_index, IsTrue, MatchOption};
ghost use Rattle.sh_base.specs.{Parts.{parts_of}, Setting.{pool_words, IsNode}};
ghost use Rattle.sh_image.specs.declared.inner.Image.TheVariants.{Leaf};
ghost use Rattle.sh_tree.specs.Nodes.{leaf_at, NodeIn};
ghost use Rattle.sh_picture.specs.{Tree.{keys_at, AllOnce, IsFirstTwice}, Marks.{AreLeaves, Repeats, TwiceBy}};

use sh_base::Config;
use sh_image::{Seen, read_image};

// Whether the key at a place isn't 0 and stands further behind too.
fn repeats(keys: &[u64], at: usize) -> bool
    requires { at < length keys.now }
    ensures { IsTrue result ↔ Repeats keys.now at }
{
    let key = keys[at];
    if key == 0 {
        return false;
    }
    for behind in at + 1..keys.len() {
        if keys[behind] == key {
            return true;
        }
    }
    false
}

// The lesser of two keys, where the first may be 0 for none.
fn lesser(least: u64, key: u64) -> u64
    ensures one { (result ≡ key) ⊎ ((result ≡ least) × (least ≢ 0)) }
    ensures key { result ≤ key }
    ensures least { least ≢ 0 → result ≤ least }
{
    if least == 0 {
        return key;
    }
    least.min(key)
}

// The least key that stands twice, and 0 where none does.
fn least_twice(keys: &[u64]) -> u64
    ensures { TwiceBy keys.now result }
{
    let mut least = 0;
    for at in 0..keys.len() {
        if repeats(keys, at) {
            least = lesser(least, keys[at]);
        }
    }
    least
}

// The least key that stands twice in a leaf, and 0 where none does.
#[tactic(auto, using(sh_base::proofs::LayoutLemmas::node_word_high))]
fn twice_in(cfg: &Config, words: &[u64], node: u32) -> u64
    requires pool { length words.now ≡ pool_words (parts_of cfg.now) }
    requires node { IsNode (parts_of cfg.now) node }
    requires leaf { NodeIn (parts_of cfg.now) words.now node (Leaf (leaf_at (parts_of cfg.now) words.now node)) }
    ensures { TwiceBy (keys_at (parts_of cfg.now) words.now node) result }
{
    let at = cfg.node_word(node) as usize;
    match read_image(cfg, &words[at..at + cfg.node_size() as usize]) {
        Seen::Leaf(leaf) => least_twice(leaf.keys()),
        _ => 0,
    }
}

// The first leaf that has a key twice, and the least of its keys like that.
pub(crate) fn first_twice(cfg: &Config, words: &[u64], leaves: &[u32]) -> Option<(u32, u64)>
    requires pool { length words.now ≡ pool_words (parts_of cfg.now) }
    requires leaves { AreLeaves (parts_of cfg.now) words.now leaves.now }
    ensures { MatchOption result (AllOnce (parts_of cfg.now) words.now leaves.now) (λ found. IsFirstTwice (parts_of cfg.now) words.now leaves.now found.0 found.1) }
{
    for leaf in leaves {
        let key = twice_in(cfg, words, *leaf);
        if key != 0 {
            return Some((*leaf, key));
        }
    }
    None
}
