// What a leaf answers to a key.
ghost use Rattle.std.specs.Prelude.{◌≡◌, ◌<◌, IsTrue, MatchOption, length};
ghost use Rattle.sh_edit.specs.{Held.{HasKeysOnce}, Placing.{LacksKey}};
ghost use Rattle.sh_decide.specs.Leaves.{leaf_answer, are_keys_once, index_of};

use sh_edit::{find, keys_differ};
use sh_image::LeafImage;
use sh_map::Reply;

/// What a leaf answers to a key: the value of the first entry with the key, or that there is none.
#[tactic(auto, using(crate::proofs::IndexLemmas::answer_found, crate::proofs::IndexLemmas::no_answer))]
pub fn answer(leaf: &LeafImage, key: u64) -> Reply
    ensures { result ≡ leaf_answer leaf.now.entries key }
{
    match find(leaf, key) {
        Some(index) => Reply::Some(leaf.entry(index).value),
        None => Reply::None,
    }
}

// The index of the first entry with the key.
#[tactic(auto, using(crate::proofs::IndexLemmas::first_index, crate::proofs::IndexLemmas::no_index))]
pub(crate) fn index(leaf: &LeafImage, key: u64) -> Option<u32>
    ensures exact { result ≡ index_of leaf.now.entries key }
    ensures found { MatchOption result (LacksKey leaf.now.entries key) (λ i. i < length leaf.now.entries) }
{
    match find(leaf, key) {
        Some(index) => Some(index),
        None => None,
    }
}

// Whether no key stands twice.
pub(crate) fn are_once(leaf: &LeafImage) -> bool
    ensures exact { result ≡ are_keys_once leaf.now.entries }
    ensures once { IsTrue result → HasKeysOnce leaf.now.entries }
{
    keys_differ(leaf)
}
