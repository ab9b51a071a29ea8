// Whether the words of a node are an inner node's.
ghost use Rattle.std.specs.Prelude.{◌≡◌, ◌↔◌, ℕ, ◌+◌, ◌*◌, ◌<◌, ◌≤◌, IsTrue, MatchOption, drop, length, replicate, slice_index, take};
ghost use Rattle.std.specs.List.{AllByRecursion};
ghost use Rattle.sh_base.specs.{Parts.{parts_of}, Setting.{nodes, node_size}, Layout.{rear_at}};
ghost use Rattle.sh_image.specs.{Inner.{inner_in, pairs_in, separator_at, words_behind, AreSeparators, HasChild, Inner, IsInner, SpellsInner}, Node.{seen_as}, Seen.{SeenBy}};

use crate::read_leaf::are_empty;
use crate::{Image, InnerImage, Pair};
use sh_base::Config;

/// Reads the words into an image, and answers whether they spell an inner node: then it is the image's. Conditions:
/// they are as many as the setting says, and the node's two versions agree.
pub(crate) fn inner_into(cfg: &Config, words: &[u64], image: &mut Image) -> bool
    requires size { length words.now ≡ node_size (parts_of cfg.now) }
    requires untorn { slice_index words.now (rear_at (parts_of cfg.now)) ≡ slice_index words.now 0 }
    ensures spelled { IsTrue result → SeenBy (parts_of cfg.now) words.now (seen_as image.new) }
    ensures always { (a : Inner) → SpellsInner (parts_of cfg.now) words.now a → IsTrue result }
{
    match image {
        Image::Inner(inner) => read_inner(cfg, words, inner),
        Image::Leaf(_) => inner_in_place(cfg, words, image),
    }
}

// The same, where the image is no inner node's.
#[inline(never)]
fn inner_in_place(cfg: &Config, words: &[u64], image: &mut Image) -> bool
    requires size { length words.now ≡ node_size (parts_of cfg.now) }
    requires untorn { slice_index words.now (rear_at (parts_of cfg.now)) ≡ slice_index words.now 0 }
    ensures spelled { IsTrue result → SeenBy (parts_of cfg.now) words.now (seen_as image.new) }
    ensures always { (a : Inner) → SpellsInner (parts_of cfg.now) words.now a → IsTrue result }
{
    let mut inner = InnerImage::new(0, 0, 0, 0, 0);
    let spells = read_inner(cfg, words, &mut inner);
    *image = Image::Inner(inner);
    spells
}

// Reads the words into an inner node's image, and answers whether they spell that inner node.
#[tactic(auto, using(sh_base::proofs::LayoutLemmas::node_size_is, sh_base::proofs::LayoutLemmas::rear_at_low))]
fn read_inner(cfg: &Config, words: &[u64], image: &mut InnerImage) -> bool
    requires size { length words.now ≡ node_size (parts_of cfg.now) }
    requires untorn { slice_index words.now (rear_at (parts_of cfg.now)) ≡ slice_index words.now 0 }
    ensures spelled { IsTrue result → SpellsInner (parts_of cfg.now) words.now image.new }
    ensures always { (a : Inner) → SpellsInner (parts_of cfg.now) words.now a → IsTrue result }
{
    let count = words[5];
    if words[4] > u64::from(cfg.nodes()) || count > 2 * u64::from(cfg.leaf()) {
        return false;
    }
    if !has_zeros_behind(cfg, words, count as usize) {
        return false;
    }
    if !fill(cfg, words, words[4] as u32, count as u32, image) {
        return false;
    }
    is_inner(cfg, image)
}

// Reads the inner node whose words these are, if they are an inner node's, and answers whether each child is a node of
// the setting; where one isn't the image may be any.
#[tactic(auto, using(sh_base::proofs::LayoutLemmas::node_size_is, sh_base::proofs::LayoutLemmas::rear_at_low))]
fn fill(cfg: &Config, words: &[u64], next: u32, count: u32, image: &mut InnerImage) -> bool
    requires size { length words.now ≡ node_size (parts_of cfg.now) }
    requires next { next ≡ slice_index words.now 4 }
    requires count { count ≡ slice_index words.now 5 }
    requires few { count ≤ 2 * cfg.now.parts.leaf }
    ensures filled { IsTrue result → (image.new ≡ inner_in words.now) × AllByRecursion (HasChild (parts_of cfg.now)) image.new.pairs }
    ensures always { AllByRecursion (HasChild (parts_of cfg.now)) (pairs_in count (drop 6 words.now)) → IsTrue result }
{
    image.begin(words[0], words[1], words[2], words[3], next);
    for index in 0..count as usize {
        let Some(child) = child_in(cfg, words[6 + 2 * index + 1]) else {
            return false;
        };
        image.push(Pair {
            separator: words[6 + 2 * index],
            child,
        });
    }
    true
}

// The node of the setting that a word names.
fn child_in(cfg: &Config, word: u64) -> Option<u32>
    ensures { MatchOption result ((1 ≤ word) × (word ≤ nodes (parts_of cfg.now)) → ⊥) (λ child. (child ≡ word) × (1 ≤ word) × (word ≤ nodes (parts_of cfg.now))) }
{
    if word == 0 || word > u64::from(cfg.nodes()) {
        None
    } else {
        Some(word as u32)
    }
}

// Whether the words behind so many pairs are 0, up to the rear version.
fn has_zeros_behind(cfg: &Config, words: &[u64], count: usize) -> bool
    requires size { length words.now ≡ node_size (parts_of cfg.now) }
    requires few { count ≤ 2 * cfg.now.parts.leaf }
    ensures { IsTrue result ↔ (take (words_behind (parts_of cfg.now) count) (drop (6 + 2 * count) words.now) ≡ replicate (words_behind (parts_of cfg.now) count) 0) }
{
    are_empty(&words[6 + 2 * count..cfg.rear_at() as usize])
}

// Whether the image meets the rules of an inner node, where its next node, its number of pairs and their children do.
fn is_inner(cfg: &Config, image: &InnerImage) -> bool
    requires next { image.now.next ≤ nodes (parts_of cfg.now) }
    requires count { length image.now.pairs ≤ 2 * cfg.now.parts.leaf }
    requires children { AllByRecursion (HasChild (parts_of cfg.now)) image.now.pairs }
    ensures { IsTrue result ↔ IsInner (parts_of cfg.now) image.now }
{
    if image.version() > cfg.last_version() || image.low() >= image.high() {
        return false;
    }
    if image.level() == 0 || image.level() >= u64::from(cfg.nodes()) {
        return false;
    }
    if (image.next() == 0) != (image.high() == u64::MAX) {
        return false;
    }
    image.pairs() > 0 && are_separators(image)
}

// Whether the separators begin at the low fence, rise, and stay below the high fence.
fn are_separators(image: &InnerImage) -> bool
    requires { 1 ≤ length image.now.pairs }
    ensures { IsTrue result ↔ AreSeparators image.now.low image.now.high image.now.pairs }
{
    image.pair(0).separator == image.low() && rises(image) && is_below(image)
}

// Whether each separator is less than the next one.
fn rises(image: &InnerImage) -> bool
    ensures { IsTrue result ↔ ((i : ℕ) → i + 1 < length image.now.pairs → separator_at image.now.pairs i < separator_at image.now.pairs (i + 1)) }
{
    for index in 1..image.pairs() {
        if image.pair(index - 1).separator >= image.pair(index).separator {
            return false;
        }
    }
    true
}

// Whether each separator is below the high fence.
fn is_below(image: &InnerImage) -> bool
    ensures { IsTrue result ↔ ((i : ℕ) → i < length image.now.pairs → separator_at image.now.pairs i < image.now.high) }
{
    for index in 0..image.pairs() {
        if image.pair(index).separator >= image.high() {
            return false;
        }
    }
    true
}
