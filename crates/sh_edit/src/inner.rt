// Changes of inner nodes.
ghost use Rattle.std.specs.Prelude.{◌≡◌, ◌+◌, ◌-◌, ◌*◌, ◌^◌, ◌<◌, ◌≤◌, ◌++◌, MatchOption, Some, length, slice_get, take, drop};
ghost use Rattle.std.specs.List.{insert};
ghost use Rattle.sh_edit.specs.Pairing.{left_inner, middle_of, pairs_with, right_inner, root_over, with_pair, IsGapAt};

use sh_base::Config;
use sh_image::{InnerImage, Pair};

/// What a split makes of an inner node.
#[derive(Debug, Drop)]
pub struct InnerHalves {
    /// The node with the lesser separators, which leads to the right one.
    pub left: InnerImage,
    /// The node with the other separators.
    pub right: InnerImage,
    /// The right half's first separator: its low fence, and the left half's high one.
    pub separator: u64,
}

/// The node with this pair added, behind those with lesser separators, and the version raised by one; none exactly
/// where it has twice as many pairs as the setting's leaves have entries. Conditions: it has no more than these, and
/// its version isn't 2^64 - 1.
pub fn add_child(cfg: &Config, inner: &InnerImage, separator: u64, child: u32) -> Option<InnerImage>
    requires count { length inner.now.pairs ≤ 2 * cfg.now.parts.leaf }
    requires version { inner.now.version < 2 ^ 64 - 1 }
    ensures { MatchOption result (length inner.now.pairs ≡ 2 * cfg.now.parts.leaf) (λ a. (length inner.now.pairs < 2 * cfg.now.parts.leaf) × (a ≡ with_pair inner.now (record { separator = separator; child = child }))) }
{
    let count = inner.pairs();
    if count == 2 * cfg.leaf() {
        return None;
    }
    let new = Pair { separator, child };
    let gap = gap_for(inner, separator);
    let (version, level) = (inner.version() + 1, inner.level());
    let mut image = InnerImage::new(version, level, inner.low(), inner.high(), inner.next());
    push_pairs(&mut image, inner, gap, new, 0, count + 1);
    Some(image)
}

/// Splits an inner node to which a pair is added that has no room in it. Of its pairs and the new one, with rising
/// separators, the first K go left and the others right; K is the number of entries of the setting's leaves. The left
/// half has a version more, and `right` for its next node; the right half has the version 0, and the old next node.
/// Conditions: it has 2K pairs, and its version isn't 2^64 - 1.
pub fn split_inner(
    cfg: &Config,
    inner: &InnerImage,
    separator: u64,
    child: u32,
    right: u32,
) -> InnerHalves
    requires count { length inner.now.pairs ≡ 2 * cfg.now.parts.leaf }
    requires version { inner.now.version < 2 ^ 64 - 1 }
    ensures left { result.left ≡ left_inner cfg.now.parts.leaf inner.now (record { separator = separator; child = child }) right }
    ensures right { result.right ≡ right_inner cfg.now.parts.leaf inner.now (record { separator = separator; child = child }) }
    ensures separator { result.separator ≡ middle_of cfg.now.parts.leaf inner.now.pairs (record { separator = separator; child = child }) }
{
    let count = inner.pairs();
    let cut = cfg.leaf();
    let new = Pair { separator, child };
    let gap = gap_for(inner, separator);
    let middle = pair_after(inner, gap, new, cut).separator;
    let (version, level) = (inner.version() + 1, inner.level());
    let mut left = InnerImage::new(version, level, inner.low(), middle, right);
    push_pairs(&mut left, inner, gap, new, 0, cut);
    let mut right = InnerImage::new(0, level, middle, inner.high(), inner.next());
    push_pairs(&mut right, inner, gap, new, cut, count + 1);
    InnerHalves {
        left,
        right,
        separator: middle,
    }
}

/// The root above two nodes: of version 0, over all keys, with the pairs (0, `left`) and (`separator`, `right`).
pub fn new_root(level: u64, left: u32, separator: u64, right: u32) -> InnerImage
    ensures { result ≡ root_over level left separator right }
{
    let mut root = InnerImage::new(0, level, 0, u64::MAX, 0);
    root.push(Pair {
        separator: 0,
        child: left,
    });
    root.push(Pair {
        separator,
        child: right,
    });
    root
}

// How many pairs stand before the first whose separator isn't less than this one.
fn gap_for(inner: &InnerImage, separator: u64) -> u32
    ensures { IsGapAt inner.now.pairs separator result }
{
    for index in 0..inner.pairs() {
        if inner.pair(index).separator >= separator {
            return index;
        }
    }
    inner.pairs()
}

// A pair of the node with a new one put in at the gap. Condition: there is such a pair.
fn pair_after(inner: &InnerImage, gap: u32, new: Pair, index: u32) -> Pair
    requires gap { gap ≤ length inner.now.pairs }
    requires index { index ≤ length inner.now.pairs }
    ensures { slice_get (insert inner.now.pairs gap new) index ≡ Some result }
{
    if index < gap {
        return inner.pair(index);
    }
    if index == gap {
        new
    } else {
        inner.pair(index - 1)
    }
}

// Puts the pairs at these indexes, of the node with a new one put in at the gap, behind those of an image. Conditions:
// there are such pairs, and there is room.
fn push_pairs(image: &mut InnerImage, inner: &InnerImage, gap: u32, new: Pair, from: u32, to: u32)
    requires gap { gap ≤ length inner.now.pairs }
    requires range { (from ≤ to) × (to ≤ length inner.now.pairs + 1) }
    requires room { length image.old.pairs + (to - from) ≤ 128 }
    ensures { image.new ≡ record image.old { pairs = image.old.pairs ++ take (to - from) (drop from (insert inner.now.pairs gap new)) } }
{
    for index in from..to {
        image.push(pair_after(inner, gap, new, index));
    }
}
