//! Where a client goes from a node: down, right, nowhere, or back to the root.
#![tactic(auto)]

ghost use Rattle.std.specs.Prelude.{◌≡◌, ◌∷◌, [], ℕ};
ghost use Rattle.sh_image.specs.{Inner.{Inner}, declared.inner.Image.{Image}};
ghost use Rattle.sh_descend.specs.{Descent.{child_of, high_of, hop_of, level_of, low_of, next_of, image_pairs, Covers, HasSortedPairs}, declared.Hop.TheVariants.{Down}};

use sh_image::{Image, InnerImage};

/// Where to go from a node, on the way to the node of a level that covers a key.
#[derive(Clone, Copy, Debug, PartialEq, Eq)]
pub enum Hop {
    /// Nowhere: this is the node.
    Here,
    /// To the next node of this level.
    Right(u32),
    /// To a child.
    Down(u32),
    /// To the root again: this node is below the level, or covers greater keys alone.
    Restart,
}

/// The hop from this image to the node of a level that covers a key. `Restart` exactly where the image's level is
/// below the wanted one or the key is below its low fence. Otherwise `Right` with its next node where the key isn't
/// below its high fence. Otherwise `Here` where the levels are equal. Otherwise `Down` to the child with the greatest
/// separator not above the key. Condition: an inner image has a pair at least, its separators rise, and the first is
/// its low fence.
pub fn next_hop(image: &Image, key: u64, level: u64) -> Hop
    requires { HasSortedPairs image.now }
    ensures { result ≡ hop_of image.now key level }
{
    match image {
        Image::Leaf(leaf) => {
            if level > 0 || key < leaf.low() {
                Hop::Restart
            } else if leaf.high() <= key {
                Hop::Right(leaf.next())
            } else {
                Hop::Here
            }
        }
        Image::Inner(inner) => {
            if inner.level() < level || key < inner.low() {
                Hop::Restart
            } else if inner.high() <= key {
                Hop::Right(inner.next())
            } else if inner.level() == level {
                Hop::Here
            } else {
                Hop::Down(child(inner, key))
            }
        }
    }
}

/// The child with the greatest separator not above the key, where the separators rise, and 0 where none is at or below
/// it. It stops at the first separator above the key.
pub fn child(inner: &InnerImage, key: u64) -> u32
    ensures { result ≡ child_of inner.now.pairs key }
{
    let mut child = 0;
    for index in 0..inner.pairs() {
        let pair = inner.pair(index);
        if key < pair.separator {
            return child;
        }
        child = pair.child;
    }
    child
}

/// A hop down leads to the child that covers the key: it stands in the pairs with a separator not above the key, and
/// each later separator is above the key.
pub fn down_covers_the_key()
    ensures { (image : Image) (key level child : ℕ) → HasSortedPairs image → hop_of image key level ≡ Down child → Covers (image_pairs image) key child }
{}

#[cfg(test)]
mod tests {
    use super::*;
    use sh_base::Value;
    use sh_image::{LeafImage, Pair};

    // An inner node of level 1: keys from 10 on below 20, next node 7, the pairs (10, 1) and (15, 2).
    fn inner() -> InnerImage
        ensures { result ≡ record { version = 0; level = 1; low = 10; high = 20; next = 7; pairs = record { separator = 10; child = 1 } ∷ record { separator = 15; child = 2 } ∷ [] } }
    {
        let mut image = InnerImage::new(0, 1, 10, 20, 7);
        image.push(Pair {
            separator: 10,
            child: 1,
        });
        image.push(Pair {
            separator: 15,
            child: 2,
        });
        image
    }

    #[tactic(auto, using(crate::proofs::ChildLemmas::two_sorted))]
    fn from_inner(key: u64, level: u64) -> Hop {
        next_hop(&Image::Inner(inner()), key, level)
    }

    // The hop from a leaf: keys from 10 on below 20, next leaf 3.
    fn from_leaf(key: u64, level: u64) -> Hop {
        let leaf = LeafImage::new(0, 10, 20, 3, 4, Value::of(&[0]));
        next_hop(&Image::Leaf(leaf), key, level)
    }

    #[test]
    fn children_at_the_separators(rt: HostRuntime) {
        assert_eq!(rt; child(&inner(), 9), 0);
        assert_eq!(rt; child(&inner(), 10), 1);
        assert_eq!(rt; child(&inner(), 14), 1);
        assert_eq!(rt; child(&inner(), 15), 2);
        assert_eq!(rt; child(&inner(), 20), 2);
    }

    #[test]
    fn hops_at_the_edges(rt: HostRuntime) {
        assert_eq!(rt; from_inner(0, 0), Hop::Restart);
        assert_eq!(rt; from_inner(9, 0), Hop::Restart);
        assert_eq!(rt; from_inner(10, 0), Hop::Down(1));
        assert_eq!(rt; from_inner(14, 0), Hop::Down(1));
        assert_eq!(rt; from_inner(15, 0), Hop::Down(2));
        assert_eq!(rt; from_inner(19, 0), Hop::Down(2));
        assert_eq!(rt; from_inner(20, 0), Hop::Right(7));
        assert_eq!(rt; from_inner(u64::MAX, 0), Hop::Right(7));
        assert_eq!(rt; from_inner(9, 1), Hop::Restart);
        assert_eq!(rt; from_inner(10, 1), Hop::Here);
        assert_eq!(rt; from_inner(20, 1), Hop::Right(7));
        assert_eq!(rt; from_inner(20, 2), Hop::Restart);
        assert_eq!(rt; from_leaf(9, 0), Hop::Restart);
        assert_eq!(rt; from_leaf(10, 0), Hop::Here);
        assert_eq!(rt; from_leaf(20, 0), Hop::Right(3));
        assert_eq!(rt; from_leaf(15, 1), Hop::Restart);
    }
}
