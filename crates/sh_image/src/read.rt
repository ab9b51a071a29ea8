// What the words of a node are.
ghost use Rattle.std.specs.Prelude.{◌≡◌, length};
ghost use Rattle.sh_base.specs.{Parts.{parts_of}, Setting.{node_size}};
ghost use Rattle.sh_image.specs.{Node.{seen_as, seen_with}, Seen.{SeenBy}};

use crate::read_inner::inner_into;
use crate::read_leaf::{first_torn, leaf_into};
use crate::{Image, InnerImage, LeafImage};
use sh_base::{Config, Value};

/// What the words of a node are.
#[derive(Debug, Drop)]
pub enum Seen {
    /// They spell this leaf, which meets the rules.
    Leaf(LeafImage),
    /// They spell this inner node, which meets the rules.
    Inner(InnerImage),
    /// The node's two versions differ.
    Torn { rear: u64, front: u64 },
    /// The node is a leaf, and this is its first entry whose two versions differ.
    TornEntry { index: u32, rear: u64, front: u64 },
    /// The versions agree, and the words spell no node.
    Odd,
}

/// What was found in the words of a node that were read into an image.
#[derive(Clone, Copy, Debug, PartialEq, Eq)]
pub enum Found {
    /// They spell a node that meets the rules, and it is the image's.
    Node,
    /// The node's two versions differ.
    Torn { rear: u64, front: u64 },
    /// The node is a leaf, and this is its first entry whose two versions differ.
    TornEntry { index: u32, rear: u64, front: u64 },
    /// The versions agree, and the words spell no node.
    Odd,
}

/// Reads a node's words into an image that is there, whatever it was, and answers what they are. Only what the node
/// fills of the image is written. The image is the node that the words spell where it answers `Node`; else it may be
/// any. Condition: the words are a node's, as many as the setting says.
#[tactic(auto, using(sh_base::proofs::LayoutLemmas::node_size_is, sh_base::proofs::LayoutLemmas::rear_at_low, sh_base::proofs::LayoutLemmas::entry_within))]
pub fn read_into(cfg: &Config, words: &[u64], image: &mut Image) -> Found
    requires { length words.now ≡ node_size (parts_of cfg.now) }
    ensures { SeenBy (parts_of cfg.now) words.now (seen_with result image.new) }
{
    let rear = words[cfg.rear_at() as usize];
    let front = words[0];
    if rear != front {
        return Found::Torn { rear, front };
    }
    if words[1] != 0 {
        return if inner_into(cfg, words, image) {
            Found::Node
        } else {
            Found::Odd
        };
    }
    if let Some(index) = first_torn(cfg, words) {
        let at = cfg.entry_at(index) as usize;
        return Found::TornEntry {
            index,
            rear: words[at + (2 + cfg.value_words() as usize)],
            front: words[at],
        };
    }
    if leaf_into(cfg, words, image) {
        Found::Node
    } else {
        Found::Odd
    }
}

/// What the words of a node are. Condition: they are a node's, as many as the setting says.
pub fn read_image(cfg: &Config, words: &[u64]) -> Seen
    requires { length words.now ≡ node_size (parts_of cfg.now) }
    ensures { SeenBy (parts_of cfg.now) words.now result }
{
    let mut image = Image::Leaf(LeafImage::new(0, 0, 0, 0, 0, Value::of(&[0])));
    match read_into(cfg, words, &mut image) {
        Found::Node => node_seen(image),
        Found::Torn { rear, front } => Seen::Torn { rear, front },
        Found::TornEntry { index, rear, front } => Seen::TornEntry { index, rear, front },
        Found::Odd => Seen::Odd,
    }
}

// What a reader sees where it sees this node.
fn node_seen(image: Image) -> Seen
    ensures { result ≡ seen_as image }
{
    match image {
        Image::Leaf(leaf) => Seen::Leaf(leaf),
        Image::Inner(inner) => Seen::Inner(inner),
    }
}
