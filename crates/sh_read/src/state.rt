// A READ of a node, and what it answers.
use sh_base::Config;
use sh_image::Image;
use std::marker::Model;

/// What a READ answers to a word.
#[derive(Clone, Copy, Debug, PartialEq, Eq)]
pub enum Progress {
    /// There are more words to load.
    More,
    /// All words are loaded, and they spell a node: its image is there.
    Accepted,
    /// All words were loaded, and two versions differ: those of the node, or else those of the leaf's first entry that
    /// is torn. The READ stands at its start again.
    Again { rear: u64, front: u64 },
    /// All words are loaded, their versions agree, and they spell no node.
    Odd,
}

/// A READ of one node under way. It has room for the 711 words of the largest node and for its image, and takes no
/// memory.
#[derive(Debug, Drop)]
pub struct Reading {
    pub(crate) cfg: Config,
    pub(crate) node: u32,
    // The address of the node's first word.
    pub(crate) first: u32,
    pub(crate) left: u32,
    pub(crate) words: [u64; 711],
    // The image of the last leaf that was accepted, and that of the last inner node. Which one is the node's the level
    // word says.
    pub(crate) leaf: Image,
    pub(crate) inner: Image,
}

impl Model for Reading {
    ghost use Rattle.sh_read.specs.{Reads.{Reader}, Kept.{reader_of, IsKeptRead}};

    ghost Value = { Reader };

    ghost view = { λ c. reader_of c.cfg.parts c.node c.left c.words };

    ghost invariant = { λ c. IsKeptRead c.cfg.parts c.node c.first c.left c.words c.leaf c.inner };
}
