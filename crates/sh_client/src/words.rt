// The words of a node or of an entry, that are to be stored.
ghost use Rattle.std.specs.Prelude.{◌≡◌, ◌+◌, ◌*◌, ◌<◌, ◌≤◌, [], length, slice_index};
ghost use Rattle.sh_base.specs.{Parts.{parts_of}, Setting.{node_size}};
ghost use Rattle.sh_image.specs.{Entries.{entry_words}, Inner.{inner_words}, Leaf.{leaf_words, HaveWords}};

use sh_base::{Config, Value};
use sh_image::{InnerImage, LeafImage, write_entry, write_inner, write_leaf};
use std::marker::Model;

/// Up to 711 words, as many as the largest node has. It takes no memory.
#[derive(Debug, Drop)]
pub struct Words {
    count: u32,
    words: [u64; 711],
}

impl Model for Words {
    ghost use Rattle.std.specs.Prelude.{List, ℕ, ◌≡◌, ◌≤◌, length, take};

    ghost Value = { List ℕ };

    ghost view = { λ a. take a.count a.words };

    ghost invariant = { λ a. (a.count ≤ 711) × (length a.words ≡ 711) };
}

impl Words {
    /// No words.
    pub(crate) fn none() -> Words
        ensures { result ≡ [] }
    {
        Words {
            count: 0,
            words: [0; 711],
        }
    }

    /// How many there are.
    pub(crate) fn count(&self) -> u32
        ensures { result ≡ length self.now }
    {
        self.count
    }

    /// A word. Condition: there are more words than the index.
    pub(crate) fn word(&self, index: u32) -> u64
        requires { index < length self.now }
        ensures { result ≡ slice_index self.now index }
    {
        prove!(index < self.count);
        self.words[index as usize]
    }

    /// Becomes the words of an entry. Condition: its value has at most eight words.
    pub(crate) fn set_entry(&mut self, version: u64, key: u64, value: Value)
        ensures { self.new ≡ entry_words (record { version = version; key = key; value = value }) }
    {
        let size = 3 + value.len();
        write_entry(version, key, value, &mut self.words[..size]);
        self.count = size as u32;
    }

    /// Becomes the words of a leaf. Condition: a leaf of the setting.
    #[tactic(auto, using(sh_base::proofs::LayoutLemmas::node_size_is, sh_base::proofs::LayoutLemmas::rear_at_small))]
    pub(crate) fn set_leaf(&mut self, cfg: &Config, image: &LeafImage)
        requires count { length image.now.entries ≡ cfg.now.parts.leaf }
        requires values { HaveWords (parts_of cfg.now) image.now.entries }
        ensures words { self.new ≡ leaf_words image.now }
        ensures size { length self.new ≡ node_size (parts_of cfg.now) }
    {
        let size = cfg.node_size();
        write_leaf(cfg, image, &mut self.words[..size as usize]);
        self.count = size;
    }

    /// Becomes the words of an inner node. Condition: it has no more pairs than the setting allows.
    #[tactic(auto, using(sh_base::proofs::LayoutLemmas::node_size_is, sh_base::proofs::LayoutLemmas::rear_at_small))]
    pub(crate) fn set_inner(&mut self, cfg: &Config, image: &InnerImage)
        requires { length image.now.pairs ≤ 2 * cfg.now.parts.leaf }
        ensures words { self.new ≡ inner_words (parts_of cfg.now) image.now }
        ensures size { length self.new ≡ node_size (parts_of cfg.now) }
    {
        let size = cfg.node_size();
        write_inner(cfg, image, &mut self.words[..size as usize]);
        self.count = size;
    }
}
