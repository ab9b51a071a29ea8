// A READ that is fed its words one at a time.
ghost use Rattle.std.specs.Prelude.{◌≡◌, ◌≢◌, ◌+◌, ◌<◌, ◌≤◌, IfSome, length, slice_index, None, Some};
ghost use Rattle.sh_base.specs.{Parts.{parts_of}, Setting.{node_size, pool_words, IsNode, IsSetting}};
ghost use Rattle.sh_read.specs.{declared.state.Progress.TheVariants.{Accepted}, Judging.{seen_of}, Reads.{accepted, answer_to, read_fed, image_in, progress_of, reads_start, wanted}};
ghost use Rattle.sh_read.specs.{Kept.{kept_answer, image_at, left_after, KeepsImage}, Loads.{HasNext, IsInside}};

use crate::{Progress, Reading};
use sh_base::{Config, Value};
use sh_image::{Found, Image, InnerImage, LeafImage, read_into};

impl Reading {
    /// A READ of a node, with nothing loaded. Condition: a node of this setting.
    pub fn new(cfg: &Config, node: u32) -> Reading
        requires { IsNode (parts_of cfg.now) node }
        ensures { result ≡ record { setting = parts_of cfg.now; reads = reads_start node } }
    {
        Reading {
            cfg: *cfg,
            node,
            first: cfg.node_word(node),
            left: cfg.node_size(),
            words: blank(),
            leaf: no_leaf(),
            inner: no_inner(),
        }
    }

    /// Begins a READ of another node, with nothing loaded. Condition: a node of this setting.
    pub fn start(&mut self, node: u32)
        requires { IsNode self.old.setting node }
        ensures { self.new ≡ record self.old { reads = reads_start node } }
    {
        self.node = node;
        self.first = self.cfg.node_word(node);
        self.left = self.cfg.node_size();
    }

    /// The node that is read.
    pub fn node(&self) -> u32
        ensures { result ≡ self.now.reads.node }
    {
        self.node
    }

    /// The address of the word that is to be loaded next: from the node's last word down to its first. None exactly
    /// where all words are loaded.
    #[tactic(auto, using(sh_base::proofs::LayoutLemmas::node_word_high))]
    pub fn want(&self) -> Option<u32>
        ensures here { result ≡ wanted self.now.setting self.now.reads }
        ensures within { IfSome result (λ at. at < pool_words self.now.setting) }
    {
        if self.left == 0 {
            return None;
        }
        Some(self.first + (self.left - 1))
    }

    /// Takes the word that was wanted. The last one is judged with all the others: `Accepted` and `Odd` are the answers
    /// to a node and to no node, and `Again` to words with two versions that differ; the READ then stands at its start.
    /// Condition: a word is wanted.
    pub fn fed(&mut self, word: u64) -> Progress
        requires { wanted self.old.setting self.old.reads ≢ None }
        ensures reads { self.new ≡ record self.old { reads = read_fed self.old.setting self.old.reads word } }
        ensures answer { result ≡ progress_of self.old.setting self.old.reads word }
        ensures image { result ≡ Accepted → accepted self.new.setting self.new.reads ≢ None }
    {
        self.left -= 1;
        self.words[self.left as usize] = word;
        if self.left > 0 {
            return Progress::More;
        }
        let size = self.cfg.node_size();
        let words = &self.words[..size as usize];
        let progress = judge(&self.cfg, words, &mut self.leaf, &mut self.inner);
        self.left = left(&progress, size);
        progress
    }

    /// The address of the wanted word, where it isn't the last one. None exactly where no more than the last word is
    /// wanted.
    #[inline]
    #[tactic(auto, using(sh_base::proofs::LayoutLemmas::node_word_high))]
    pub fn next_inside(&self) -> Option<u32>
        ensures { HasNext self.now result }
    {
        if self.left <= 1 {
            return None;
        }
        let left = self.left - 1;
        Some(self.first + left)
    }

    /// Takes the wanted word, as `fed` does, whose answer would be `More`. Condition: it isn't the last one.
    #[inline]
    pub fn fed_inside(&mut self, word: u64)
        requires { length self.old.reads.loaded + 1 < node_size self.old.setting }
        ensures { IsInside self.old self.new word }
    {
        let left = self.left - 1;
        self.words[left as usize] = word;
        self.left = left;
    }

    /// The node is one of the setting, and no more words are loaded than it has.
    pub fn within_its_node(&self)
        ensures setting { IsSetting self.now.setting }
        ensures node { IsNode self.now.setting self.now.reads.node }
        ensures words { length self.now.reads.loaded ≤ node_size self.now.setting }
    {
        let _words = &self.words;
    }

    /// The image of the node that was read. Condition: its words were accepted.
    pub fn image(&self) -> &Image
        requires { accepted self.now.setting self.now.reads ≢ None }
        ensures { accepted self.now.setting self.now.reads ≡ Some result.now }
    {
        if self.words[1] == 0 {
            &self.leaf
        } else {
            &self.inner
        }
    }
}

// Room for the words of the largest node.
fn blank() -> [u64; 711]
    ensures { length result ≡ 711 }
{
    [0; 711]
}

// Images that are yet to be read.
fn no_leaf() -> Image {
    Image::Leaf(LeafImage::new(0, 0, 0, 0, 0, Value::of(&[0])))
}

fn no_inner() -> Image {
    Image::Inner(InnerImage::new(0, 0, 0, 0, 0))
}

// Judges a node's words, and keeps the image that they spell. It isn't put into its caller, whose other words would pay
// for the room of what it needs.
#[inline(never)]
#[tactic(auto, using(sh_base::proofs::LayoutLemmas::node_size_is, sh_base::proofs::LayoutLemmas::rear_at_low))]
fn judge(cfg: &Config, words: &[u64], leaf: &mut Image, inner: &mut Image) -> Progress
    requires { length words.now ≡ node_size (parts_of cfg.now) }
    ensures progress { result ≡ answer_to (seen_of (parts_of cfg.now) words.now) }
    ensures image { KeepsImage (image_in (seen_of (parts_of cfg.now) words.now)) (image_at (slice_index words.now 1) leaf.new inner.new) }
{
    if words[1] == 0 {
        judged(cfg, words, leaf)
    } else {
        judged(cfg, words, inner)
    }
}

// Judges a node's words, and keeps the image that they spell in this one.
fn judged(cfg: &Config, words: &[u64], image: &mut Image) -> Progress
    requires { length words.now ≡ node_size (parts_of cfg.now) }
    ensures progress { result ≡ answer_to (seen_of (parts_of cfg.now) words.now) }
    ensures image { KeepsImage (image_in (seen_of (parts_of cfg.now) words.now)) image.new }
{
    let found = read_into(cfg, words, image);
    answer(&found)
}

// The answer to what was found.
fn answer(found: &Found) -> Progress
    ensures { result ≡ kept_answer found.now }
{
    match *found {
        Found::Node => Progress::Accepted,
        Found::Torn { rear, front } => Progress::Again { rear, front },
        Found::TornEntry { rear, front, .. } => Progress::Again { rear, front },
        Found::Odd => Progress::Odd,
    }
}

// How many words are to be loaded behind an answer: of torn words all.
fn left(progress: &Progress, size: u32) -> u32
    ensures { result ≡ left_after progress.now size }
{
    match progress {
        Progress::Again { .. } => size,
        Progress::More => 0,
        Progress::Accepted => 0,
        Progress::Odd => 0,
    }
}
