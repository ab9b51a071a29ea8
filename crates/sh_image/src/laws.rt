// The laws of the codec: its round trips, how long a node's words are, and that no words have two answers.
ghost use Rattle.std.specs.Prelude.{◌≡◌, List, ℕ, length};
ghost use Rattle.sh_base.specs.{Parts.{parts_of}, Setting.{node_size}};
ghost use Rattle.sh_image.specs.{Inner.{inner_in, inner_words, Inner, IsInner, SpellsInner}, Leaf.{Leaf, leaf_in, leaf_words, HaveWords, IsLeaf, Spells}};
ghost use Rattle.sh_image.specs.{Node.{seen_as, words_of, IsImage, SpellsImage}, Seen.{IsUntorn, SeenBy}, declared.{inner.Image.{Image}, read.Seen.{Seen}}};
ghost use Rattle.sh_image.specs.declared.read.Seen.TheVariants.{Inner as InnerSeen, Leaf as LeafSeen, Odd};

use sh_base::Config;

/// The codec is exact: a leaf that meets the rules is read back from its words, words spell one leaf at most and that
/// is the one that is read, and a leaf has as many words as a node.
pub fn leaves_spelled_once(cfg: &Config)
    ensures read_back { (a : Leaf) → IsLeaf (parts_of cfg.now) a → leaf_in (parts_of cfg.now) (leaf_words a) ≡ a }
    ensures spelled_once { (words : List ℕ) (a : Leaf) → Spells (parts_of cfg.now) words a → leaf_in (parts_of cfg.now) words ≡ a }
    ensures written_back { (words : List ℕ) (a : Leaf) → Spells (parts_of cfg.now) words a → leaf_words (leaf_in (parts_of cfg.now) words) ≡ words }
    ensures as_long { (a : Leaf) → IsLeaf (parts_of cfg.now) a → length (leaf_words a) ≡ node_size (parts_of cfg.now) }
{}

/// The causes of a reader's answers shut each other out: words that spell a leaf or an inner node are untorn, and
/// that node is the only answer of theirs.
pub fn causes_shut_each_other_out(cfg: &Config)
    ensures untorn { (words : List ℕ) (a : Leaf) → Spells (parts_of cfg.now) words a → IsUntorn (parts_of cfg.now) words }
    ensures leaf { (words : List ℕ) (a : Leaf) (seen : Seen) → Spells (parts_of cfg.now) words a → SeenBy (parts_of cfg.now) words seen → seen ≡ LeafSeen a }
    ensures untorn_inner { (words : List ℕ) (a : Inner) → SpellsInner (parts_of cfg.now) words a → IsUntorn (parts_of cfg.now) words }
    ensures inner { (words : List ℕ) (a : Inner) (seen : Seen) → SpellsInner (parts_of cfg.now) words a → SeenBy (parts_of cfg.now) words seen → seen ≡ InnerSeen a }
{}

/// The codec of inner nodes is exact: one that meets the rules is read back from its words, words spell one at most and
/// that is the one that is read, and it has as many words as a node.
pub fn inner_nodes_spelled_once(cfg: &Config)
    ensures read_back { (a : Inner) → inner_in (inner_words (parts_of cfg.now) a) ≡ a }
    ensures spelled_once { (words : List ℕ) (a : Inner) → SpellsInner (parts_of cfg.now) words a → inner_in words ≡ a }
    ensures as_long { (a : Inner) → IsInner (parts_of cfg.now) a → length (inner_words (parts_of cfg.now) a) ≡ node_size (parts_of cfg.now) }
{}

/// The words of a node have one answer of a reader at most. Where they spell a node, that node is the one that they
/// spell and the one that a reader sees; where a reader answers that they are odd they spell none. So a node that meets
/// the rules is read again from its words, of which there are as many as in every node; and it can be written: a leaf
/// has the setting's number of entries, each with a value of the setting's words.
pub fn nodes_have_one_answer(cfg: &Config)
    ensures one { (words : List ℕ) (a b : Seen) → SeenBy (parts_of cfg.now) words a → SeenBy (parts_of cfg.now) words b → a ≡ b }
    ensures seen { (words : List ℕ) (a : Image) (seen : Seen) → SpellsImage (parts_of cfg.now) words a → SeenBy (parts_of cfg.now) words seen → seen ≡ seen_as a }
    ensures odd { (words : List ℕ) (a : Image) → SeenBy (parts_of cfg.now) words Odd → SpellsImage (parts_of cfg.now) words a → ⊥ }
    ensures spelled_once { (words : List ℕ) (a b : Image) → SpellsImage (parts_of cfg.now) words a → SpellsImage (parts_of cfg.now) words b → a ≡ b }
    ensures read_again { (a : Image) (seen : Seen) → IsImage (parts_of cfg.now) a → SeenBy (parts_of cfg.now) (words_of (parts_of cfg.now) a) seen → seen ≡ seen_as a }
    ensures as_long { (a : Image) → IsImage (parts_of cfg.now) a → length (words_of (parts_of cfg.now) a) ≡ node_size (parts_of cfg.now) }
    ensures writable { (a : Leaf) → IsLeaf (parts_of cfg.now) a → (length a.entries ≡ cfg.now.parts.leaf) × HaveWords (parts_of cfg.now) a.entries }
{}
