// What the words of a pool hold, they hold once.
ghost use Rattle.std.specs.Prelude.{◌≡◌, List, ℕ};
ghost use Rattle.sh_base.specs.Parts.{parts_of};
ghost use Rattle.sh_image.specs.declared.inner.Image.{Image};
ghost use Rattle.sh_tree.specs.{Nodes.{NodeIn}, Tree.{IsTree}};

use sh_base::Config;

/// Words hold one tree at most, and a node's words spell one image at most. So the map of a tree and the number of its
/// unposted nodes are those of the words.
pub fn trees_are_one(cfg: &Config)
    ensures node { (words : List ℕ) (n : ℕ) (a b : Image) → NodeIn (parts_of cfg.now) words n a → NodeIn (parts_of cfg.now) words n b → a ≡ b }
    ensures tree { (words : List ℕ) (a b : List (List ℕ)) → IsTree (parts_of cfg.now) words a → IsTree (parts_of cfg.now) words b → a ≡ b }
{}
