// The tree in memory while no WRITE is under way.
ghost use Rattle.std.specs.Prelude.{◌≡◌, ◌≢◌, ◌<◌, ◌↔◌, ℕ, List, length, true, slice_index};
ghost use Rattle.sh_base.specs.{Parts.{parts_of}, Setting.{all_locks}, Layout.{lock_word}};
ghost use Rattle.sh_tree.specs.{Lists.{is_in, AreDifferent}, Tree.{IsTree, unposted_in}};
ghost use Rattle.sh_state.specs.{TreeState.{TreeState, Linked, Nobody, Posted}, Ground.{Ground}};
ghost use Rattle.sh_core_says.specs.Quiescent.{IsAtRest, HoldsTree};

use sh_base::Config;

/// While no WRITE of a linked node is under way, and so where nobody holds a lock, the words hold a tree whose nodes are
/// the linked ones; its map is the log's, and its unposted nodes are those that the scene counts so. A list of all nodes
/// that aren't posted, each once, is as long as the tree has unposted nodes. A posted node of the top level is the root.
/// Where nobody holds a lock, all lock words are 0.
pub fn trees_at_rest(cfg: &Config)
    ensures tree { (words : List ℕ) (s : TreeState) → Ground (parts_of cfg.now) words s → IsAtRest (parts_of cfg.now) s → HoldsTree (parts_of cfg.now) words s }
    ensures unposted { (words : List ℕ) (s : TreeState) (skipped : List ℕ) (levels : List (List ℕ)) → Ground (parts_of cfg.now) words s → IsAtRest (parts_of cfg.now) s → AreDifferent skipped → ((n : ℕ) → (is_in skipped n ≡ true) ↔ (s.post n ≢ Posted)) → IsTree (parts_of cfg.now) words levels → unposted_in (parts_of cfg.now) words levels ≡ length skipped }
    ensures top { (words : List ℕ) (s : TreeState) (n low : ℕ) → Ground (parts_of cfg.now) words s → s.class n ≡ Linked s.height low → s.post n ≡ Posted → n ≡ s.root }
    ensures rest { (words : List ℕ) (s : TreeState) → Ground (parts_of cfg.now) words s → ((lock : ℕ) → s.hold lock ≡ Nobody) → IsAtRest (parts_of cfg.now) s }
    ensures locks { (words : List ℕ) (s : TreeState) (lock : ℕ) → Ground (parts_of cfg.now) words s → ((lock : ℕ) → s.hold lock ≡ Nobody) → lock < all_locks (parts_of cfg.now) → slice_index words (lock_word (parts_of cfg.now) lock) ≡ 0 }
{}
