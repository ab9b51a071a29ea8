// The nodes of a tree that no node above names.
ghost use Rattle.std.specs.{Prelude.{◌≡◌, ◌≤◌, ℕ, List, length, IfOk}, List.{AllByRecursion}};
ghost use Rattle.sh_base.specs.{Parts.{parts_of}, Setting.{nodes, pool_words}};
ghost use Rattle.sh_tree.specs.{Lists.{AreNodes}, Tree.{children_of, unposted_in, IsInnerOf, IsTree}};

use crate::levels::{firsts, level_from, word_at};
use sh_base::Config;
use std::alloc::{AllocError, Global};

// How many pairs the nodes of a level have: none where they are leaves.
#[tactic(auto, using(sh_base::proofs::LayoutLemmas::node_size_is, sh_base::proofs::LayoutLemmas::rear_at_low))]
fn pairs_of_level(cfg: &Config, words: &[u64], level: &[u32]) -> u32
    requires pool { length words.now ≡ pool_words (parts_of cfg.now) }
    requires nodes { AreNodes (parts_of cfg.now) level.now }
    requires most { length level.now ≤ nodes (parts_of cfg.now) }
    ensures { (above : ℕ) (below : List ℕ) → AllByRecursion (IsInnerOf (parts_of cfg.now) words.now above below) level.now → result ≡ length (children_of (parts_of cfg.now) words.now level.now) }
{
    let most = 2 * u64::from(cfg.leaf());
    let mut pairs = 0;
    for node in level {
        pairs += word_at(cfg, words, *node, 5).min(most) as u32;
    }
    pairs
}

/// How many nodes of a tree aren't the first of their level and aren't named by a node of the level above. The pairs of
/// a level name as many nodes of the one below, its first among them; the root word names one. Conditions: the words
/// are as many as the pool's, and hold a tree; of words that hold none the number says nothing.
pub fn unposted(alloc: Global, cfg: &Config, words: &[u64]) -> Result<u32, AllocError>
    requires { length words.now ≡ pool_words (parts_of cfg.now) }
    ensures { (levels : List (List ℕ)) → IsTree (parts_of cfg.now) words.now levels → IfOk result (λ n. n ≡ unposted_in (parts_of cfg.now) words.now levels) }
{
    let firsts = firsts(alloc, cfg, words)?;
    let mut named = 1;
    let mut count: u32 = 0;
    for first in &firsts {
        let level = level_from(alloc, cfg, words, *first)?;
        count = count.saturating_add((level.len() as u32).saturating_sub(named));
        named = pairs_of_level(cfg, words, &level);
    }
    Ok(count)
}
