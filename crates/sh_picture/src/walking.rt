// The walk along the levels of a tree.
ghost use Rattle.std.specs.Prelude.{◌≡◌, ◌≤◌, ◌<◌, length, IfOk};
ghost use Rattle.sh_base.specs.{Parts.{parts_of}, Setting.{pool_words, IsNode}};
ghost use Rattle.sh_picture.specs.{Walk.{root_of, IsSpelled}, Walks.{LevelWalked, Walked}};

use crate::node::{child_of, high_of, is_sound, next_of, word_at};
use crate::walked::{LevelWalk, Walk};
use sh_base::Config;
use std::alloc::{AllocError, Global};

// Walks along a level from a number on.
pub(crate) fn walk_level(
    alloc: Global,
    cfg: &Config,
    words: &[u64],
    level: u64,
    first: u32,
) -> Result<LevelWalk, AllocError>
    requires { length words.now ≡ pool_words (parts_of cfg.now) }
    ensures { IfOk result (λ walk. LevelWalked (parts_of cfg.now) words.now level first walk) }
{
    let mut nodes = Vec::new(alloc);
    let mut node = first;
    let mut low = 0;
    'nodes: while node != 0 {
        if !is_sound(cfg, words, level, low, node) {
            return Ok(LevelWalk::Unsound(node));
        }
        nodes.push(node)?;
        low = high_of(cfg, words, node);
        node = next_of(cfg, words, node);
    }
    Ok(LevelWalk::Whole(nodes))
}

// Walks along all levels from the root down.
pub(crate) fn walk(
    alloc: Global,
    cfg: &Config,
    words: &[u64],
    root: u32,
) -> Result<Walk, AllocError>
    requires pool { length words.now ≡ pool_words (parts_of cfg.now) }
    requires root { root ≡ root_of words.now }
    requires spelled { IsSpelled (parts_of cfg.now) words.now (root_of words.now) }
    ensures { IfOk result (λ walk. Walked (parts_of cfg.now) words.now walk) }
{
    let top = word_at(cfg, words, root, 1);
    let mut levels = Vec::new(alloc);
    let mut first = root;
    for depth in 0..top + 1 {
        let level = top - depth;
        match walk_level(alloc, cfg, words, level, first)? {
            LevelWalk::Whole(nodes) => levels.push(nodes)?,
            LevelWalk::Unsound(node) => return Ok(Walk::Unsound { level, node }),
        }
        first = child_of(cfg, words, first);
    }
    Ok(Walk::Whole(levels))
}
