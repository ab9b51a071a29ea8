// What the bytes of a picture are.
ghost use Rattle.std.specs.Prelude.{◌≡◌, length, map, IfOk, MatchOption};
ghost use Rattle.sh_base.specs.{Parts.{parts_of}, Setting.{pool_words}};
ghost use Rattle.sh_picture.specs.{Fault.{IsNoTree, IsPoolFault}, Walk.{root_of, IsSpelled, IsWalked}, Verdict.{HoldTree, IsGoodPool, VerdictOf}};

use crate::header::setting_of;
use crate::keys::first_twice;
use crate::node::is_spelled;
use crate::pairs::first_astray;
use crate::walked::Walk;
use crate::walking::walk;
use crate::words::{first_held, read_words};
use crate::{FirstPlace, Verdict};
use sh_base::Config;
use sh_tree::pairs_in;
use std::alloc::{AllocError, Global};

// The first pair or key of the walked levels that says that they are no tree's.
fn first_in_levels(
    alloc: Global,
    cfg: &Config,
    words: &[u64],
    levels: &[Vec<u32>],
) -> Result<Option<FirstPlace>, AllocError>
    requires pool { length words.now ≡ pool_words (parts_of cfg.now) }
    requires root { IsSpelled (parts_of cfg.now) words.now (root_of words.now) }
    requires walked { IsWalked (parts_of cfg.now) words.now (map (λ nodes. nodes.items) levels.now) }
    ensures { IfOk result (λ r. MatchOption r (HoldTree (parts_of cfg.now) words.now) (λ place. IsNoTree (parts_of cfg.now) words.now place)) }
{
    let mut marks = vec![in alloc; 0; cfg.nodes() as usize + 1]?;
    if let Some(found) = first_astray(cfg, words, levels, &mut marks) {
        return Ok(Some(FirstPlace::Pair {
            node: found.0,
            index: found.1,
        }));
    }
    let count = levels.len();
    if let Some(found) = first_twice(cfg, words, &levels[count - 1]) {
        return Ok(Some(FirstPlace::Twice {
            node: found.0,
            key: found.1,
        }));
    }
    Ok(None)
}

// The first place that says that the words hold no tree.
fn first_in_tree(
    alloc: Global,
    cfg: &Config,
    words: &[u64],
) -> Result<Option<FirstPlace>, AllocError>
    requires { length words.now ≡ pool_words (parts_of cfg.now) }
    ensures { IfOk result (λ r. MatchOption r (HoldTree (parts_of cfg.now) words.now) (λ place. IsNoTree (parts_of cfg.now) words.now place)) }
{
    let root = words[1];
    if !is_spelled(cfg, words, root) {
        return Ok(Some(FirstPlace::Root));
    }
    match walk(alloc, cfg, words, root as u32)? {
        Walk::Whole(levels) => first_in_levels(alloc, cfg, words, &levels),
        Walk::Unsound { level, node } => Ok(Some(FirstPlace::Chain { level, node })),
    }
}

// The first place in the words of a pool.
fn first_in_pool(
    alloc: Global,
    cfg: &Config,
    words: &[u64],
) -> Result<Option<FirstPlace>, AllocError>
    requires { length words.now ≡ pool_words (parts_of cfg.now) }
    ensures { IfOk result (λ r. MatchOption r (IsGoodPool (parts_of cfg.now) words.now) (λ place. IsPoolFault (parts_of cfg.now) words.now place)) }
{
    if words[0] != 0 {
        return Ok(Some(FirstPlace::Zero));
    }
    if let Some(lock) = first_held(cfg, words) {
        return Ok(Some(FirstPlace::Lock { lock }));
    }
    first_in_tree(alloc, cfg, words)
}

/// What these bytes are: the picture of a lawful tree, with its setting and its keys and values, or not, by the first
/// place that says so. It takes time in proportion to the bytes, and to the keys times the logarithm of their number.
pub fn check(alloc: Global, bytes: &[u8]) -> Result<Verdict, AllocError>
    ensures { IfOk result (λ verdict. VerdictOf bytes.now verdict) }
{
    let cfg = match setting_of(bytes) {
        Ok(cfg) => cfg,
        Err(place) => return Ok(Verdict::Refused(place)),
    };
    let words = read_words(alloc, &cfg, bytes)?;
    if let Some(place) = first_in_pool(alloc, &cfg, &words)? {
        return Ok(Verdict::Refused(place));
    }
    let pairs = pairs_in(alloc, &cfg, &words)?;
    Ok(Verdict::Lawful { cfg, pairs })
}
