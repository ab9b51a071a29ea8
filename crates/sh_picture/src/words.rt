// The words of a picture.
ghost use Rattle.std.specs.Prelude.{◌≡◌, ◌≢◌, ◌+◌, ◌*◌, ◌<◌, ℕ, drop, length, slice_index, IfOk, MatchOption};
ghost use Rattle.sh_base.specs.{Parts.{parts_of}, Setting.{all_locks, pool_words}};
ghost use Rattle.sh_picture.specs.{Picture.{numbers_spelled}, Fault.{IsFree}, Tree.{IsFirstBad}};

use byteorder::{BigEndian, ByteOrder};
use sh_base::Config;
use std::alloc::{AllocError, Global};

// The words behind the first 56 bytes, as many as the setting's pool has.
pub(crate) fn read_words(alloc: Global, cfg: &Config, bytes: &[u8]) -> Result<Vec<u64>, AllocError>
    requires { length bytes.now ≡ 56 + 8 * pool_words (parts_of cfg.now) }
    ensures { IfOk result (λ v. v.items ≡ numbers_spelled 8 (pool_words (parts_of cfg.now)) (drop 56 bytes.now)) }
{
    let mut words = vec![in alloc; 0; cfg.words() as usize]?;
    BigEndian::read_u64_into(&bytes[56..], &mut words);
    Ok(words)
}

// The first lock whose word isn't 0.
#[tactic(auto, using(crate::proofs::PictureLemmas::has_lock))]
pub(crate) fn first_held(cfg: &Config, words: &[u64]) -> Option<u32>
    requires { length words.now ≡ pool_words (parts_of cfg.now) }
    ensures { MatchOption result ((lock : ℕ) → lock < all_locks (parts_of cfg.now) → IsFree (parts_of cfg.now) words.now lock) (λ lock. IsFirstBad (IsFree (parts_of cfg.now) words.now) (all_locks (parts_of cfg.now)) lock) }
{
    for lock in 0..cfg.all_locks() {
        if words[cfg.lock_word(lock) as usize] != 0 {
            return Some(lock);
        }
    }
    None
}
