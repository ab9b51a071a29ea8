// Whose an entry of a log is.
ghost use Rattle.std.specs.Prelude.{IsTrue, ◌↔◌, ◌⊎◌, ◌≡◌, ◌<◌, IfOk, length, Any};
ghost use Rattle.sh_map.specs.{Book.{IsOwn, IsLastOfSeat, made}, Tables.{AreLastPlaces, AreOwned}};

use crate::entries::made;
use crate::{Done, Entry};
use std::alloc::{AllocError, Global};
use std::collections::BTreeMap;

// Whether a call has an entry of its own, below this place.
fn owns_below(len: usize, done: &Done) -> bool
    ensures { IsTrue result ↔ ((made done.now.call done.now.reply ≡ 1) × (done.now.point < len)) }
{
    made(done.call, done.reply) == 1 && done.point < len as u64
}

/// For each place of a log of this length, whether its entry is some finished call's own.
pub(crate) fn owned_places(
    alloc: Global,
    len: usize,
    dones: &[Done],
) -> Result<Vec<bool>, AllocError>
    ensures { IfOk result (λ owned. AreOwned len dones.now owned.items) }
{
    let mut owned = vec![in alloc; false; len]?;
    for done in dones {
        if owns_below(len, done) {
            owned[done.point as usize] = true;
        }
    }
    Ok(owned)
}

/// The last place of each seat in a log.
pub(crate) fn last_places(alloc: Global, log: &[Entry]) -> Result<BTreeMap<u32, usize>, AllocError>
    ensures { IfOk result (λ lasts. AreLastPlaces log.now lasts) }
{
    let mut lasts = BTreeMap::new(alloc);
    for (at, entry) in log.iter().enumerate() {
        lasts.insert(entry.seat, at)?;
    }
    Ok(lasts)
}

/// Whether an entry is a finished call's own or its seat's last.
pub(crate) fn has_owner(
    log: &[Entry],
    dones: &[Done],
    owned: &[bool],
    lasts: &BTreeMap<u32, usize>,
    at: usize,
) -> bool
    requires within { at < length log.now }
    requires owned { AreOwned (length log.now) dones.now owned.now }
    requires lasts { AreLastPlaces log.now lasts.now }
    ensures { IsTrue result ↔ (Any (IsOwn at) dones.now ⊎ IsLastOfSeat log.now at) }
{
    owned[at] || lasts.get(&log[at].seat).copied() == Some(at)
}
