// Whether an entry of a log fits what stands before it, and whose it is.
ghost use Rattle.std.specs.Prelude.{IsTrue, ◌↔◌, ◌≡◌, ◌<◌, ◌⊎◌, IfOk, MatchOption, ◌≢◌, length, All, Any, ℕ};
ghost use Rattle.sh_map.specs.{Log.{HasOld}, Judge.{AllEntriesFit, FitsEntry}, Book.{made}};

use crate::owners::{has_owner, last_places, owned_places};
use crate::tree_map::TreeMap;
use crate::{Call, Change, Done, Entry, Reply};
use sh_base::Value;
use std::alloc::{AllocError, Global};

/// Whether two values are the same, or both are none.
pub(crate) fn same(a: &Option<Value>, b: &Option<Value>) -> bool
    ensures { IsTrue result ↔ (a.now ≡ b.now) }
{
    match (a, b) {
        (Some(a), Some(b)) => a.words() == b.words(),
        (None, None) => true,
        _ => false,
    }
}

// Whether an entry may come next: its old value is what its key had before, and a delete has one.
fn is_next(before: &Option<Value>, entry: &Entry) -> bool
    ensures { IsTrue result ↔ ((entry.now.old ≡ before.now) × HasOld entry.now.change entry.now.old) }
{
    let removes = match entry.change {
        Change::Put { .. } => true,
        Change::Del { .. } => entry.old.is_some(),
    };
    removes && same(&entry.old, before)
}

/// How many entries a call with this reply has made.
pub(crate) fn made(call: Call, reply: Reply) -> u64
    ensures { result ≡ made call reply }
{
    match (call, reply) {
        (Call::Put { .. }, Reply::Some(_) | Reply::None) => 1,
        (Call::Del { .. }, Reply::Some(_)) => 1,
        _ => 0,
    }
}

/// The first entry that doesn't fit the map of the entries before it, or is nobody's own and not its seat's last.
pub(crate) fn first_unfit_entry(
    alloc: Global,
    log: &[Entry],
    dones: &[Done],
) -> Result<Option<u64>, AllocError>
    ensures { IfOk result (λ found. MatchOption found
        (AllEntriesFit log.now dones.now)
        (λ at. (at < length log.now) × (FitsEntry log.now dones.now at → ⊥)
        × ((i : ℕ) → i < at → FitsEntry log.now dones.now i))) }
{
    let owned = owned_places(alloc, log.len(), dones)?;
    let lasts = last_places(alloc, log)?;
    let mut map = TreeMap::new(alloc);
    for (at, entry) in log.iter().enumerate() {
        let before = map.apply(entry.change)?;
        if !is_next(&before, entry) || !has_owner(log, dones, &owned, &lasts, at) {
            return Ok(Some(at as u64));
        }
    }
    Ok(None)
}
