// Whether finished calls keep their order.
ghost use Rattle.std.specs.Prelude.{IsTrue, ◌↔◌, ◌≡◌, ◌≤◌, ◌+◌, IfOk};
ghost use Rattle.sh_map.specs.{Book.{made}, Judge.{FitsOrder}, Tables.{AreKept}};

use crate::Done;
use crate::entries::made;
use std::alloc::{AllocError, Global};
use std::collections::BTreeMap;

// Whether a call begins no later than its point, and keeps the bounds for its number and for its first.
fn is_within(done: &Done, above: u64, end: u128) -> bool
    ensures { IsTrue result ↔ ((done.now.first ≤ done.now.point) × (above ≤ done.now.n) × (end ≤ done.now.first)) }
{
    done.first <= done.point && above <= done.n as u64 && end <= done.first as u128
}

// The end of a call: its point, or the place behind its entry.
fn end_of(done: &Done) -> u128
    ensures { result ≡ done.now.point + made done.now.call done.now.reply }
{
    done.point as u128 + made(done.call, done.reply) as u128
}

/// For each finished call, whether it begins no later than its point, has a number above those before it, and begins no
/// earlier than the end of each earlier call of its seat.
pub(crate) fn are_in_order(alloc: Global, dones: &[Done]) -> Result<Vec<bool>, AllocError>
    ensures { IfOk result (λ kept. AreKept FitsOrder dones.now kept.items) }
{
    let mut kept = Vec::with_capacity(alloc, dones.len())?;
    let mut above = 0;
    let mut ends = BTreeMap::new(alloc);
    for done in dones {
        let end = ends.get(&done.seat).copied().unwrap_or(0);
        kept.push_reserved(is_within(done, above, end));
        above = above.max(done.n as u64 + 1);
        ends.insert(done.seat, end.max(end_of(done)))?;
    }
    Ok(kept)
}
