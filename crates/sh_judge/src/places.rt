// The places of calls in a log.
ghost use Rattle.std.specs.{Prelude.{◌≡◌, ◌≢◌, ◌≤◌, ◌<◌, ◌+◌, ◌++◌, ℕ, IfOk, MatchOption, get_or, length, slice_get, vec_len}, Vec.{vec_capacity}};
ghost use Rattle.sh_judge.specs.{Places.{ArePlaced, IsLeastUnplaced, entry_of, log_of, log_to, entry_count, update_count}, Tables.{AreCounted, AreOwners, is_placed_below}};

use crate::found::made;
use sh_map::{Done, Log, log_call};
use std::alloc::{AllocError, Global};

// How many entries a call has made.
fn made_by(done: &Done) -> usize
    ensures made { result ≡ entry_count done.now }
    ensures small { result ≤ 1 }
{
    made(&done.call, &done.reply) as usize
}

/// How many updating calls there are.
pub(crate) fn updates(dones: &[Done]) -> usize
    ensures { result ≡ update_count dones.now }
{
    let mut count = 0;
    for done in dones {
        count += made_by(done);
    }
    count
}

// Whether a call has made an entry, and its point is below `len`.
fn is_below(len: usize, done: &Done) -> bool
    ensures { result ≡ is_placed_below len done.now }
{
    made_by(done) == 1 && done.point < len as u64
}

// For each place below `len` how many updating calls have it as their point, where 2 stands for several.
fn counts(alloc: Global, len: usize, dones: &[Done]) -> Result<Vec<u8>, AllocError>
    ensures { IfOk result (λ counts. AreCounted len dones.now counts.items) }
{
    let mut counts = vec![in alloc; 0u8; len]?;
    for done in dones {
        if is_below(len, done) {
            let place = done.point as usize;
            counts[place] = if counts[place] < 2 {
                counts[place] + 1
            } else {
                2
            };
        }
    }
    Ok(counts)
}

// The least place whose count isn't 1.
fn first_other(counts: &[u8]) -> Option<usize>
    ensures { MatchOption result
        ((p : ℕ) → p < length counts.now → get_or counts.now p 0 ≡ 1)
        (λ at. (at < length counts.now) × (get_or counts.now at 0 ≢ 1) × ((p : ℕ) → p < at → get_or counts.now p 0 ≡ 1)) }
{
    for (at, count) in counts.iter().enumerate() {
        if *count != 1 {
            return Some(at);
        }
    }
    None
}

/// The least place that isn't the point of just one updating call. Condition: there are `len` updating calls.
pub(crate) fn first_unplaced(
    alloc: Global,
    len: usize,
    dones: &[Done],
) -> Result<Option<usize>, AllocError>
    requires { len ≡ update_count dones.now }
    ensures { IfOk result (λ found. MatchOption found (ArePlaced dones.now) (λ at. IsLeastUnplaced dones.now at)) }
{
    let counts = counts(alloc, len, dones)?;
    Ok(first_other(&counts))
}

// The owner of a place, with a call at the place `at`; `none` stands for no owner.
fn first_owner(owner: usize, none: usize, at: usize) -> usize
    ensures owned { owner < none → result ≡ owner }
    ensures free { none ≤ owner → result ≡ at }
{
    if owner < none { owner } else { at }
}

// For each place below `len` the first updating call whose point it is, as its place among the calls.
fn owners(alloc: Global, len: usize, dones: &[Done]) -> Result<Vec<usize>, AllocError>
    ensures { IfOk result (λ owners. AreOwners len dones.now dones.now owners.items) }
{
    let none = dones.len();
    let mut owners = vec![in alloc; none; len]?;
    for (at, done) in dones.iter().enumerate() {
        if is_below(len, done) {
            let place = done.point as usize;
            owners[place] = first_owner(owners[place], none, at);
        }
    }
    Ok(owners)
}

// Adds the entry of the call at a place, if there is one.
fn push_entry(log: &mut Log, dones: &[Done], at: usize)
    requires { vec_len log.old < vec_capacity log.old }
    ensures items { log.new.items ≡ log.old.items ++ entry_of (slice_get dones.now at) }
    ensures len { vec_len log.new ≤ vec_len log.old + 1 }
    ensures room { vec_capacity log.new ≡ vec_capacity log.old }
{
    if at < dones.len() {
        let done = &dones[at];
        log_call(log, done.seat, &done.call, &done.reply);
    }
}

/// The log of these calls. Condition: there are `len` updating calls.
pub(crate) fn log_of(alloc: Global, len: usize, dones: &[Done]) -> Result<Log, AllocError>
    requires { len ≡ update_count dones.now }
    ensures { IfOk result (λ log. log.items ≡ log_of dones.now) }
{
    let owners = owners(alloc, len, dones)?;
    let mut log = Vec::with_capacity(alloc, len)?;
    for owner in &owners {
        push_entry(&mut log, dones, *owner);
    }
    Ok(log)
}
