// What is wrong with a book.
ghost use Rattle.std.specs.Prelude.{IsTrue, ◌↔◌, ◌≡◌, IfOk, MatchOption, min};
ghost use Rattle.sh_map.specs.{Book.{IsLawful}, Judge.{AllFit, FitsRule, IsFirstMisfit, IsLeastUnfit}, Tables.{AreKept}};

use crate::entries::first_unfit_entry;
use crate::order::are_in_order;
use crate::sweep::{Part, are_right};
use crate::{Done, Entry};
use std::alloc::{AllocError, Global};

/// A rule that a book breaks. `at` counts the log's entries from 0; `n` is a finished call's number.
#[derive(Clone, Copy, Debug, PartialEq, Eq)]
pub enum Misfit {
    /// This entry's old value isn't what the entries before it left, or it is a delete that found nothing, or it is no
    /// finished call's own and a later entry has its seat.
    Entry { at: u64 },
    /// This call isn't answered at its point, the rows of a range aside.
    Reply { n: u32 },
    /// This range's rows don't answer it.
    Row { n: u32 },
    /// This call's number isn't above those before it, or it begins behind its point, or before an earlier call of its
    /// seat was answered.
    Order { n: u32 },
}

// What a finished call is to keep.
#[derive(Clone, Copy, Debug)]
enum Rule {
    Reply,
    Rows,
    Order,
}

// For each finished call, whether it keeps a rule.
fn are_kept(
    alloc: Global,
    rule: Rule,
    log: &[Entry],
    dones: &[Done],
) -> Result<Vec<bool>, AllocError>
    ensures { IfOk result (λ kept. AreKept (FitsRule rule log.now) dones.now kept.items) }
{
    match rule {
        Rule::Reply => are_right(alloc, Part::Reply, log, dones),
        Rule::Rows => are_right(alloc, Part::Rows, log, dones),
        Rule::Order => are_in_order(alloc, dones),
    }
}

// The least of these numbers.
fn least_with(least: Option<u32>, n: u32) -> u32
    ensures { MatchOption least (result ≡ n) (λ m. result ≡ min m n) }
{
    match least {
        Some(m) => m.min(n),
        None => n,
    }
}

// The least number of a call that breaks a rule.
fn least_unfit(
    alloc: Global,
    rule: Rule,
    log: &[Entry],
    dones: &[Done],
) -> Result<Option<u32>, AllocError>
    ensures { IfOk result (λ least. MatchOption least
        (AllFit (FitsRule rule log.now) dones.now)
        (λ n. IsLeastUnfit (FitsRule rule log.now) dones.now n)) }
{
    let kept = are_kept(alloc, rule, log, dones)?;
    let mut least = None;
    for (at, done) in dones.iter().enumerate() {
        if !kept[at] {
            least = Some(least_with(least, done.n));
        }
    }
    Ok(least)
}

/// Whether the book of this log and these finished calls is lawful, or else its first misfit: of the kinds `Entry`,
/// `Reply`, `Row` and `Order` the first that there is, and of its kind the one with the least place or number. The time
/// grows with the number of entries and calls, times its logarithm, and for each range with its rows, the keys of its
/// bounds that stood at its `first`, and the entries from there to its point.
pub fn judge(alloc: Global, log: &[Entry], dones: &[Done]) -> Result<Option<Misfit>, AllocError>
    ensures { IfOk result (λ found. MatchOption found
        (IsLawful log.now dones.now)
        (λ misfit. IsFirstMisfit log.now dones.now misfit)) }
{
    if let Some(at) = first_unfit_entry(alloc, log, dones)? {
        return Ok(Some(Misfit::Entry { at }));
    }
    if let Some(n) = least_unfit(alloc, Rule::Reply, log, dones)? {
        return Ok(Some(Misfit::Reply { n }));
    }
    if let Some(n) = least_unfit(alloc, Rule::Rows, log, dones)? {
        return Ok(Some(Misfit::Row { n }));
    }
    match least_unfit(alloc, Rule::Order, log, dones)? {
        Some(n) => Ok(Some(Misfit::Order { n })),
        None => Ok(None),
    }
}
