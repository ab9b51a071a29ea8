// How a sheet's items are shared out among the seats.
ghost use Rattle.std.specs.Prelude.{◌≡◌, ◌<◌, ◌≤◌, All, IfOk, OnOk, [], length, map, vec_capacity, vec_len};
ghost use Rattle.std.specs.List.{sum_by, AllByRecursion};
ghost use Rattle.sh_base.specs.{Parts.{parts_of}, Setting.{all_seats}};
ghost use Rattle.sh_sheet.specs.Sheet.{item_calls, item_seat, rows_of, AreFew, IsLawfulItem};
ghost use Rattle.sh_pool.specs.Pools.{AreLaidFor, AreReady};
ghost use Rattle.sh_fleet.specs.Sharing.{AreShares, AreWorks, IsBegun, IsGiven, IsNoShare};

use crate::answers::Answers;
use crate::work::{Place, Work};
use sh_base::Config;
use sh_map::Call;
use sh_pool::{Pass, Pool};
use sh_sheet::Item;
use std::alloc::{AllocError, Global};
use std::mem;

/// A seat's part of the sheet: the places of its items, how many of them are calls, and how many rows these may have.
#[derive(Drop)]
pub struct Share {
    pub(crate) places: Vec<Place>,
    pub(crate) calls: usize,
    pub(crate) rows: usize,
}

// An item's seat.
pub(crate) fn item_seat(item: &Item) -> u32
    ensures { result ≡ item_seat item.now }
{
    match item {
        Item::Ask { seat, .. }
        | Item::Mark { seat, .. }
        | Item::After { seat, .. }
        | Item::Turn { seat, .. } => *seat,
    }
}

// Whether an item is a call, as a number.
fn item_calls(item: &Item) -> usize
    ensures { result ≡ item_calls item.now }
{
    match item {
        Item::Ask { .. } => 1,
        _ => 0,
    }
}

// The most rows that an item's answer may have.
fn rows_of(cfg: &Config, item: &Item) -> usize
    ensures value { result ≡ rows_of (parts_of cfg.now) item.now }
    ensures small { result ≤ 4096 }
{
    match item {
        Item::Ask {
            call: Call::Range { low, high },
            ..
        } => u64::from(cfg.parts().rows).min(high.saturating_sub(*low)) as usize,
        _ => 0,
    }
}

// A share of no items. It takes no memory.
fn no_share(alloc: Global) -> Share
    ensures { IsNoShare result }
{
    Share {
        places: Vec::new(alloc),
        calls: 0,
        rows: 0,
    }
}

// Shares of no items yet.
fn no_shares(alloc: Global, count: usize) -> Result<Vec<Share>, AllocError>
    ensures long { IfOk result (λ v. vec_len v ≡ count) }
    ensures none { IfOk result (λ v. AllByRecursion IsNoShare v.items) }
{
    let mut shares = Vec::with_capacity(alloc, count)?;
    for _ in 0..count {
        shares.push_reserved(no_share(alloc));
    }
    Ok(shares)
}

impl Share {
    // Adds the item at a place. Condition: there aren't too many calls or rows.
    fn give(&mut self, cfg: &Config, place: Place, item: &Item) -> Result<(), AllocError>
        requires calls { self.old.calls ≤ 1000000 }
        requires rows { self.old.rows ≤ 4194304 }
        ensures { IfOk result (λ _. IsGiven (parts_of cfg.now) place.at place.n item.now self.old self.new) }
    {
        self.places.push(place)?;
        self.calls += item_calls(item);
        self.rows += rows_of(cfg, item);
        Ok(())
    }
}

// Shares the items out.
fn divide(alloc: Global, cfg: &Config, items: &[Item]) -> Result<Vec<Share>, AllocError>
    requires lawful { All (IsLawfulItem (parts_of cfg.now)) items.now }
    requires few { AreFew (parts_of cfg.now) items.now }
    ensures shares { IfOk result (λ v. AreShares (parts_of cfg.now) items.now items.now 0 v.items) }
    ensures long { IfOk result (λ v. vec_len v ≡ all_seats (parts_of cfg.now)) }
{
    let mut shares = no_shares(alloc, cfg.all_seats() as usize)?;
    let mut n = 1;
    for at in 0..items.len() {
        let item = &items[at];
        shares[item_seat(item) as usize].give(cfg, Place { at, n }, item)?;
        n += item_calls(item) as u32;
    }
    Ok(shares)
}

// The work of a pass, with room for the answers of all its calls.
fn work_of(alloc: Global, pass: Pass, share: Share) -> Result<Work, AllocError>
    ensures { IfOk result (λ w. IsBegun pass share w) }
{
    let answers = Answers {
        replies: Vec::with_capacity(alloc, share.calls)?,
        rows: Vec::with_capacity(alloc, share.rows)?,
    };
    Ok(Work {
        pass,
        places: share.places,
        next: 0,
        answers,
    })
}

/// The works of all passes of a pool that was just laid: each has the items of its seat, and room for the answers of their
/// calls.
pub(crate) fn share_out(
    alloc: Global,
    cfg: &Config,
    items: &[Item],
    pool: &Pool,
    passes: Vec<Pass>,
) -> Result<Vec<Work>, AllocError>
    requires lawful { All (IsLawfulItem (parts_of cfg.now)) items.now }
    requires few { AreFew (parts_of cfg.now) items.now }
    requires laid { AreLaidFor (parts_of cfg.now) pool.now.laid passes.items }
    requires ready { AreReady (parts_of cfg.now) pool.now.laid passes.items }
    ensures works { IfOk result (λ v. AreWorks (parts_of cfg.now) pool.now.laid items.now 0 v.items) }
    ensures long { IfOk result (λ v. vec_len v ≡ all_seats (parts_of cfg.now)) }
{
    let mut shares = divide(alloc, cfg, items)?;
    let mut works = Vec::with_capacity(alloc, passes.len())?;
    for pass in passes {
        let seat = works.len();
        let share = mem::replace(&mut shares[seat], no_share(alloc));
        works.push_reserved(work_of(alloc, pass, share)?);
    }
    Ok(works)
}

// The passes of works, and their answers. Condition: there is room for them.
pub(crate) fn split(
    works: Vec<Work>,
    passes: Vec<Pass>,
    answers: Vec<Answers>,
) -> (Vec<Pass>, Vec<Answers>)
    requires passes { (passes.items ≡ []) × (vec_len works ≤ vec_capacity passes) }
    requires answers { (answers.items ≡ []) × (vec_len works ≤ vec_capacity answers) }
    ensures passes { result.0.items ≡ map (λ w. w.pass) works.items }
    ensures answers { result.1.items ≡ map (λ w. w.answers) works.items }
{
    let mut passes = passes;
    let mut answers = answers;
    for work in works {
        let Work {
            pass,
            places: _,
            next: _,
            answers: told,
        } = work;
        passes.push_reserved(pass);
        answers.push_reserved(told);
    }
    (passes, answers)
}
