// How much a sheet asks for.
ghost use Rattle.std.specs.Prelude.{◌≡◌, ◌↔◌, IsTrue};
ghost use Rattle.sh_base.specs.Parts.{parts_of};
ghost use Rattle.sh_sheet.specs.Sheet.{item_calls, rows_of, item_turns, AreFew};

use crate::Item;
use sh_base::Config;
use sh_map::Call;

/// The most calls that a sheet may ask for.
pub const MOST_CALLS: u64 = 1_000_000;

/// The most turns that a sheet may ask for.
pub const MOST_TURNS: u64 = 50_000_000;

/// The most rows that a sheet's ranges may be answered with.
pub const MOST_ROWS: u64 = 4_194_304;

// Whether an item is a call, as a number.
fn item_calls(item: &Item) -> u64
    ensures { result ≡ item_calls item.now }
{
    match item {
        Item::Ask { .. } => 1,
        _ => 0,
    }
}

// The turns that an item asks for.
fn item_turns(item: &Item) -> u64
    ensures { result ≡ item_turns item.now }
{
    match *item {
        Item::Turn { count, .. } => count,
        _ => 0,
    }
}

// The most rows that an item's answer may have.
fn rows_of(cfg: &Config, item: &Item) -> u64
    ensures { result ≡ rows_of (parts_of cfg.now) item.now }
{
    match *item {
        Item::Ask {
            call: Call::Range { low, high },
            ..
        } if low <= high => { (high - low).min(u64::from(cfg.parts().rows)) }
        _ => 0,
    }
}

/// Whether there aren't too many calls, turns and rows of ranges. Sums past 2^64 - 1 stay there, far above the limits.
pub(crate) fn are_few(cfg: &Config, items: &[Item]) -> bool
    ensures { IsTrue result ↔ AreFew (parts_of cfg.now) items.now }
{
    let mut calls = 0u64;
    let mut turns = 0u64;
    let mut rows = 0u64;
    for item in items {
        calls = calls.saturating_add(item_calls(item));
        turns = turns.saturating_add(item_turns(item));
        rows = rows.saturating_add(rows_of(cfg, item));
    }
    calls <= MOST_CALLS && turns <= MOST_TURNS && rows <= MOST_ROWS
}
