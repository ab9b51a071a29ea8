// A sheet of calls that are made from a seed.
ghost use Rattle.std.specs.{Prelude.{◌≡◌, ◌≤◌, ◌%◌, All, IfOk, MatchResult}, List.{range_with_len}};
ghost use Rattle.sh_base.specs.{Parts.{parts_of}, Setting.{all_seats}};
ghost use Rattle.sh_sheet.specs.{Generate.{call_from, key_from, made_call, made_items, made_sheet, next_number, IsNotMade}, Sheet.{AreFew, AreMarksLawful, IsLawfulItem}};

use crate::totals::are_few;
use crate::{Item, Sheet, SheetFault};
use sh_base::{Config, Value};
use sh_map::Call;
use std::alloc::{AllocError, Global};

// The number that follows another.
fn next_number(x: u64) -> u64
    ensures { result ≡ next_number x }
{
    x.wrapping_mul(6_364_136_223_846_793_005)
        .wrapping_add(1_442_695_040_888_963_407)
}

// The value of so many words that count on from the first.
fn value_from(first: u64, count: usize) -> Value
    requires low { 1 ≤ count }
    requires high { count ≤ 8 }
    requires first { first ≤ 1000000 }
    ensures { result ≡ range_with_len first count }
{
    let mut words = [0; 8];
    for place in 0..count {
        words[place] = first + place as u64;
    }
    Value::of(&words[..count])
}

// A key from 1 to n, of the high bits of a number.
fn key_from(n: u64, x: u64) -> u64
    requires low { 1 ≤ n }
    requires high { n ≤ 1000000 }
    ensures key { result ≡ key_from n x }
    ensures small { result ≤ 1000000 }
{
    (x >> 33) % n + 1
}

// What the four highest bits of a number ask for.
fn call_from(top: u64, key: u64, value: Value) -> Call
    requires { key ≤ 1000000 }
    ensures { result ≡ call_from top key value }
{
    if top <= 7 {
        Call::Put { key, value }
    } else if top <= 12 {
        Call::Get { key }
    } else if top <= 14 {
        Call::Del { key }
    } else {
        Call::Range {
            low: key,
            high: key + 16,
        }
    }
}

// The seat of the call behind so many others.
fn seat_at(cfg: &Config, place: u64) -> u32
    ensures { result ≡ place % all_seats (parts_of cfg.now) }
{
    (place % u64::from(cfg.all_seats())) as u32
}

// What call i of n asks for, of a number.
fn made_call(cfg: &Config, n: u64, i: u64, x: u64) -> Call
    requires low { 1 ≤ i }
    requires first { i ≤ n }
    requires high { n ≤ 1000000 }
    ensures { result ≡ made_call (parts_of cfg.now) n i x }
{
    let value = value_from(i, cfg.value_words() as usize);
    call_from(x >> 60, key_from(n, x), value)
}

// The n calls of a seed.
fn made_items(alloc: Global, cfg: &Config, n: u64, seed: u64) -> Result<Vec<Item>, AllocError>
    requires { n ≤ 1000000 }
    ensures { IfOk result (λ v. v.items ≡ made_items (parts_of cfg.now) n seed) }
{
    let mut items = Vec::with_capacity(alloc, n as usize)?;
    let mut x = seed;
    for place in 0..n {
        x = next_number(x);
        let call = made_call(cfg, n, place + 1, x);
        let seat = seat_at(cfg, place);
        items.push_reserved(Item::Ask { seat, call });
    }
    Ok(items)
}

/// A sheet of `n` calls that are made from a seed. The numbers x(1) to x(n) follow the seed x(0): each is the one
/// before it times 6364136223846793005, plus 1442695040888963407, modulo 2^64. Call i is made from x(i): by seat i - 1
/// modulo the number of seats, on a key from 1 to n, which is x(i) / 2^33 modulo n, plus 1. With t = x(i) / 2^60 it is
/// a put for t of 0 to 7, whose value has the words i, i + 1 and so on, a get for 8 to 12, a delete for 13 and 14, and
/// for 15 a range from the key to the key plus 16. There are no marks and no turns. Condition: n is 1 to 1,000,000.
///
/// `TooMany` comes exactly where there are more than [`MOST_ROWS`](crate::MOST_ROWS) rows in the ranges' answers, as
/// [`read_sheet`](crate::read_sheet) counts them. `Row` never comes, and `NoMemory` is free.
pub fn generate(alloc: Global, cfg: &Config, n: u64, seed: u64) -> Result<Sheet, SheetFault>
    requires low { 1 ≤ n }
    requires high { n ≤ 1000000 }
    ensures made { MatchResult result (λ s. s ≡ made_sheet (parts_of cfg.now) n seed) (IsNotMade (parts_of cfg.now) n seed) }
    ensures lawful { IfOk result (λ s. All (IsLawfulItem (parts_of cfg.now)) s.items) }
    ensures marks { IfOk result (λ s. AreMarksLawful s.items) }
    ensures few { IfOk result (λ s. AreFew (parts_of cfg.now) s.items) }
{
    let items = made_items(alloc, cfg, n, seed)?;
    if !are_few(cfg, &items) {
        return Err(SheetFault::TooMany);
    }
    Ok(Sheet {
        headed: false,
        items,
    })
}

#[cfg(test)]
mod tests {
    use super::*;
    use sh_base::ConfigParts;
    use std::test::Fail;

    // An item's seat, its call as a letter, its key or low, and a put's two words or a range's high.
    fn told(item: &Item) -> (u32, u8, u64, u64, u64) {
        match *item {
            Item::Ask { seat, call } => match call {
                Call::Put { key, value } => {
                    let words = value.words();
                    let second = if words.len() == 2 { words[1] } else { 0 };
                    (seat, b'p', key, words[0], second)
                }
                Call::Get { key } => (seat, b'g', key, 0, 0),
                Call::Del { key } => (seat, b'd', key, 0, 0),
                Call::Range { low, high } => (seat, b'r', low, high, 0),
            },
            _ => (0, b'x', 0, 0, 0),
        }
    }

    #[test]
    fn one_call_of_seed_seven_is_a_put_of_one(rt: HostRuntime) -> Result<(), Fail> {
        let sheet = generate(rt.alloc(), &Config::default(), 1, 7).expect(&rt, "a sheet");
        assert_eq!(rt; sheet.as_slice().len(), 1);
        assert_eq!(rt; told(&sheet.as_slice()[0]), (0, b'p', 1, 1, 0));
        assert!(rt; !sheet.has_heading());
        Ok(())
    }

    #[test]
    fn five_calls_of_seed_eight_by_two_seats(rt: HostRuntime) -> Result<(), Fail> {
        let mut parts = ConfigParts::default();
        parts.computes = 1;
        parts.seats = 2;
        parts.value_words = 2;
        let cfg = Config::new(parts).expect(&rt, "a setting");
        let sheet = generate(rt.alloc(), &cfg, 5, 8).expect(&rt, "a sheet");
        let calls = [
            (0, b'd', 5, 0, 0),
            (1, b'p', 3, 2, 3),
            (0, b'r', 3, 19, 0),
            (1, b'p', 3, 4, 5),
            (0, b'g', 5, 0, 0),
        ];
        assert_eq!(rt; sheet.as_slice().len(), calls.len());
        for place in 0..calls.len() {
            assert_eq!(rt; told(&sheet.as_slice()[place]), calls[place]);
        }
        Ok(())
    }

    // Whether so many calls by 64 seats are made, the last of them by this seat.
    fn are_made(alloc: Global, n: u64, last: u32) -> bool {
        let mut parts = ConfigParts::default();
        parts.computes = 8;
        parts.seats = 8;
        if n < 1 || n > 1_000_000 {
            return false;
        }
        let Ok(cfg) = Config::new(parts) else {
            return false;
        };
        match generate(alloc, &cfg, n, 7) {
            Ok(sheet) => {
                let items = sheet.as_slice();
                items.len() as u64 == n && items.last().is_some_and(|item| told(item).0 == last)
            }
            Err(_) => false,
        }
    }

    #[test]
    fn calls_are_made_up_to_the_most(rt: HostRuntime) {
        for (n, last) in [(1, 0), (64, 63), (65, 0), (100_001, 32), (1_000_000, 63)] {
            assert!(rt; are_made(rt.alloc(), n, last), "{n}");
        }
    }
}
