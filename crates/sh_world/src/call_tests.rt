// Calls in their columns.
ghost use Rattle.std.specs.Prelude.{◌≡◌, ◌<◌, ◌≤◌, IfOk, length};
ghost use Rattle.sh_world.specs.Columns.{IsReplyWide};

use crate::Calls;
use sh_base::{Config, ConfigParts, Value};
use sh_map::{Call, Reply, Row};
use std::alloc::{AllocError, Global};

const LAST: u64 = u64::MAX;

// A value of so many words, of which this is the first.
fn value(width: usize, first: u64) -> Value
    requires low { 1 ≤ width }
    requires high { width ≤ 8 }
    ensures { length result ≡ width }
{
    Value::of(&[first, 2, 3, 4, 5, 6, 7, LAST][..width])
}

fn is_eight(given: &Value, first: u64) -> bool {
    given.words() == value(8, first).words()
}

// A setting whose values have so many words, and whose ranges have three rows at most.
fn setting(value_words: u32) -> ConfigParts
    ensures width { result.value_words ≡ value_words }
    ensures rows { result.rows ≡ 3 }
{
    ConfigParts {
        rows: 3,
        value_words,
        ..ConfigParts::default()
    }
}

// A call of each kind.
fn four(alloc: Global) -> Result<Calls, AllocError>
    ensures width { IfOk result (λ c. c.setting.value_words ≡ 8) }
    ensures calls { IfOk result (λ c. length c.calls ≡ 4) }
{
    let Ok(cfg) = Config::new(setting(8)) else {
        return Err(AllocError);
    };
    let mut calls = Calls::new(alloc, &cfg);
    let value = value(8, 40);
    calls.push(7, &Call::Put { key: 1, value })?;
    calls.push(7, &Call::Get { key: 2 })?;
    calls.push(7, &Call::Del { key: LAST })?;
    calls.push(7, &Call::Range { low: 4, high: LAST })?;
    Ok(calls)
}

// Whether this is the call of that place.
fn is_given(call: &Call, place: usize) -> bool {
    match call {
        Call::Get { key } => place == 1 && *key == 2,
        Call::Put { key, value } => place == 0 && *key == 1 && is_eight(value, 40),
        Call::Del { key } => place == 2 && *key == LAST,
        Call::Range { low, high } => place == 3 && *low == 4 && *high == LAST,
    }
}

fn reply_of(kind: char) -> Reply
    ensures { IsReplyWide 8 result }
{
    match kind {
        's' => Reply::Some(value(8, LAST)),
        'r' => Reply::Rows { upto: LAST },
        'f' => Reply::Full,
        'w' => Reply::Worn { version: 65_535 },
        _ => Reply::None,
    }
}

// Whether a call was answered so: `s` for some, `n` for none, `r`, `f` and `w` for the others, and `-` for not yet.
fn is_reply(reply: &Option<Reply>, kind: char) -> bool {
    match reply {
        None => kind == '-',
        Some(Reply::Some(value)) => kind == 's' && is_eight(value, LAST),
        Some(Reply::None) => kind == 'n',
        Some(Reply::Rows { upto }) => kind == 'r' && *upto == LAST,
        Some(Reply::Full) => kind == 'f',
        Some(Reply::Worn { version }) => kind == 'w' && *version == 65_535,
    }
}

// Whether all four stand, this one answered and the others not.
fn stand(calls: &Calls, answered: usize, kind: char) -> bool {
    for place in 0..4 {
        if place >= calls.len() {
            return false;
        }
        let given = calls.get(place);
        let right = if place == answered {
            is_reply(&given.reply, kind) && given.first == 3 && given.point == u32::MAX
        } else {
            is_reply(&given.reply, '-') && given.first == 0 && given.point == 0
        };
        if !right || given.seat != 7 || !is_given(&given.call, place) {
            return false;
        }
    }
    true
}

// Of four calls this one is answered.
fn answered(alloc: Global, place: usize, kind: char) -> Result<Calls, AllocError>
    requires { place < 4 }
{
    let mut calls = four(alloc)?;
    if calls.get(place).reply.is_none() {
        calls.answer(place, &reply_of(kind), &[], 3, u32::MAX);
    }
    Ok(calls)
}

// Whether each reply stands where each of the calls is answered by it.
fn replies_stand(alloc: Global) -> Result<bool, AllocError> {
    for place in 0..4 {
        for kind in ['s', 'n', 'r', 'f', 'w'] {
            if !stand(&answered(alloc, place, kind)?, place, kind) {
                return Ok(false);
            }
        }
    }
    Ok(true)
}

#[test]
fn calls_of_each_kind_are_answered_by_each_reply(rt: HostRuntime) {
    assert!(rt; replies_stand(rt.alloc()).unwrap_or(false));
}

// A row whose value's first word is twice the key.
fn row(width: usize, key: u64) -> Row
    requires low { 1 ≤ width }
    requires high { width ≤ 8 }
    requires key { key ≤ 1000 }
    ensures { length result.value ≡ width }
{
    Row {
        key,
        value: value(width, 2 * key),
    }
}

// Three ranges and a get, of which two ranges and the get are answered, the last range before the first: the first with
// three rows, the last with two.
fn ranges(alloc: Global, width: usize) -> Result<Calls, AllocError>
    requires low { 1 ≤ width }
    requires high { width ≤ 8 }
{
    let Ok(cfg) = Config::new(setting(width as u32)) else {
        return Err(AllocError);
    };
    let mut calls = Calls::new(alloc, &cfg);
    calls.push(0, &Call::Range { low: 1, high: 100 })?;
    calls.push(1, &Call::Get { key: 5 })?;
    calls.push(2, &Call::Range { low: 20, high: 20 })?;
    calls.push(3, &Call::Range { low: 10, high: 12 })?;
    let two = [row(width, 10), row(width, 11)];
    calls.answer(3, &Reply::Rows { upto: 12 }, &two, 0, 1);
    calls.answer(1, &Reply::None, &[], 0, 2);
    let three = [row(width, 1), row(width, 50), row(width, 99)];
    calls.answer(0, &Reply::Rows { upto: 100 }, &three, 1, 3);
    Ok(calls)
}

// Whether the call at this place has rows of these keys, and no others.
fn has_rows(calls: &Calls, width: usize, place: usize, keys: &[u64]) -> bool {
    if place >= calls.len() || calls.rows(place) as usize != keys.len() || width < 1 || width > 8 {
        return false;
    }
    for at in 0..calls.rows(place) {
        let row = calls.row(place, at);
        let key = keys[at as usize];
        if row.key != key || key > 1000 || row.value.words() != value(width, 2 * key).words() {
            return false;
        }
    }
    true
}

// Whether the rows of each range are its own, for values of so many words.
fn rows_stand(alloc: Global, width: usize) -> Result<bool, AllocError>
    requires low { 1 ≤ width }
    requires high { width ≤ 8 }
{
    let calls = ranges(alloc, width)?;
    Ok(
        has_rows(&calls, width, 0, &[1, 50, 99])
            && has_rows(&calls, width, 1, &[])
            && has_rows(&calls, width, 2, &[])
            && has_rows(&calls, width, 3, &[10, 11]),
    )
}

#[test]
fn ranges_keep_their_own_rows(rt: HostRuntime) {
    for width in [1, 2, 8] {
        assert!(rt; rows_stand(rt.alloc(), width).unwrap_or(false));
    }
}
