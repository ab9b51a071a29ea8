// The line of a call.
ghost use Rattle.std.specs.Prelude.{◌≡◌, ◌≤◌, IfSome};
ghost use Rattle.sh_judge.specs.CallLine.{call_spelled, del_reply, done_spelled, ends_of, found_of, key_spelled, put_of, put_reply, range_spelled, range_reply, reply_spelled, seat_of, two_ends};
ghost use Rattle.sh_judge.specs.{Reading.{least_first}, Reader.{HasLeast}};

use crate::cut::{SevenFields, two};
use crate::found::Found;
use crate::number::{value, word};
use sh_map::{Call, Done, Reply, Rows};
use std::alloc::Global;

/// Where in the log a call begins and where it is answered.
#[derive(Clone, Copy, Debug)]
pub struct Span {
    pub first: u64,
    pub point: u64,
}

// The key that a field says.
fn key(text: &[u8]) -> Option<u64>
    ensures { result ≡ key_spelled text.now }
{
    let n = word(text)?;
    if 1 <= n && n < u64::MAX {
        Some(n)
    } else {
        None
    }
}

fn put(words: u32, a: &[u8], b: &[u8]) -> Option<Call>
    requires low { 1 ≤ words }
    requires high { words ≤ 8 }
    ensures { result ≡ put_of words a.now b.now }
{
    let key = key(a)?;
    let value = value(b, words)?;
    Some(Call::Put { key, value })
}

fn range(a: &[u8], b: &[u8]) -> Option<Call>
    ensures { result ≡ range_spelled a.now b.now }
{
    let low = key(a)?;
    let high = word(b)?;
    if low <= high {
        Some(Call::Range { low, high })
    } else {
        None
    }
}

// The call that an operation's word and the fields a and b say.
fn call(words: u32, op: &[u8], a: &[u8], b: &[u8]) -> Option<Call>
    requires low { 1 ≤ words }
    requires high { words ≤ 8 }
    ensures { result ≡ call_spelled words op.now a.now b.now }
{
    if op == b"put".as_slice() {
        put(words, a, b)
    } else if op == b"get".as_slice() {
        if !b.is_empty() {
            return None;
        }
        let key = key(a)?;
        Some(Call::Get { key })
    } else if op == b"del".as_slice() {
        if !b.is_empty() {
            return None;
        }
        let key = key(a)?;
        Some(Call::Del { key })
    } else if op == b"range".as_slice() {
        range(a, b)
    } else {
        None
    }
}

// The reply to a call of one key.
fn found(words: u32, reply: &[u8], text: &[u8]) -> Option<Reply>
    requires low { 1 ≤ words }
    requires high { words ≤ 8 }
    ensures { result ≡ found_of words reply.now text.now }
{
    if reply == b"some".as_slice() {
        let old = value(text, words)?;
        Some(Reply::Some(old))
    } else if reply == b"none".as_slice() && text.is_empty() {
        Some(Reply::None)
    } else {
        None
    }
}

fn del_reply(words: u32, reply: &[u8], text: &[u8]) -> Option<Reply>
    requires low { 1 ≤ words }
    requires high { words ≤ 8 }
    ensures { result ≡ del_reply words reply.now text.now }
{
    if reply == b"worn".as_slice() {
        let version = word(text)?;
        return Some(Reply::Worn { version });
    }
    found(words, reply, text)
}

fn put_reply(words: u32, reply: &[u8], text: &[u8]) -> Option<Reply>
    requires low { 1 ≤ words }
    requires high { words ≤ 8 }
    ensures { result ≡ put_reply words reply.now text.now }
{
    if reply == b"full".as_slice() {
        return if text.is_empty() {
            Some(Reply::Full)
        } else {
            None
        };
    }
    del_reply(words, reply, text)
}

fn range_reply(high: u64, reply: &[u8], text: &[u8]) -> Option<Reply>
    ensures { result ≡ range_reply high reply.now text.now }
{
    if reply == b"rows".as_slice() {
        let upto = word(text)?;
        if upto == high {
            Some(Reply::Rows { upto })
        } else {
            None
        }
    } else if reply == b"part".as_slice() {
        let upto = word(text)?;
        if upto < high {
            Some(Reply::Rows { upto })
        } else {
            None
        }
    } else {
        None
    }
}

// The reply to a call, by its word and its value.
fn reply(words: u32, call: &Call, reply: &[u8], text: &[u8]) -> Option<Reply>
    requires low { 1 ≤ words }
    requires high { words ≤ 8 }
    ensures { result ≡ reply_spelled words call.now reply.now text.now }
{
    match *call {
        Call::Get { .. } => found(words, reply, text),
        Call::Put { .. } => put_reply(words, reply, text),
        Call::Del { .. } => del_reply(words, reply, text),
        Call::Range { high, .. } => range_reply(high, reply, text),
    }
}

// A range's two ends.
fn two_ends(text: &[u8]) -> Option<Span>
    ensures { result ≡ two_ends text.now }
{
    let fields = two(Some(text), b':')?;
    let first = word(fields.first)?;
    let point = word(fields.second)?;
    Some(Span { first, point })
}

// Where a call with this reply begins and is answered.
fn ends(reply: &Reply, least: u64, text: &[u8]) -> Option<Span>
    ensures { result ≡ ends_of reply.now least text.now }
{
    match *reply {
        Reply::Some(_) | Reply::None => {
            let point = word(text)?;
            Some(Span {
                first: point,
                point,
            })
        }
        Reply::Rows { .. } => two_ends(text),
        Reply::Full | Reply::Worn { .. } => {
            if text.is_empty() {
                Some(Span {
                    first: least,
                    point: least,
                })
            } else {
                None
            }
        }
    }
}

// The seat that a field says.
fn seat(text: &[u8]) -> Option<u32>
    ensures said { result ≡ seat_of text.now }
    ensures small { IfSome result (λ seat. seat ≤ 63) }
{
    let n = word(text)?;
    if n <= 63 { Some(n as u32) } else { None }
}

/// The finished call of number `n` that the fields behind its number say, behind the calls that were found.
pub(crate) fn done(
    alloc: Global,
    words: u32,
    n: u32,
    found: &Found,
    fields: SevenFields<'_>,
) -> Option<Done>
    requires low { 1 ≤ words }
    requires high { words ≤ 8 }
    requires least { HasLeast found.now.ends.items found.now.dones.items }
    ensures said { result ≡ done_spelled words n (least_first found.now.dones.items) (record { seat = fields.entry.seat.now; op = fields.entry.op.now; a = fields.entry.a.now; b = fields.entry.b.now; reply = fields.entry.reply.now; value = fields.entry.value.now; point = fields.entry.point.now }) }
    ensures seat { IfSome result (λ d. d.seat ≤ 63) }
{
    let seat = seat(fields.seat)?;
    let call = call(words, fields.op, fields.a, fields.b)?;
    let reply = reply(words, &call, fields.reply, fields.value)?;
    let ends = ends(&reply, found.least(seat), fields.point)?;
    Some(Done {
        n,
        seat,
        call,
        reply,
        first: ends.first,
        point: ends.point,
        rows: Rows::new(alloc),
    })
}
