// One row of a sheet.
ghost use Rattle.std.specs.{Prelude.{get_or, ℕ, ◌≡◌, ◌≤◌, ◌∷◌, ◌==◌, [], length, ◌≢◌, Option, None, Some, MatchOption, option_map}, List.{position}};
ghost use Rattle.csv.specs.Records.{fields_of};
ghost use Rattle.sh_base.specs.Parts.{parts_of};
ghost use Rattle.sh_sheet.specs.{Number.{number_of}, Row.{colon_parts, deed_of, is_heading, item_in, not_here, seat_in, value_in}, Sheet.{marks_in}, Reader.{HasMarks}, declared.deed.Deed.TheVariants.{Ask}};
ghost use Rattle.sh_sheet.specs.Parts.{parts_behind};
ghost use Rattle.sh_map.specs.declared.call.Call.TheVariants.{Put, Range};

use crate::deed::{Deed, Op};
use crate::found::Found;
use crate::{Item, Mode, RowCause, parse_number};
use csv::ByteRecord;
use sh_base::{Config, Value};
use sh_map::Call;

// Where the first colon of a text stands.
fn find_colon(text: &[u8]) -> Option<usize>
    ensures { result ≡ position (λ b. b == 58) text.now }
{
    text.iter().position(|byte| *byte == b':')
}

// The part of a text before its first colon, and what stands behind that colon.
fn cut(text: &[u8]) -> (&[u8], Option<&[u8]>)
    ensures { colon_parts text.now ≡ result.0.now ∷ parts_behind (option_map (λ b. b.now) result.1) }
{
    match find_colon(text) {
        Some(at) => (&text[..at], Some(&text[at + 1..])),
        None => (text, None),
    }
}

/// The value of so many words that a field says, if it says one: as many numbers joined by colons. Condition: 1 to 8
/// words.
pub fn parse_value(text: &[u8], count: usize) -> Option<Value>
    requires low { 1 ≤ count }
    requires high { count ≤ 8 }
    ensures { result ≡ value_in count text.now }
{
    let mut words = [0; 8];
    let mut at = 0;
    let mut rest = Some(text);
    'parts: while let Some(more) = rest {
        if at == count {
            return None;
        }
        let (part, behind) = cut(more);
        words[at] = parse_number(part)?;
        at += 1;
        rest = behind;
    }
    if at < count {
        return None;
    }
    Some(Value::of(&words[..at]))
}

// The put of a key and a field that says a value.
fn put_of(words: u32, key: u64, b: &[u8]) -> Option<Deed>
    requires low { 1 ≤ words }
    requires high { words ≤ 8 }
    ensures { result ≡ option_map (λ value. Ask (Put key value)) (value_in words b.now) }
{
    let value = parse_value(b, words as usize)?;
    Some(Deed::Ask(Call::Put { key, value }))
}

// The range from a low to a field that says a number.
fn range_of(low: u64, b: &[u8]) -> Option<Deed>
    ensures { result ≡ option_map (λ high. Ask (Range low high)) (number_of b.now) }
{
    let high = parse_number(b)?;
    Some(Deed::Ask(Call::Range { low, high }))
}

// What an operation asks for with the number a and the field b, if b is as it has to be.
fn deed_of(words: u32, op: Op, a: u64, b: &[u8]) -> Option<Deed>
    requires low { 1 ≤ words }
    requires high { words ≤ 8 }
    ensures { result ≡ deed_of words op a b.now }
{
    match op {
        Op::Put => put_of(words, a, b),
        Op::Range => range_of(a, b),
        _ if !b.is_empty() => None,
        Op::Get => Some(Deed::Ask(Call::Get { key: a })),
        Op::Del => Some(Deed::Ask(Call::Del { key: a })),
        Op::Mark => Some(Deed::Mark(a)),
        Op::After => Some(Deed::After(a)),
        Op::Turn => Some(Deed::Turn(a)),
    }
}

// The fields of a row of four.
#[derive(Clone, Copy)]
struct Fields<'a> {
    op: &'a [u8],
    seat: &'a [u8],
    a: &'a [u8],
    b: &'a [u8],
}

/// The field of a row at a place, and past the last field an empty text.
#[tactic(auto, using(crate::proofs::RowFields::field_none, crate::proofs::RowFields::field_some))]
pub fn field(row: &ByteRecord, place: usize) -> &[u8]
    ensures { result.now ≡ get_or (fields_of row.now) place [] }
{
    match row.get(place) {
        Some(field) => field,
        None => b"".as_slice(),
    }
}

// The four fields of a row, if it has four.
#[tactic(auto, using(crate::proofs::RowFields::four))]
fn four_fields(row: &ByteRecord) -> Option<Fields<'_>>
    ensures { MatchOption result (length (fields_of row.now) ≢ 4) (λ f. fields_of row.now ≡ f.op.now ∷ f.seat.now ∷ f.a.now ∷ f.b.now ∷ []) }
{
    if row.len() != 4 {
        return None;
    }
    Some(Fields {
        op: field(row, 0),
        seat: field(row, 1),
        a: field(row, 2),
        b: field(row, 3),
    })
}

// Why an operation isn't here.
fn not_here(mode: Mode) -> RowCause
    ensures { result ≡ not_here mode }
{
    match mode {
        Mode::Feed => RowCause::BadOp,
        Mode::Run | Mode::Replay => RowCause::TurnNotHere,
    }
}

// The seat that a field says, if it says one; a feed's field is empty, and stands for seat 0.
fn seat_of(mode: Mode, text: &[u8]) -> Option<u64>
    ensures { result ≡ seat_in mode text.now }
{
    match mode {
        Mode::Feed if text.is_empty() => Some(0),
        Mode::Feed => None,
        Mode::Run | Mode::Replay => parse_number(text),
    }
}

// The item of four fields, or the first test that they fail.
fn item_of_fields(
    cfg: &Config,
    mode: Mode,
    found: &Found,
    fields: Fields<'_>,
) -> Result<Item, RowCause>
    requires { HasMarks found.now.marks found.now.items.items }
    ensures { result ≡ item_in (parts_of cfg.now) mode (marks_in found.now.items.items) (fields.entry.op.now ∷ fields.entry.seat.now ∷ fields.entry.a.now ∷ fields.entry.b.now ∷ []) }
{
    let op = Op::named(fields.op).ok_or(RowCause::BadOp)?;
    if !op.is_here(mode) {
        return Err(not_here(mode));
    }
    let seat = seat_of(mode, fields.seat).ok_or(RowCause::BadNumber)?;
    let a = parse_number(fields.a).ok_or(RowCause::BadNumber)?;
    let deed = deed_of(cfg.value_words(), op, a, fields.b).ok_or(RowCause::BadNumber)?;
    if seat >= u64::from(cfg.all_seats()) {
        return Err(RowCause::BadSeat);
    }
    if !deed.has_key() {
        return Err(RowCause::BadKey);
    }
    if !deed.has_bounds() {
        return Err(RowCause::BadBounds);
    }
    if !found.has_mark(&deed) {
        return Err(RowCause::BadMark);
    }
    Ok(deed.by_seat(seat as u32))
}

/// The item of a row behind what is found so far, or the first test that the row fails.
#[tactic(auto, using(crate::proofs::RowFields::not_four))]
pub(crate) fn item_in(
    cfg: &Config,
    mode: Mode,
    found: &Found,
    row: &ByteRecord,
) -> Result<Item, RowCause>
    requires { HasMarks found.now.marks found.now.items.items }
    ensures { result ≡ item_in (parts_of cfg.now) mode (marks_in found.now.items.items) (fields_of row.now) }
{
    match four_fields(row) {
        Some(fields) => item_of_fields(cfg, mode, found, fields),
        None => Err(RowCause::FieldCount),
    }
}

/// Whether a row is the heading of a sheet.
#[tactic(auto, using(crate::proofs::RowFields::not_four_heading))]
pub(crate) fn is_heading(row: &ByteRecord) -> bool
    ensures { result ≡ is_heading (fields_of row.now) }
{
    match four_fields(row) {
        Some(fields) => fields.op == b"op".as_slice()
            && fields.seat == b"seat".as_slice()
            && fields.a == b"a".as_slice()
            && fields.b == b"b".as_slice(),
        None => false,
    }
}
