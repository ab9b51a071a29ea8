// What a field of a printed line says.
ghost use Rattle.std.specs.Prelude.{◌≡◌, ◌≤◌};
ghost use Rattle.sh_judge.specs.Fields.{has_zero, value_of, wide_of, word_of};

use crate::cut::cut;
use sh_base::Value;
use sh_sheet::parse_number;

// Whether a text has several bytes, of which the first is a zero.
fn has_zero(text: &[u8]) -> bool
    ensures { result ≡ has_zero text.now }
{
    text.len() > 1 && text[0] == b'0'
}

/// The word that a field says: a number below 2^64, without leading zeros.
pub(crate) fn word(text: &[u8]) -> Option<u64>
    ensures { result ≡ word_of text.now }
{
    if has_zero(text) {
        return None;
    }
    parse_number(text)
}

/// The number below 2^128 that a field says, without leading zeros.
pub(crate) fn wide(text: &[u8]) -> Option<u128>
    ensures { result ≡ wide_of text.now }
{
    if text.is_empty() {
        return None;
    }
    if has_zero(text) {
        return None;
    }
    let mut value = 0u128;
    for byte in text {
        if !byte.is_ascii_digit() {
            return None;
        }
        value = value
            .checked_mul(10)?
            .checked_add(u128::from(*byte - b'0'))?;
    }
    Some(value)
}

/// The value of so many words that a field says: its words joined by colons.
pub(crate) fn value(text: &[u8], count: u32) -> Option<Value>
    requires low { 1 ≤ count }
    requires high { count ≤ 8 }
    ensures { result ≡ value_of count text.now }
{
    let mut words = [0; 8];
    let mut at = 0;
    let mut rest = Some(text);
    'parts: while let Some(more) = rest {
        if at == count as usize {
            return None;
        }
        let (part, behind) = cut(more, b':');
        words[at] = word(part)?;
        at += 1;
        rest = behind;
    }
    if at < count as usize {
        return None;
    }
    Some(Value::of(&words[..at]))
}
