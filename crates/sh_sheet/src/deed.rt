// What a row asks for, whoever asks.
ghost use Rattle.std.specs.Prelude.{◌≡◌};
ghost use Rattle.sh_sheet.specs.Row.{by_seat, has_bounds, has_key, is_here, is_key, op_of};

use crate::{Item, Mode};
use sh_map::Call;

/// The operation that a row names.
#[derive(Clone, Copy, Debug, PartialEq, Eq)]
pub(crate) enum Op {
    Put,
    Get,
    Del,
    Range,
    Mark,
    After,
    Turn,
}

/// What a row asks for, as its numbers say it: its keys, bounds and marks needn't be lawful.
#[derive(Clone, Copy, Debug)]
pub(crate) enum Deed {
    Ask(Call),
    Mark(u64),
    After(u64),
    Turn(u64),
}

impl Op {
    /// The operation that a field names, if it names one.
    pub(crate) fn named(text: &[u8]) -> Option<Op>
        ensures { result ≡ op_of text.now }
    {
        if text == b"put".as_slice() {
            Some(Op::Put)
        } else if text == b"get".as_slice() {
            Some(Op::Get)
        } else if text == b"del".as_slice() {
            Some(Op::Del)
        } else if text == b"range".as_slice() {
            Some(Op::Range)
        } else if text == b"mark".as_slice() {
            Some(Op::Mark)
        } else if text == b"after".as_slice() {
            Some(Op::After)
        } else if text == b"turn".as_slice() {
            Some(Op::Turn)
        } else {
            None
        }
    }

    /// Whether a sheet for this use may have it.
    pub(crate) fn is_here(self, mode: Mode) -> bool
        ensures { result ≡ is_here mode self }
    {
        match mode {
            Mode::Run => !matches!(self, Op::Turn),
            Mode::Replay => true,
            Mode::Feed => matches!(self, Op::Put | Op::Get | Op::Del | Op::Range),
        }
    }
}

// Whether a number may be a key.
fn is_key(key: u64) -> bool
    ensures { result ≡ is_key key }
{
    1 <= key && key < u64::MAX
}

impl Deed {
    /// Whether the key of a put, get or del, or the low of a range, is a key.
    pub(crate) fn has_key(&self) -> bool
        ensures { result ≡ has_key self.now }
    {
        match *self {
            Deed::Ask(Call::Put { key, .. } | Call::Get { key } | Call::Del { key }) => is_key(key),
            Deed::Ask(Call::Range { low, .. }) => is_key(low),
            _ => true,
        }
    }

    /// Whether the high of a range isn't below its low.
    pub(crate) fn has_bounds(&self) -> bool
        ensures { result ≡ has_bounds self.now }
    {
        match *self {
            Deed::Ask(Call::Range { low, high }) => low <= high,
            _ => true,
        }
    }

    /// What a seat asks for.
    pub(crate) fn by_seat(&self, seat: u32) -> Item
        ensures { result ≡ by_seat seat self.now }
    {
        match *self {
            Deed::Ask(call) => Item::Ask { seat, call },
            Deed::Mark(number) => Item::Mark { seat, number },
            Deed::After(number) => Item::After { seat, number },
            Deed::Turn(count) => Item::Turn { seat, count },
        }
    }
}
