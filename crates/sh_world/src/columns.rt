// The calls of a world: they join its columns, are read and are answered.
ghost use Rattle.std.specs.{Prelude.{◌≡◌, ◌+◌, ◌<◌, ◌≤◌, ◌++◌, ◌∷◌, [], OnOk, OnErr, None, Some, length, slice_get, take, drop}, List.{All}};
ghost use Rattle.sh_base.specs.Parts.{parts_of};
ghost use Rattle.sh_decide.specs.Aims.{call_key};
ghost use Rattle.sh_world.specs.States.{answered, fresh_call, rows_at, with_rows, Given};
ghost use Rattle.sh_world.specs.Columns.{call_of, keys_of, kind_of, reply_kind_of, reply_read, IsCallWide, IsReplyWide, IsRowWide, IsWritten};

use crate::calls::{CallKind, Kept, ReplyKind};
use crate::rows::{push_rows, room_words};
use crate::{Calls, GivenCall};
use sh_base::{Config, Value};
use sh_decide::call_key;
use sh_map::{Call, Reply, Row};
use std::alloc::{AllocError, Global};

// Which call it is.
fn kind_of(call: &Call) -> CallKind
    ensures { result ≡ kind_of call.now }
{
    match call {
        Call::Get { .. } => CallKind::Get,
        Call::Put { .. } => CallKind::Put,
        Call::Del { .. } => CallKind::Del,
        Call::Range { .. } => CallKind::Range,
    }
}

// How a call was answered.
fn reply_kind_of(reply: &Reply) -> ReplyKind
    ensures { result ≡ reply_kind_of reply.now }
{
    match reply {
        Reply::Some(_) => ReplyKind::Some,
        Reply::None => ReplyKind::None,
        Reply::Rows { .. } => ReplyKind::Rows,
        Reply::Full => ReplyKind::Full,
        Reply::Worn { .. } => ReplyKind::Worn,
    }
}

// The words of a value, and zeros behind them.
fn padded(value: &Value) -> [u64; 16]
    ensures length { length result ≡ 16 }
    ensures words { take (length value.now) result ≡ value.now }
{
    let mut words = [0; 16];
    words[..value.len()].copy_from_slice(value.words());
    words
}

// One word, and zeros behind it.
fn one_word(word: u64) -> [u64; 16]
    ensures { result ≡ word ∷ 0 ∷ 0 ∷ 0 ∷ 0 ∷ 0 ∷ 0 ∷ 0 ∷ 0 ∷ 0 ∷ 0 ∷ 0 ∷ 0 ∷ 0 ∷ 0 ∷ 0 ∷ [] }
{
    let mut words = [0; 16];
    words[0] = word;
    words
}

// What is kept of a call in words.
fn call_words(call: &Call, width: usize) -> [u64; 16]
    requires low { 1 ≤ width }
    requires high { width ≤ 8 }
    requires wide { IsCallWide width call.now }
    ensures length { length result ≡ 16 }
    ensures back { call_of (kind_of call.now) (call_key call.now) (take width result) ≡ call.now }
{
    match call {
        Call::Put { value, .. } => padded(value),
        Call::Range { high, .. } => one_word(*high),
        Call::Get { .. } | Call::Del { .. } => one_word(0),
    }
}

// What is kept of a reply in words.
fn reply_words(reply: &Reply, width: usize) -> [u64; 16]
    requires low { 1 ≤ width }
    requires high { width ≤ 8 }
    requires wide { IsReplyWide width reply.now }
    ensures length { length result ≡ 16 }
    ensures back { reply_read (reply_kind_of reply.now) (take width result) ≡ Some reply.now }
{
    match reply {
        Reply::Some(value) => padded(value),
        Reply::Rows { upto } => one_word(*upto),
        Reply::Worn { version } => one_word(*version),
        Reply::None | Reply::Full => one_word(0),
    }
}

// The call of which this is kept.
fn call_in(kind: CallKind, key: u64, words: &[u64]) -> Call
    requires low { 1 ≤ length words.now }
    requires high { length words.now ≤ 8 }
    ensures { result ≡ call_of kind key words.now }
{
    match kind {
        CallKind::Get => Call::Get { key },
        CallKind::Put => Call::Put {
            key,
            value: Value::of(words),
        },
        CallKind::Del => Call::Del { key },
        CallKind::Range => Call::Range {
            low: key,
            high: words[0],
        },
    }
}

// The reply of which this is kept.
fn reply_in(kind: ReplyKind, words: &[u64]) -> Option<Reply>
    requires low { 1 ≤ length words.now }
    requires high { length words.now ≤ 8 }
    ensures { result ≡ reply_read kind words.now }
{
    match kind {
        ReplyKind::Waiting => None,
        ReplyKind::Some => Some(Reply::Some(Value::of(words))),
        ReplyKind::None => Some(Reply::None),
        ReplyKind::Rows => Some(Reply::Rows { upto: words[0] }),
        ReplyKind::Full => Some(Reply::Full),
        ReplyKind::Worn => Some(Reply::Worn { version: words[0] }),
    }
}

// Writes words over those from `at` on.
fn write_words(words: &mut [u64], at: usize, value: &[u64])
    requires { at + length value.now ≤ length words.old }
    ensures long { length words.new ≡ length words.old }
    ensures written { IsWritten words.old words.new at value.now }
{
    words[at..at + value.len()].copy_from_slice(value);
}

impl Calls {
    // No calls of a world of this setting. It takes no memory.
    #[tactic(auto, unfolding(crate::specs::Columns::calls_of))]
    pub(crate) fn new(alloc: Global, cfg: &Config) -> Calls
        ensures { result ≡ record { setting = parts_of cfg.now; calls = [] } }
    {
        Calls {
            cfg: *cfg,
            kept: Vec::new(alloc),
            words: Vec::new(alloc),
            rows: Vec::new(alloc),
            owed: 0,
        }
    }

    /// How many there are.
    pub fn len(&self) -> usize
        ensures { result ≡ length self.now.calls }
    {
        self.kept.len()
    }

    /// A call, without its rows. Condition: the index is below their number.
    pub fn get(&self, index: usize) -> GivenCall
        requires { index < length self.now.calls }
        ensures { slice_get self.now.calls index ≡ Some (with_rows result (rows_at self.now.calls index)) }
    {
        prove!(index < self.kept.len());
        let width = self.cfg.value_words() as usize;
        let at = index * (2 * width);
        let kept = &self.kept[index];
        GivenCall {
            seat: kept.seat,
            call: call_in(kept.call, kept.key, &self.words[at..at + width]),
            reply: reply_in(kept.reply, &self.words[at + width..at + 2 * width]),
            first: kept.first,
            point: kept.point,
        }
    }

    // A seat's call joins them as the last, and the places of its answer and of its rows are reserved, so that answering
    // it takes no memory. After want of memory nothing has changed.
    pub(crate) fn push(&mut self, seat: u32, call: &Call) -> Result<(), AllocError>
        requires { IsCallWide self.old.setting.value_words call.now }
        ensures ok { OnOk result (self.new ≡ record self.old { calls = self.old.calls ++ fresh_call seat call.now ∷ [] }) }
        ensures err { OnErr result (self.new ≡ self.old) }
    {
        let width = self.cfg.value_words() as usize;
        let words = call_words(call, width);
        let owed = self.owed + room_words(&self.cfg, call);
        self.kept.reserve(1)?;
        self.rows.reserve(owed)?;
        self.words.extend_from_slice(&words[..2 * width])?;
        self.kept.push_reserved(Kept {
            key: call_key(call),
            seat,
            first: 0,
            point: 0,
            start: 0,
            count: 0,
            call: kind_of(call),
            reply: ReplyKind::Waiting,
        });
        self.owed = owed;
        Ok(())
    }

    // Answers the call at this place. It takes no memory. Conditions: there is one, and it isn't answered; a reply's value
    // has the setting's words; and a range has no more rows than keys and than the setting lets it have, whose values have
    // the setting's words, and any other call has none.
    pub(crate) fn answer(
        &mut self,
        place: usize,
        reply: &Reply,
        rows: &[Row],
        first: u32,
        point: u32,
    )
        requires place { place < length self.old.calls }
        requires waits { (g : Given) → slice_get self.old.calls place ≡ Some g → g.reply ≡ None }
        requires wide { IsReplyWide self.old.setting.value_words reply.now }
        requires rows { length rows.now ≤ self.old.setting.rows }
        requires keys { (g : Given) → slice_get self.old.calls place ≡ Some g → length rows.now ≤ keys_of g.call }
        requires values { All (IsRowWide self.old.setting.value_words) rows.now }
        ensures { self.new ≡ record self.old { calls = answered self.old.calls place reply.now rows.now first point } }
    {
        prove!(place < self.kept.len());
        let width = self.cfg.value_words() as usize;
        let words = reply_words(reply, width);
        let owed = self.owed - room_words(&self.cfg, &self.get(place).call);
        let start = self.rows.len();
        push_rows(&mut self.rows, rows, width);
        write_words(
            &mut self.words,
            place * (2 * width) + width,
            &words[..width],
        );
        let kept = &mut self.kept[place];
        kept.reply = reply_kind_of(reply);
        kept.first = first;
        kept.point = point;
        kept.start = start;
        kept.count = rows.len() as u32;
        self.owed = owed;
    }
}
