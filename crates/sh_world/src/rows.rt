// The rows of ranges, in their column.
ghost use Rattle.std.specs.Prelude.{◌≡◌, ◌+◌, ◌*◌, ◌<◌, ◌≤◌, ◌++◌, Some, IfOk, length, slice_get, slice_index_or, take, drop, vec_len};
ghost use Rattle.std.specs.{List.{flat_map, All}, Vec.{vec_capacity}};
ghost use Rattle.sh_base.specs.Parts.{parts_of};
ghost use Rattle.sh_world.specs.{States.{rows_at}, Columns.{keys_of, room_of, row_words, IsRowWide}};

use crate::Calls;
use sh_base::{Config, Value};
use sh_map::{Call, Row, Rows};
use std::alloc::{AllocError, Global};

// How many keys a range asks for; any other call has no rows.
fn keys_of(call: &Call) -> u64
    ensures { result ≡ keys_of call.now }
{
    match *call {
        Call::Range { low, high } => high.saturating_sub(low),
        _ => 0,
    }
}

// How many words the rows of a call's answer may take.
pub(crate) fn room_words(cfg: &Config, call: &Call) -> usize
    ensures value { result ≡ room_of (parts_of cfg.now) call.now * ((parts_of cfg.now).value_words + 1) }
    ensures small { result ≤ 36864 }
{
    let most = u64::from(cfg.parts().rows).min(keys_of(call));
    most as usize * (cfg.value_words() as usize + 1)
}

// Puts words behind others. Condition: there is room for them.
fn append(words: &mut Vec<u64>, more: &[u64])
    requires { vec_len words.old + length more.now ≤ vec_capacity words.old }
    ensures items { words.new.items ≡ words.old.items ++ more.now }
    ensures len { vec_len words.new ≡ vec_len words.old + length more.now }
    ensures room { vec_capacity words.old ≤ vec_capacity words.new }
{
    let Ok(()) = words.extend_from_slice(more) else {
        unreachable!()
    };
}

// Puts a row behind others. Condition: there is room for it.
fn push_row(words: &mut Vec<u64>, row: &Row)
    requires { vec_len words.old + (length row.now.value + 1) ≤ vec_capacity words.old }
    ensures items { words.new.items ≡ words.old.items ++ row_words row.now }
    ensures len { vec_len words.new ≡ vec_len words.old + (length row.now.value + 1) }
    ensures room { vec_capacity words.old ≤ vec_capacity words.new }
{
    words.push_reserved(row.key);
    append(words, row.value.words());
}

// Puts rows behind others. Conditions: their values have so many words, and there is room for them.
pub(crate) fn push_rows(words: &mut Vec<u64>, rows: &[Row], width: usize)
    requires wide { All (IsRowWide width) rows.now }
    requires room { vec_len words.old + length rows.now * (width + 1) ≤ vec_capacity words.old }
    ensures items { words.new.items ≡ words.old.items ++ flat_map row_words rows.now }
    ensures len { vec_len words.new ≡ vec_len words.old + length rows.now * (width + 1) }
    ensures room { vec_capacity words.old ≤ vec_capacity words.new }
{
    for row in rows {
        push_row(words, row);
    }
}

// The row behind so many others among the words of a call's rows. Conditions: values of 1 to 8 words, and it ends among
// them.
fn row_in(words: &[u64], start: usize, row: u32, width: usize) -> Row
    requires low { 1 ≤ width }
    requires high { width ≤ 8 }
    requires within { start + row * (width + 1) + (width + 1) ≤ length words.now }
    ensures key { result.key ≡ slice_index_or words.now (start + row * (width + 1)) result.key }
    ensures value { result.value ≡ take width (drop (start + row * (width + 1) + 1) words.now) }
{
    let at = start + row as usize * (width + 1);
    Row {
        key: words[at],
        value: Value::of(&words[at + 1..at + 1 + width]),
    }
}

impl Calls {
    /// How many rows a call has: none, but a range that has ended. Condition: the index is below the calls' number.
    pub fn rows(&self, index: usize) -> u32
        requires { index < length self.now.calls }
        ensures { result ≡ length (rows_at self.now.calls index) }
    {
        prove!(index < self.kept.len());
        self.kept[index].count
    }

    /// One of a call's rows, of which the first is row 0. Conditions: the index is below the calls' number, and there is
    /// such a row.
    pub fn row(&self, index: usize, row: u32) -> Row
        requires call { index < length self.now.calls }
        requires row { row < length (rows_at self.now.calls index) }
        ensures { slice_get (rows_at self.now.calls index) row ≡ Some result }
    {
        prove!(index < self.kept.len());
        let width = self.cfg.value_words() as usize;
        row_in(&self.rows, self.kept[index].start, row, width)
    }

    // A call's rows. Condition: the index is below the calls' number.
    pub(crate) fn rows_of(&self, alloc: Global, index: usize) -> Result<Rows, AllocError>
        requires { index < length self.now.calls }
        ensures { IfOk result (λ r. r ≡ rows_at self.now.calls index) }
    {
        let mut rows = Rows::new(alloc);
        for row in 0..self.rows(index) {
            rows.push(self.row(index, row))?;
        }
        Ok(rows)
    }
}
