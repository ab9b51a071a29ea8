// Whether a reply is the one of its point.
ghost use Rattle.std.specs.Prelude.{IsTrue, ◌↔◌, ◌≡◌, ◌≤◌, length, slice_get};
ghost use Rattle.sh_map.specs.{Map.{get}, Log.{map_at}, Book.{made_entry}, Judge.{AnswersAside}};

use crate::entries::same;
use crate::tree_map::TreeMap;
use crate::{Call, Change, Done, Entry, Reply};
use sh_base::Value;

// Whether two changes are the same.
#[tactic(auto, using(crate::proofs::ReplyLemmas::same_change))]
fn is_change(a: Change, b: Change) -> bool
    ensures { IsTrue result ↔ (a ≡ b) }
{
    a.key() == b.key() && same(&a.left(), &b.left())
}

// Whether this is the entry at a place.
fn has_entry(log: &[Entry], at: u64, seat: u32, change: Change, old: Option<Value>) -> bool
    ensures { IsTrue result ↔ (slice_get log.now at ≡ Some (made_entry seat change old)) }
{
    match log.get(at as usize) {
        Some(entry) => {
            entry.seat == seat && is_change(entry.change, change) && same(&entry.old, &old)
        }
        None => false,
    }
}

// Whether a key has this in a map.
fn has(map: &TreeMap, key: u64, had: Option<Value>) -> bool
    ensures { IsTrue result ↔ (get map.now key ≡ had) }
{
    same(&map.get(key), &had)
}

// Whether a get of this key is answered at its point.
fn answers_get(map: &TreeMap, log: &[Entry], done: &Done, key: u64) -> bool
    requires { map.now ≡ map_at log.now done.now.point }
    ensures { IsTrue result ↔ AnswersAside log.now done.now (Call.Get key) done.now.reply }
{
    match done.reply {
        Reply::Some(value) => has(map, key, Some(value)),
        Reply::None => has(map, key, None),
        _ => false,
    }
}

// Whether a put of this value is answered by its entry.
fn answers_put(log: &[Entry], done: &Done, key: u64, value: Value) -> bool
    ensures { IsTrue result ↔ AnswersAside log.now done.now (Call.Put key value) done.now.reply }
{
    let change = Change::Put { key, value };
    match done.reply {
        Reply::Some(old) => has_entry(log, done.point, done.seat, change, Some(old)),
        Reply::None => has_entry(log, done.point, done.seat, change, None),
        Reply::Full | Reply::Worn { .. } => true,
        Reply::Rows { .. } => false,
    }
}

// Whether a delete of this key is answered at its point.
fn answers_del(map: &TreeMap, log: &[Entry], done: &Done, key: u64) -> bool
    requires { map.now ≡ map_at log.now done.now.point }
    ensures { IsTrue result ↔ AnswersAside log.now done.now (Call.Del key) done.now.reply }
{
    match done.reply {
        Reply::Some(old) => {
            has_entry(log, done.point, done.seat, Change::Del { key }, Some(old))
        }
        Reply::None => has(map, key, None),
        Reply::Worn { .. } => true,
        _ => false,
    }
}

// Whether a range's reply ends within its bounds.
fn answers_range(log: &[Entry], done: &Done, low: u64, high: u64) -> bool
    ensures { IsTrue result ↔ AnswersAside log.now done.now (Call.Range low high) done.now.reply }
{
    match done.reply {
        Reply::Rows { upto } => low <= upto && upto <= high,
        _ => false,
    }
}

/// Whether a finished call is answered at its point, the rows of a range aside.
/// The map is that of its point, where the log has that.
pub(crate) fn is_answered(map: &TreeMap, log: &[Entry], done: &Done) -> bool
    requires { done.now.point ≤ length log.now → map.now ≡ map_at log.now done.now.point }
    ensures { IsTrue result ↔ ((done.now.point ≤ length log.now) × AnswersAside log.now done.now done.now.call done.now.reply) }
{
    if done.point > log.len() as u64 {
        return false;
    }
    match done.call {
        Call::Get { key } => answers_get(map, log, done, key),
        Call::Put { key, value } => answers_put(log, done, key, value),
        Call::Del { key } => answers_del(map, log, done, key),
        Call::Range { low, high } => answers_range(log, done, low, high),
    }
}
