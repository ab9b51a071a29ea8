// The entry that an answered call makes.
ghost use Rattle.std.specs.{Prelude.{◌≡◌, ◌∷◌, ◌++◌, ◌<◌, [], vec_len}, Vec.{vec_capacity}};
ghost use Rattle.sh_map.specs.declared.call.Call.TheVariants as call;
ghost use Rattle.sh_map.specs.{Book.{made_entry}, Made.{entries_by}};

use crate::{Call, Change, Entry, Log, Reply};
use sh_base::Value;

// Adds one entry.
fn push(log: &mut Log, seat: u32, change: Change, old: Option<Value>)
    requires { vec_len log.old < vec_capacity log.old }
    ensures items { log.new.items ≡ log.old.items ++ made_entry seat change old ∷ [] }
    ensures room { vec_capacity log.new ≡ vec_capacity log.old }
{
    log.push_reserved(Entry { seat, change, old });
}

// Adds the entry of a put with this reply, where it made one.
fn log_put(log: &mut Log, seat: u32, key: u64, value: Value, reply: &Reply)
    requires { vec_len log.old < vec_capacity log.old }
    ensures items { log.new.items ≡ log.old.items ++ entries_by seat (call.Put key value) reply.now }
    ensures room { vec_capacity log.new ≡ vec_capacity log.old }
{
    match *reply {
        Reply::Some(old) => push(log, seat, Change::Put { key, value }, Some(old)),
        Reply::None => push(log, seat, Change::Put { key, value }, None),
        Reply::Rows { .. } | Reply::Full | Reply::Worn { .. } => {}
    }
}

// Adds the entry of a delete with this reply, where it made one.
fn log_del(log: &mut Log, seat: u32, key: u64, reply: &Reply)
    requires { vec_len log.old < vec_capacity log.old }
    ensures items { log.new.items ≡ log.old.items ++ entries_by seat (call.Del key) reply.now }
    ensures room { vec_capacity log.new ≡ vec_capacity log.old }
{
    if let Reply::Some(old) = *reply {
        push(log, seat, Change::Del { key }, Some(old));
    }
}

/// Logs a call that was answered: adds its entry, where it made one. Condition: there is room for one entry more.
pub fn log_call(log: &mut Log, seat: u32, call: &Call, reply: &Reply)
    requires { vec_len log.old < vec_capacity log.old }
    ensures items { log.new.items ≡ log.old.items ++ entries_by seat call.now reply.now }
    ensures room { vec_capacity log.new ≡ vec_capacity log.old }
{
    match *call {
        Call::Put { key, value } => log_put(log, seat, key, value, reply),
        Call::Del { key } => log_del(log, seat, key, reply),
        Call::Get { .. } | Call::Range { .. } => {}
    }
}
