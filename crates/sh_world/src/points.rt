// The point at which a call is answered.
ghost use Rattle.std.specs.Prelude.{◌≡◌, ◌↔◌, ◌≤◌, IsTrue, length};
ghost use Rattle.sh_map.specs.{Log.{IsLegal}, Points.{least_point, point_of}};
ghost use Rattle.sh_readers.specs.Points.{HadSince};
ghost use Rattle.sh_world.specs.Running.{HasPoint};

use sh_base::Value;
use sh_map::{Call, Entry, Reply};

// Whether two values are the same, or both are none.
fn same(a: &Option<Value>, b: &Option<Value>) -> bool
    ensures { IsTrue result ↔ (a.now ≡ b.now) }
{
    match (a, b) {
        (Some(a), Some(b)) => a.words() == b.words(),
        (None, None) => true,
        _ => false,
    }
}

// The least point from `first` on at which the map has this at the key. Where it had that at some point, the entries of
// the key show where: each tells what the map had before it.
fn least_point(log: &[Entry], first: u64, key: u64, had: &Option<Value>) -> u64
    requires legal { IsLegal log.now }
    requires had { HadSince log.now first key had.now }
    ensures { result ≡ least_point log.now first key had.now }
{
    let mut start = first;
    for at in first as usize..log.len() {
        let entry = &log[at];
        if entry.change.key() == key {
            if same(&entry.old, had) {
                return start;
            }
            start = at as u64 + 1;
        }
    }
    start
}

/// The point of a reply: a get's, and that of a delete that found nothing, is the least one from `first` on; an update's
/// is `point`, the place of its entry; and any other is the log's length. Condition: the reply has a point.
pub(crate) fn point_of(log: &[Entry], first: u64, point: u64, call: &Call, reply: &Reply) -> u64
    requires legal { IsLegal log.now }
    requires had { HasPoint log.now first call.now reply.now }
    ensures { result ≡ point_of log.now first point call.now reply.now }
{
    let end = log.len() as u64;
    match *call {
        Call::Get { key } => match *reply {
            Reply::Some(value) => least_point(log, first, key, &Some(value)),
            Reply::None => least_point(log, first, key, &None),
            _ => end,
        },
        Call::Put { .. } => match *reply {
            Reply::Some(_) => point,
            Reply::None => point,
            _ => end,
        },
        Call::Del { key } => match *reply {
            Reply::Some(_) => point,
            Reply::None => least_point(log, first, key, &None),
            _ => end,
        },
        Call::Range { .. } => end,
    }
}
