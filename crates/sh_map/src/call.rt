// What a seat may ask, and what it is answered.
ghost use Rattle.std.specs.Prelude.{IsTrue, ◌↔◌};
ghost use Rattle.sh_base.specs.Parts.{parts_of};
ghost use Rattle.sh_map.specs.Calls.{IsInRange, IsKey};

use sh_base::{Config, Value};

/// A call on the map. A key is 1 to 2^64 - 2. A range asks for the keys from `low` up to but without `high`; `low` is
/// a key, and `high` is from `low` to 2^64 - 1.
#[derive(Clone, Copy, Debug)]
pub enum Call {
    Get { key: u64 },
    Put { key: u64, value: Value },
    Del { key: u64 },
    Range { low: u64, high: u64 },
}

/// The answer of a call.
#[derive(Clone, Copy, Debug)]
pub enum Reply {
    /// A get's value, or the earlier value of a put or a delete.
    Some(Value),
    /// There was none.
    None,
    /// A range's rows are all that there were below `upto`.
    Rows { upto: u64 },
    /// A put needed a node and there was none.
    Full,
    /// An update had to rewrite or split a leaf whose version, this one, is the last.
    Worn { version: u64 },
}

impl Call {
    /// Whether the call may be asked in this setting: its keys are keys, its bounds are in order, and the value of a
    /// put has the setting's number of words.
    pub fn in_range(&self, cfg: &Config) -> bool
        ensures { IsTrue result ↔ IsInRange (parts_of cfg.now) self.now }
    {
        match *self {
            Call::Get { key } => is_key(key),
            Call::Put { key, value } => is_key(key)
                && value.words().len() == cfg.value_words() as usize,
            Call::Del { key } => is_key(key),
            Call::Range { low, high } => is_key(low) && low <= high,
        }
    }
}

// Whether a number may be a key.
fn is_key(key: u64) -> bool
    ensures { IsTrue result ↔ IsKey key }
{
    1 <= key && key < u64::MAX
}
