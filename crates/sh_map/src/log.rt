// The log of puts and deletes.
ghost use Rattle.std.specs.Prelude.{◌≡◌};
ghost use Rattle.sh_map.specs.Log.{change_key, left_value};

use sh_base::Value;

/// A change of one key.
#[derive(Clone, Copy, Debug)]
pub enum Change {
    Put { key: u64, value: Value },
    Del { key: u64 },
}

/// A change that a seat made, and what the key had before.
#[derive(Clone, Copy, Debug)]
pub struct Entry {
    pub seat: u32,
    pub change: Change,
    pub old: Option<Value>,
}

/// The changes in their order.
pub type Log = Vec<Entry>;

impl Change {
    /// The key that is changed.
    pub fn key(&self) -> u64
        ensures { result ≡ change_key self.now }
    {
        match *self {
            Change::Put { key, .. } => key,
            Change::Del { key } => key,
        }
    }

    /// What the key has after it.
    pub fn left(&self) -> Option<Value>
        ensures { result ≡ left_value self.now }
    {
        match *self {
            Change::Put { value, .. } => Some(value),
            Change::Del { .. } => None,
        }
    }
}
