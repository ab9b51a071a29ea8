// Finished calls, and the book that they and the log make.
ghost use Rattle.std.specs.Prelude.{◌≡◌, ◌∷◌, ◌++◌, [], OnOk, OnErr};

use crate::{Call, Log, Reply};
use sh_base::Value;
use std::alloc::{AllocError, Global};
use std::marker::Model;

/// A key and its value.
#[derive(Clone, Copy, Debug)]
pub struct Row {
    pub key: u64,
    pub value: Value,
}

/// Rows, seen as their list.
#[derive(Debug, Drop)]
pub struct Rows {
    rows: Vec<Row>,
}

impl Model for Rows {
    ghost use Rattle.std.specs.Prelude.{List};
    ghost use Rattle.sh_map.specs.declared.book.Row.{Row};

    ghost Value = { List Row };

    ghost view = { λ r. r.rows.items };
}

impl Rows {
    /// No rows. It takes no memory.
    pub fn new(alloc: Global) -> Rows
        ensures { result ≡ [] }
    {
        Rows {
            rows: Vec::new(alloc),
        }
    }

    /// These rows.
    pub(crate) fn of(rows: Vec<Row>) -> Rows
        ensures { result ≡ rows.items }
    {
        Rows { rows }
    }

    /// The rows.
    pub fn as_slice(&self) -> &[Row]
        ensures { result.now ≡ self.now }
    {
        &self.rows
    }

    /// Adds a row at the end. After want of memory the rows are as they were.
    pub fn push(&mut self, row: Row) -> Result<(), AllocError>
        ensures ok { OnOk result (self.new ≡ self.old ++ row ∷ []) }
        ensures err { OnErr result (self.new ≡ self.old) }
    {
        self.rows.push(row)?;
        Ok(())
    }
}

/// A finished call. `n` numbers the calls from 1 in the order in which they were given. `first` is the log's length
/// before the call's first turn. `point` is where in the log it is answered: for a put, and for a delete that removed
/// something, the number of entries before its own; for a get, and for a delete that found nothing, the least number
/// of entries, not below `first`, whose map gives the reply; for a range the log's length after its last turn, and so
/// for `Full` and `Worn`. `rows` are a range's rows.
#[derive(Debug, Drop)]
pub struct Done {
    pub n: u32,
    pub seat: u32,
    pub call: Call,
    pub reply: Reply,
    pub first: u64,
    pub point: u64,
    pub rows: Rows,
}

/// Finished calls in their order.
pub type Dones = Vec<Done>;

/// The log and the calls that have ended.
#[derive(Debug, Drop)]
pub struct Book {
    pub log: Log,
    pub dones: Dones,
}
