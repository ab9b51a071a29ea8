// A map from keys to values, kept plainly.
ghost use Rattle.std.specs.{Prelude.{◌≡◌, IfOk, IfErr, OnOk, OnErr, map}, FinMap.{empty, entries, from_entries}};
ghost use Rattle.sh_map.specs.{Map.{get, put, del, row_pair}, Rows.{IsRowAt, IsGapFor, IsRising}};

use crate::{Row, Rows};
use sh_base::Value;
use std::alloc::{AllocError, Global};
use std::marker::Model;

/// A map from keys to values, as rows with rising keys. It is searched by halving; a put or a delete moves the rows
/// behind its own.
#[derive(Debug, Drop)]
pub struct PlainMap {
    rows: Vec<Row>,
}

impl Model for PlainMap {
    ghost use Rattle.std.specs.{Ordering.{nat_cmp}, Coded.{coded_list, coded_ℕ}, FinMap.{code}};
    ghost use Rattle.sh_map.specs.{Map.{Map}, Rows.{IsRising, map_of_rows}};

    ghost Value = { Map };

    ghost coded = { code coded_ℕ (coded_list coded_ℕ) };

    ghost view = { λ m. map_of_rows m.rows.items };

    ghost invariant = { λ m. IsRising m.rows.items };
}

impl PlainMap {
    /// The empty map. It takes no memory.
    pub fn new(alloc: Global) -> PlainMap
        ensures { result ≡ empty }
    {
        PlainMap {
            rows: Vec::new(alloc),
        }
    }

    /// The value of a key, if it has one.
    pub fn get(&self, key: u64) -> Option<Value>
        ensures { result ≡ get self.now key }
    {
        match search(&self.rows, key) {
            Ok(at) => Some(self.rows[at].value),
            Err(_) => None,
        }
    }

    /// Sets the value of a key, and answers the value before. After want of memory the map is as it was.
    pub fn put(&mut self, key: u64, value: Value) -> Result<Option<Value>, AllocError>
        ensures before { IfOk result (λ before. before ≡ get self.old key) }
        ensures ok { OnOk result (self.new ≡ put self.old key value) }
        ensures err { OnErr result (self.new ≡ self.old) }
    {
        match search(&self.rows, key) {
            Ok(at) => {
                let before = self.rows[at].value;
                self.rows[at] = Row { key, value };
                Ok(Some(before))
            }
            Err(at) => {
                self.rows.insert(at, Row { key, value })?;
                Ok(None)
            }
        }
    }

    /// Removes a key, and answers the value before.
    pub fn del(&mut self, key: u64) -> Option<Value>
        ensures before { result ≡ get self.old key }
        ensures removed { self.new ≡ del self.old key }
    {
        match search(&self.rows, key) {
            Ok(at) => Some(self.rows.remove(at).value),
            Err(_) => None,
        }
    }

    /// The keys and their values, by rising keys.
    pub fn pairs(&self) -> &[Row]
        ensures { map row_pair result.now ≡ entries self.now }
    {
        &self.rows
    }

    /// The keys and their values, by rising keys.
    pub fn into_rows(self) -> Rows
        ensures { map row_pair result ≡ entries self }
    {
        let PlainMap { rows } = self;
        Rows::of(rows)
    }
}

/// The value that rising rows give a key, if there is a row of it.
pub(crate) fn value_in(rows: &[Row], key: u64) -> Option<Value>
    requires { IsRising rows.now }
    ensures { result ≡ get (from_entries (map row_pair rows.now)) key }
{
    match search(rows, key) {
        Ok(at) => Some(rows[at].value),
        Err(_) => None,
    }
}

// Where the key is among rising rows, or where it would go.
fn search(rows: &[Row], key: u64) -> Result<usize, usize>
    requires { IsRising rows.now }
    ensures found { IfOk result (IsRowAt rows.now key) }
    ensures absent { IfErr result (IsGapFor rows.now key) }
{
    rows.binary_search_by_key(&key, |row| row.key)
}
