// A map from keys to values, kept as a tree.
ghost use Rattle.std.specs.{Prelude.{◌≡◌, ◌<◌, ◌≤◌, ℕ, IsTrue, IfOk, OnOk, OnErr, IsSome, length, slice_get, All, Contains}, FinMap.{empty}};
ghost use Rattle.sh_map.specs.{Map.{get, pair_row}, Log.{changed, change_key, map_at, map_from}, Tables.{given_value}};

use crate::{Change, Entry, Row};
use sh_base::Value;
use std::alloc::{AllocError, Global};
use std::collections::BTreeMap;
use std::marker::Model;

/// A map from keys to values, whose changes take a time that grows with the logarithm of its size.
#[derive(Drop)]
pub(crate) struct TreeMap {
    tree: BTreeMap<u64, Value>,
}

impl Model for TreeMap {
    ghost use Rattle.std.specs.{Ordering.{nat_cmp}, Coded.{coded_list, coded_ℕ}, FinMap.{code, from_entries}};
    ghost use Rattle.sh_map.specs.Map.{Map};

    ghost Value = { Map };

    ghost coded = { code coded_ℕ (coded_list coded_ℕ) };

    ghost view = { λ m. from_entries m.tree.entries };
}

impl TreeMap {
    /// The empty map. It takes no memory.
    pub(crate) fn new(alloc: Global) -> TreeMap
        ensures { result ≡ empty }
    {
        TreeMap {
            tree: BTreeMap::new(alloc),
        }
    }

    /// The value of a key, if it has one.
    pub(crate) fn get(&self, key: u64) -> Option<Value>
        ensures { result ≡ get self.now key }
    {
        self.tree.get(&key).copied()
    }

    /// Makes a change, and answers what its key had before. After want of memory the map is as it was.
    pub(crate) fn apply(&mut self, change: Change) -> Result<Option<Value>, AllocError>
        ensures before { IfOk result (λ before. before ≡ get self.old (change_key change)) }
        ensures ok { OnOk result (self.new ≡ changed self.old change) }
        ensures err { OnErr result (self.new ≡ self.old) }
    {
        match change {
            Change::Put { key, value } => Ok(self.tree.insert(key, value)?),
            Change::Del { key } => Ok(self.tree.remove(&key)),
        }
    }
}

impl TreeMap {
    /// Whether the keys of low..upto that have a value are those of the rows, with the same values.
    pub(crate) fn has_rows(&self, rows: &[Row], low: u64, upto: u64) -> bool
        requires { low ≤ upto }
        ensures { IsTrue result → (key : ℕ) → low ≤ key → key < upto → get self.now key ≡ given_value rows.now key }
    {
        let mut at = 0;
        for (key, value) in self.tree.range(low..upto) {
            if !is_row(rows, at, *key, value) {
                return false;
            }
            at += 1;
        }
        at == rows.len()
    }

    /// The keys of low..upto that have a value.
    pub(crate) fn keys_in(&self, alloc: Global, low: u64, upto: u64) -> Result<Vec<u64>, AllocError>
        requires { low ≤ upto }
        ensures within { IfOk result (λ keys. All (λ key. (low ≤ key) × (key < upto)) keys.items) }
        ensures each { IfOk result (λ keys. (key : ℕ) → low ≤ key → key < upto → IsSome (get self.now key)
            → Contains keys.items key) }
    {
        let mut keys = Vec::new(alloc);
        for (key, _) in self.tree.range(low..upto) {
            keys.push(*key)?;
        }
        Ok(keys)
    }
}

// Whether this is the row at a place.
fn is_row(rows: &[Row], at: usize, key: u64, value: &Value) -> bool
    ensures { IsTrue result → slice_get rows.now at ≡ Some (pair_row key value.now) }
{
    match rows.get(at) {
        Some(row) => row.key == key && row.value.words() == value.words(),
        None => false,
    }
}

// Makes the changes of these entries.
fn apply_all(map: &mut TreeMap, entries: &[Entry]) -> Result<(), AllocError>
    ensures { OnOk result (map.new ≡ map_from map.old entries.now) }
{
    for entry in entries {
        map.apply(entry.change)?;
    }
    Ok(())
}

/// Moves a map from one point of a log to another: on over the entries between, or anew from the start.
pub(crate) fn move_to(
    alloc: Global,
    map: &mut TreeMap,
    log: &[Entry],
    from: usize,
    to: usize,
) -> Result<(), AllocError>
    requires from { from ≤ length log.now }
    requires to { to ≤ length log.now }
    requires here { map.old ≡ map_at log.now from }
    ensures { OnOk result (map.new ≡ map_at log.now to) }
{
    if to < from {
        *map = TreeMap::new(alloc);
        return apply_all(map, &log[..to]);
    }
    apply_all(map, &log[from..to])
}
