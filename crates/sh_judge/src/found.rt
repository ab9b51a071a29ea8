// What is found in the lines of a text so far.
ghost use Rattle.std.specs.Prelude.{◌≡◌, ◌≤◌, ◌∷◌, ◌++◌, [], Some, None, IfOk, OnOk};
ghost use Rattle.sh_map.specs.Book.{made};
ghost use Rattle.sh_judge.specs.{Reading.{least_after, least_first, nothing_told, with_last_row, with_row}, Reader.{HasLeast, told_of}};

use sh_map::{Call, Done, Reply, Row};
use std::alloc::{AllocError, Global};

/// The numbers of a last line.
#[derive(Clone, Copy, Debug)]
pub struct End {
    pub calls: u64,
    pub keys: u64,
    pub sum: u128,
}

/// The calls with their rows, the rows of the map, and the last line's numbers, once it was read; and for each seat the
/// least place at which its next call may begin.
#[derive(Debug, Drop)]
pub(crate) struct Found {
    pub(crate) dones: Vec<Done>,
    pub(crate) maps: Vec<Row>,
    pub(crate) end: Option<End>,
    pub(crate) ends: Vec<u64>,
    pub(crate) lines: u64,
}

// How many entries a call with this reply has made.
pub(crate) fn made(call: &Call, reply: &Reply) -> u64
    ensures { result ≡ made call.now reply.now }
{
    match *call {
        Call::Put { .. } => match *reply {
            Reply::Some(_) | Reply::None => 1,
            _ => 0,
        },
        Call::Del { .. } => match *reply {
            Reply::Some(_) => 1,
            _ => 0,
        },
        _ => 0,
    }
}

// Where a call that follows on its seat may begin.
fn end_of(done: &Done) -> u64
    ensures { result ≡ least_after done.now }
{
    done.point.saturating_add(made(&done.call, &done.reply))
}

// Gives a call one row more.
fn push_row(done: &mut Done, row: Row) -> Result<(), AllocError>
    ensures { OnOk result (done.new ≡ with_row done.old row) }
{
    done.rows.push(row)
}

impl Found {
    /// Nothing.
    pub(crate) fn new(alloc: Global) -> Result<Found, AllocError>
        ensures told { IfOk result (λ f. told_of f ≡ nothing_told) }
        ensures least { IfOk result (λ f. HasLeast f.ends.items f.dones.items) }
    {
        let ends = vec![in alloc; 0; 64]?;
        Ok(Found {
            dones: Vec::new(alloc),
            maps: Vec::new(alloc),
            end: None,
            ends,
            lines: 0,
        })
    }

    /// The least place at which a seat's next call may begin.
    pub(crate) fn least(&self, seat: u32) -> u64
        requires small { seat ≤ 63 }
        requires least { HasLeast self.now.ends.items self.now.dones.items }
        ensures { result ≡ least_first self.now.dones.items seat }
    {
        self.ends[seat as usize]
    }

    /// Adds a call.
    pub(crate) fn add(&mut self, done: Done) -> Result<(), AllocError>
        requires seat { done.seat ≤ 63 }
        requires least { HasLeast self.old.ends.items self.old.dones.items }
        ensures least { OnOk result (HasLeast self.new.ends.items self.new.dones.items) }
        ensures told { OnOk result (told_of self.new ≡ record (told_of self.old) { dones = self.old.dones.items ++ done ∷ [] }) }
    {
        let least = self.least(done.seat);
        self.ends[done.seat as usize] = least.max(end_of(&done));
        self.dones.push(done)?;
        Ok(())
    }

    /// Gives the last call one row more, if there is a call.
    pub(crate) fn add_row(&mut self, row: Row) -> Result<(), AllocError>
        requires { HasLeast self.old.ends.items self.old.dones.items }
        ensures least { OnOk result (HasLeast self.new.ends.items self.new.dones.items) }
        ensures told { OnOk result (told_of self.new ≡ record (told_of self.old) { dones = with_last_row self.old.dones.items row }) }
    {
        let Some(last) = self.dones.pop() else {
            return Ok(());
        };
        let mut last = last;
        push_row(&mut last, row)?;
        self.dones.push(last)?;
        Ok(())
    }
}
