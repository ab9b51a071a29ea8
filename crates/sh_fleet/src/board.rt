// The board on which notes lie.
ghost use Rattle.std.specs.{Prelude.{◌≡◌, ◌<◌, ◌+◌, IfOk, IfSome, None, OnOk, length, replicate, slice_get, slice_index_or, take, true}, Ordering.{nat_cmp}};
ghost use Rattle.std.specs.BTreeMap as tree;
ghost use Rattle.sh_client.specs.Rests.{is_resting};
ghost use Rattle.sh_pool.specs.Pools.{IsOfPool};
ghost use Rattle.sh_fleet.specs.{Wants.{wants_of}, Boards.{led, link_of, want_at, AreLying, AreNext, IsAfter, IsChain, IsLinked, IsMaker, IsMark, IsNoteFor, Stays}};

use sh_pool::{Note, Pass, Pool};
use sh_sheet::Item;
use std::alloc::{AllocError, Global};
use std::collections::BTreeMap;
use std::marker::{Brand, Model, PhantomData};
use std::mem;

/// Which pool and which sheet a board is of. Each run picks them.
pub trait Naming {
    ghost use Rattle.std.specs.Prelude.{List, Option};
    ghost use Rattle.sh_pool.specs.Passes.{PoolTable};
    ghost use Rattle.sh_sheet.specs.declared.item.Item.{Item};

    ghost laid: { Option PoolTable };

    ghost items: { List Item };
}

impl Naming for Brand {
    ghost use Rattle.std.specs.Prelude.{[], None};

    ghost laid = { None };

    ghost items = { [] };
}

// What was found of marks and afters: each item's link, for each after another one that names the same mark, and where the
// mark with each number stands. The link of a mark is one more than the place of an after that names it, or 0; that of an
// after is its place.
#[derive(Drop)]
struct Links {
    links: Vec<usize>,
    next: Vec<usize>,
    marks: BTreeMap<u64, usize>,
}

impl Links {
    // Where the mark with this number stands.
    fn mark(&self, number: u64) -> Option<usize>
        ensures { result ≡ tree.get nat_cmp self.now.marks number }
    {
        match self.marks.get(&number) {
            Some(mark) => Some(*mark),
            None => None,
        }
    }

    // A mark has this link from now on. It answers its link before.
    fn lead(&mut self, mark: Option<usize>, link: usize) -> usize
        requires { IfSome mark (λ k. k < length self.old.links.items) }
        ensures links { self.new.links.items ≡ led self.old.links.items mark link }
        ensures next { self.new.next.items ≡ self.old.next.items }
        ensures marks { self.new.marks ≡ self.old.marks }
        ensures link { result ≡ link_of self.old.links.items mark }
    {
        let Some(at) = mark else {
            return 0;
        };
        let before = self.links[at];
        self.links[at] = link;
        before
    }

    // Adds the item at a place. Condition: those before it are there.
    fn add(&mut self, items: &[Item], at: usize) -> Result<(), AllocError>
        requires at { at < length items.now }
        requires linked { IsLinked (wants_of items.now) (take at items.now) self.old.links.items self.old.next.items self.old.marks }
        ensures { OnOk result (IsLinked (wants_of items.now) (take (at + 1) items.now) self.new.links.items self.new.next.items self.new.marks) }
    {
        match &items[at] {
            Item::Mark { number, .. } => {
                self.marks.insert(*number, at)?;
                self.links.push(0)?;
            }
            Item::After { number, .. } => {
                let place = self.next.len();
                let other = self.lead(self.mark(*number), place + 1);
                self.next.push(other)?;
                self.links.push(place)?;
            }
            _ => self.links.push(0)?,
        }
        Ok(())
    }
}

// The links of all items.
fn links_of(alloc: Global, items: &[Item]) -> Result<Links, AllocError>
    ensures { IfOk result (λ l. IsLinked (wants_of items.now) items.now l.links.items l.next.items l.marks) }
{
    let mut found = Links {
        links: Vec::with_capacity(alloc, items.len())?,
        next: Vec::new(alloc),
        marks: BTreeMap::new(alloc),
    };
    for at in 0..items.len() {
        found.add(items, at)?;
    }
    Ok(found)
}

// Places for notes, all of them empty.
fn no_notes(alloc: Global, count: usize) -> Result<Vec<Option<Note>>, AllocError>
    ensures { IfOk result (λ v. v.items ≡ replicate count None) }
{
    let mut notes = Vec::with_capacity(alloc, count)?;
    for _ in 0..count {
        notes.push_reserved(None);
    }
    Ok(notes)
}

// The link behind the after at a place. Condition: there is one.
fn next_of(next: &[usize], place: usize) -> usize
    requires { place < length next.now }
    ensures { result ≡ slice_index_or next.now place 0 }
{
    next[place]
}

// Lays a note of the pass at the place of each after of a chain.
fn lay_chain<N: Naming>(
    pool: &Pool,
    pass: &mut Pass,
    first: usize,
    next: &[usize],
    notes: &mut Vec<Option<Note>>,
)
    requires of { IsOfPool pool.now pass.old }
    requires rests { is_resting pass.old.client ≡ true }
    requires laid { pool.now.laid ≡ N.laid }
    requires chain { IsChain (wants_of N.items) first pass.old }
    requires next { AreNext (wants_of N.items) (wants_of N.items) next.now }
    requires lying { AreLying N.laid (wants_of N.items) notes.old.items }
    ensures of { IsOfPool pool.now pass.new }
    ensures stays { Stays pass.old pass.new }
    ensures lying { AreLying N.laid (wants_of N.items) notes.new.items }
{
    let mut link = first;
    for _ in 0..notes.len() {
        if link == 0 {
            return;
        }
        let place = link - 1;
        notes[place] = Some(pass.note(pool));
        link = next_of(next, place);
    }
}

/// Where the seats of a run leave notes for each other: a place for each after of the sheet. A place is empty, or the note
/// that its after wants lies there.
#[derive(Drop)]
pub struct Board<N: Naming> {
    links: Vec<usize>,
    next: Vec<usize>,
    notes: Vec<Option<Note>>,
    of: PhantomData<N>,
}

impl<N: Naming> Model for Board<N> {
    ghost use Rattle.std.specs.Prelude.{List, Option};
    ghost use Rattle.sh_pool.specs.Cards.{NoteState};
    ghost use Rattle.sh_fleet.specs.Boards.{IsBoard};

    ghost Value = { List (Option NoteState) };

    ghost view = { λ b. b.notes.items };

    ghost invariant = { λ b. IsBoard N.laid N.items b.links.items b.next.items b.notes.items };
}

impl<N: Naming> Board<N> {
    /// The board of these items, on which no note lies.
    pub(crate) fn of(alloc: Global, items: &[Item]) -> Result<Board<N>, AllocError>
        requires { items.now ≡ N.items }
    {
        let Links {
            links,
            next,
            marks: _,
        } = links_of(alloc, items)?;
        let notes = no_notes(alloc, next.len())?;
        Ok(Board {
            links,
            next,
            notes,
            of: PhantomData,
        })
    }

    /// Lays a note of the pass for each after that names the mark at this place of the sheet. Conditions: a pass of this pool
    /// with no call under way, which stands at the mark.
    pub(crate) fn lay(&mut self, pool: &Pool, pass: &mut Pass, at: usize)
        requires of { IsOfPool pool.now pass.old }
        requires rests { is_resting pass.old.client ≡ true }
        requires laid { pool.now.laid ≡ N.laid }
        requires mark { IsMark (slice_get N.items at) }
        requires maker { IsMaker (want_at N.items at) pass.old }
        ensures of { IsOfPool pool.now pass.new }
        ensures stays { Stays pass.old pass.new }
    {
        let first = self.links[at];
        lay_chain::<N>(pool, pass, first, &self.next, &mut self.notes);
    }

    /// Takes the note for the after at this place of the sheet, where it lies there.
    pub(crate) fn take(&mut self, at: usize) -> Option<Note>
        requires { IsAfter (slice_get N.items at) }
        ensures { IfSome result (λ n. IsNoteFor N.laid (want_at N.items at) n) }
    {
        let place = self.links[at];
        mem::replace(&mut self.notes[place], None)
    }
}
