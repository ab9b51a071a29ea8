// The rule of the table of cells, and what its steps tell.
ghost use Rattle.std.specs.Prelude.{◌≡◌, ◌+◌, ℕ, Option, List, length, slice_index};
ghost use mathlib.Core.Option as maybe;
ghost use lib.ListN.{get_elem?};
ghost use Rattle.sh_local.specs.{Calls.{less_one, new_chair, both, spent, opener}, Lines.{Kept, LineAgrees}, Steps.{Draws, Looks, Counts, LeavesQueue}};

use crate::view::View;
use atomic_table::{Join, Play, Split, TableRule};
use std::marker::PhantomData;

/// A value that may be left in a cell. It is moved, and never copied or lost.
pub trait Carried {
    /// What a table is told once, when it is made. Contracts alone read it.
    type Key: Drop;

    /// Of the table's key, the cell and the value: whether the value may lie in the cell.
    ghost fits: { Self.Key → ℕ → Self → Type 0 };
}

/// What a table is told when it is made: its key, and how many chairs it has.
#[derive(Drop)]
pub struct Setup<K> {
    pub key: K,
    pub chairs: u32,
}

pub struct Lines<T> {
    of: PhantomData<T>,
}

impl<T: Carried> TableRule<Option<T>, View<T, T::Key>, Setup<T::Key>> for Lines<T> {
    ghost holds = { λ setup s. Kept T.fits setup.key setup.chairs s.words s.homes s.views };

    ghost first = { λ setup. opener setup.key setup.chairs };
}

// A fetch and add on a cell's next ticket.
pub struct Draw;

impl<T, K> Play<Option<T>, View<T, K>> for Draw {
    ghost then = { λ st me n now. Draws st.word me.0 n now.0 × (now.1 ≡ me.1) };
}

// A load of a cell's served number; where it is the ticket's, the cell's slot comes out.
pub struct Looking<T> {
    of: PhantomData<T>,
}

impl<T: Carried> Play<Option<T>, View<T, T::Key>> for Looking<T> {
    ghost then = { λ st me n now. Looks T.fits me n now };
}

// A load of a cell's next ticket.
pub struct Count;

impl<T, K> Play<Option<T>, View<T, K>> for Count {
    ghost then = { λ st me n now. Counts me.0 n now.0 × (now.1 ≡ me.1) };
}

// A store of a cell's served number; the cell's slot goes back.
pub struct Leave;

impl<T, K> Play<Option<T>, View<T, K>> for Leave {
    ghost then = { λ st me n now. LeavesQueue me now };
}

// A chair is made.
pub struct Seating;

impl<T, K> Split<View<T, K>> for Seating {
    ghost left = { less_one };

    ghost right = { new_chair };
}

// A chair is taken in.
pub struct Gathering;

impl<T, K> Join<View<T, K>> for Gathering {
    ghost both = { both };

    ghost spent = { spent };
}

/// What the table's rule says of a cell at every moment, in every schedule of the chairs: its line agrees with its two
/// words, its value and the chairs' calls.
pub fn lines_agree<T: Carried>()
    ensures { (key : T.Key) (chairs : ℕ) (words : List ℕ) (homes : List (maybe.Option (Option T))) (views : List (View T T.Key)) → Kept T.fits key chairs words homes views → (c : ℕ) (h : maybe.Option (Option T)) → get_elem? homes c ≡ maybe.some h → LineAgrees (T.fits key) c (slice_index words c) (slice_index words (length homes + c)) h views }
{}
