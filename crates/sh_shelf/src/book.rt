// The book of a shelf's offers, which only proofs read but for its length.
ghost use Rattle.std.specs.Prelude.{◌≡◌, ◌+◌, ◌<◌, ◌^◌, ◌++◌, ◌∷◌, [], length, MatchBool};
ghost use mathlib.Core.List.{IsPrefix};
ghost use Rattle.sh_shelf.specs.Book.{head_of};

use crate::route::Route;
use logbook::{Gain, Offer, Plain, Play, Rule, Seen, Start, Word};
use std::marker::Model;

/// The rule of the book.
pub struct Law;

impl Rule<Route, u64> for Law {
    ghost use Rattle.std.specs.Prelude.{[]};
    ghost use base.Fml.{ftrue};
    ghost use Rattle.sh_shelf.specs.Book.{IsKept};

    ghost holds = { λ cells log. IsKept cells log };

    ghost first = { [] };

    ghost hinted = { λ n log. Unit {0} };

    ghost shows = { λ log. [] };

    ghost keeps = { λ names log. ftrue };

    ghost moves = { λ ask before after answer. Unit {0} };
}

/// Callers trade nothing.
pub struct Nothing;

impl Gain<Route, u64> for Nothing {
    ghost use base.Fml.{ftrue};

    ghost after = { λ names about answer. ftrue };
}

/// A step that adds an offer.
pub struct Add;

impl Play<Route, u64> for Add {
    ghost use Rattle.sh_shelf.specs.Book.{Adds};

    ghost then = { Adds };
}

impl Plain<Route, Route, u64> for Add {
    ghost use Rattle.std.specs.Prelude.{None};

    ghost ask = { λ route. route };

    ghost state = { λ route. None };
}

/// The word that counts a book's offers.
pub type Head = Word<Route, u64, Law>;

/// A beginning of the offers that was seen.
#[derive(Drop)]
pub struct Front {
    count: u64,
    seen: Seen<Route, u64, Law>,
}

impl Model for Front {
    ghost use Rattle.std.specs.Prelude.{◌≡◌, length};
    ghost use Rattle.sh_shelf.specs.Book.{Fronted};

    ghost Value = { Fronted };

    ghost view = { λ f. record { book = f.seen.book; log = f.seen.log } };

    ghost invariant = { λ f. f.count ≡ length f.seen.log };
}

impl Front {
    /// A book with no offers.
    pub fn open() -> (Head, Front)
        ensures log { result.1.log ≡ [] }
        ensures head { result.0 ≡ head_of result.1.book }
    {
        let (seen, mut first, _second) = Seen::open(Start::alone(), 0, 0);
        let head = Word::tracked(0, &mut first);
        (head, Front { count: 0, seen })
    }

    pub fn count(&self) -> u64
        ensures { result ≡ length self.now.log }
    {
        self.count
    }

    /// A copy.
    pub fn again(&self) -> Front
        ensures { result ≡ self.now }
    {
        Front {
            count: self.count,
            seen: self.seen.again(),
        }
    }

    /// Two beginnings of one book: the shorter begins the longer.
    pub fn begins(&self, other: &Front) -> bool
        requires { self.now.book ≡ other.now.book }
        ensures { MatchBool result (IsPrefix self.now.log other.now.log) (IsPrefix other.now.log self.now.log) }
    {
        let mut both = self.seen.again();
        both.learn(&other.seen);
        if self.count <= other.count {
            return true;
        }
        false
    }

    /// Adds an offer to all that was seen, and says whether it did.
    pub fn add(&mut self, head: &Head, route: Route) -> bool
        requires head { head.now ≡ head_of self.old.book }
        requires room { length self.old.log < 2 ^ 63 }
        ensures { MatchBool result (self.new ≡ record self.old { log = self.old.log ++ route ∷ [] }) (Unit {0}) }
    {
        let mut offer: Offer<Route, u64, Law, Nothing> = self
            .seen
            .plain::<Nothing, Route, Add>(&route);
        let mut pen = self.seen.no_pen();
        let count = self.count;
        let found = head.compare_exchange::<Add, Nothing>(
            count,
            count + 1,
            &mut self.seen,
            &mut offer,
            &mut pen,
        );
        self.count = if found == count { count + 1 } else { found };
        found == count
    }
}
