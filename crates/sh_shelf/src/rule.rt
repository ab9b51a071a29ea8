// What the keeper and the lookers know of the shelf.
ghost use Rattle.std.specs.Prelude.{◌≡◌, [], ◌++◌};
ghost use Rattle.sh_shelf.specs.Racked.{Holds, Puts, Sees};

use crate::rack::{Offered, Rack};
use atomic_table::{Join, Split};
use crossbeam_utils::rule::{Outcome, Protocol};
use left_right::writer::Writer;

/// States of the shelf that a seat has seen. No value of it is made.
pub type Known = [Rack; 0];

/// The rule of a shelf.
pub struct Shelved;

pub(crate) type Shown = Writer<Rack, Offered, Known, Shelved>;

impl Protocol<Rack, Known> for Shelved {
    ghost holds = { Holds };

    ghost first = { [] };
}

/// What a looker knows once it has entered.
pub struct Looks;

impl Outcome<Rack, Known> for Looks {
    ghost then = { λ v x y w. Sees v y w };
}

/// What the keeper knows once it has published.
pub struct Puts;

impl Outcome<Rack, Known> for Puts {
    ghost then = { Puts };
}

/// How a new looker is told which shelf it is of.
pub struct Notes;

impl Split<Known> for Notes {
    ghost left = { λ v. v };

    ghost right = { λ v. v };
}

impl Join<Known> for Notes {
    ghost both = { λ v w. w ++ v };

    ghost spent = { [] };
}
