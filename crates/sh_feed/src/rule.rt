// The rule of the feed's queue, and what its steps tell.
ghost use Rattle.std.specs.Prelude.{◌≡◌, Option, []};
ghost use Rattle.sh_feed.specs.{declared.view.Setup.{Setup}, Jobs.{FitsJob, RiseFrom}, Rule.{Moment, Whole}};
ghost use Rattle.sh_feed.specs.Views.{nobody, opened, taker_view, less_one, both, gave_more, took_more};

use crate::job::Job;
use crate::view::{Setup, View};
use crossbeam_queue::protocol::{Join, Lesson, Outcome, Protocol, Split};
use crossbeam_queue::{Pass, RuledArrayQueue};
use std::marker::Brand;

pub struct InOrder;

impl Protocol<Job, View> for InOrder {
    ghost use Rattle.sh_feed.specs.Views.{opener};
    ghost use Rattle.sh_feed.specs.Rule.{Kept};

    ghost holds = { Kept };

    ghost first = { opener };
}

pub type Line = RuledArrayQueue<Job, View, InOrder>;

pub type Token = Pass<Job, View>;

/// The setup of a feed, for contracts alone.
pub trait Sets {
    ghost setup: { Option Setup };
}

impl Sets for Brand {
    ghost use Rattle.std.specs.Prelude.{None};

    ghost setup = { None };
}

// The setup is told, once.
pub struct Opening<J> {
    of: std::marker::PhantomData<J>,
}

impl<J: Sets> Split<View> for Opening<J> {
    ghost left = { λ v. opened J.setup };

    ghost right = { λ v. nobody };
}

// A taker is made.
pub struct Seating;

impl Split<View> for Seating {
    ghost left = { less_one };

    ghost right = { λ v. taker_view v.setup [] };
}

// A taker is taken in.
pub struct Gathering;

impl Join<View> for Gathering {
    ghost both = { both };

    ghost spent = { nobody };
}

// A job goes in at the back.
pub struct Gives;

impl Outcome<Job, View> for Gives {
    ghost then = { λ v x w. w ≡ gave_more v x };
}

impl Lesson<Job, View> for Gives {
    ghost fact = { Moment };
}

// A job comes out at the front.
pub struct Takes;

impl Outcome<Job, View> for Takes {
    ghost then = { λ v x w. (w ≡ took_more v x) × FitsJob v.setup x × RiseFrom 1 w.took };
}

impl Lesson<Job, View> for Takes {
    ghost fact = { Moment };
}

// What all tokens together know.
pub struct Ends;

impl Lesson<Job, View> for Ends {
    ghost fact = { Whole };
}
