// The queue of a feed in use.
ghost use Rattle.std.specs.Prelude.{◌≡◌, ◌-◌, ◌<◌, ◌^◌, ◌++◌, ◌∷◌, [], length, MatchOption, MatchResult};
ghost use Rattle.sh_feed.specs.{Jobs.{FitsJob, MayFollow, RiseFrom}, Feeds.{GiverSaw, TakerSaw}};

use crate::job::Job;
use crate::rule::{Gives, Line, Takes};
use crate::token::{Giver, Taker};
use std::marker::Model;
use std::sync::Wait;

/// The queue of a feed in use, where jobs are given and taken; threads may share it.
#[derive(Drop)]
pub struct Desk {
    pub(crate) line: Line,
}

impl Model for Desk {
    ghost use Rattle.std.specs.Prelude.{◌≡◌};
    ghost use Rattle.atomic_table.specs.Seated.{TableId};
    ghost use Rattle.crossbeam_queue.specs.Passes.{ruled_capacity};
    ghost use Rattle.sh_feed.specs.Lines.{line_id};

    ghost Value = { TableId };

    ghost view = { λ d. line_id d.line };

    ghost invariant = { λ d. ruled_capacity d.line ≡ 1024 };
}

impl Desk {
    /// As `Feed::give`.
    pub fn give<R: Wait>(&self, rt: &R, giver: &mut Giver, job: Job) -> Result<(), Job>
        requires at { giver.old.feed ≡ self.now }
        requires follows { MayFollow giver.old.setup 1 giver.old.gave job }
        requires few { length giver.old.gave < 2 ^ 62 - 1 }
        ensures same { (giver.new.feed ≡ giver.old.feed) × (giver.new.setup ≡ giver.old.setup) }
        ensures gave { MatchResult result (λ _. giver.new.gave ≡ giver.old.gave ++ job ∷ []) (λ back. (back ≡ job) × (giver.new.gave ≡ giver.old.gave) × GiverSaw 1024 giver.old) }
    {
        self.line.push_as::<Gives, R>(rt, &mut giver.pass, job)
    }

    /// As `Feed::take`.
    pub fn take<R: Wait>(&self, rt: &R, taker: &mut Taker) -> Option<Job>
        requires at { taker.old.feed ≡ self.now }
        ensures same { (taker.new.feed ≡ taker.old.feed) × (taker.new.number ≡ taker.old.number) × (taker.new.setup ≡ taker.old.setup) }
        ensures took { MatchOption result ((taker.new.took ≡ taker.old.took) × TakerSaw 0 taker.old) (λ job. (taker.new.took ≡ taker.old.took ++ job ∷ []) × FitsJob taker.old.setup job × RiseFrom 1 taker.new.took) }
    {
        self.line.pop_as::<Takes, R>(rt, &mut taker.pass)
    }
}
