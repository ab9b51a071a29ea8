// The feed.
ghost use Rattle.std.specs.Prelude.{◌≡◌, ◌+◌, ◌-◌, ◌<◌, ◌≤◌, ◌^◌, ◌++◌, ◌∷◌, [], Some, List, length, map, vec_capacity, IfOk, OnErr, MatchOption, MatchResult};
ghost use Rattle.crossbeam_queue.specs.Passes.{view, IsPassOf, ruled_capacity};
ghost use Rattle.sh_base.specs.Parts.{parts_of};
ghost use Rattle.sh_feed.specs.{Jobs.{AreNumbered, FeedKept, FitsJob, MayFollow, RiseFrom}, Views.{opener, opened, giver_view, tokens_of}, Lines.{line_id}};
ghost use Rattle.sh_feed.specs.Feeds.{blank, open_at, gathered, setup_of, IsOpen, IsOpenAt, AllAt, IsStarted, GiverSaw, TakerSaw, fresh_takers, took_by};

use crate::desk::Desk;
use crate::job::Job;
use crate::rule::{Ends, Gathering, Line, Opening, Seating, Sets, Token};
use crate::state::State;
use crate::token::{Giver, Taker};
use sh_base::Config;
use std::alloc::{AllocError, Global};
use std::marker::{Brand, Model};
use std::mem;
use std::snapshot::Snapshot;
use std::sync::Wait;

const PLACES: usize = 1024;

/// A feed of jobs: a giver puts them in, in order, and takers take them out.
#[derive(Drop)]
pub struct Feed {
    state: State,
}

impl Model for Feed {
    ghost use Rattle.sh_feed.specs.Feeds.{FeedState, state_of};

    ghost Value = { FeedState };

    ghost view = { λ f. state_of f.state };
}

impl Feed {
    /// A feed that wasn't started.
    pub fn blank() -> Feed
        ensures { result ≡ blank }
    {
        Feed {
            state: State::Blank,
        }
    }

    /// The desk of a feed in use, which threads may share: `give` and `take` are its calls.
    pub fn desk(&self) -> &Desk
        requires { IsOpen self.now }
        ensures { self.now ≡ open_at result.now }
    {
        match &self.state {
            State::Open(desk) => desk,
            State::Blank => unreachable!(),
            State::Gathered(_) => unreachable!(),
        }
    }

    /// Starts the feed for so many takers, which are numbered from 0. All memory is taken here. Conditions: the feed is
    /// blank, and there are 1 to 64 takers.
    pub fn start(
        &mut self,
        alloc: Global,
        config: &Config,
        takers: u32,
    ) -> Result<(Giver, Vec<Taker>), AllocError>
        requires blank { self.old ≡ blank }
        requires takers { (1 ≤ takers) × (takers ≤ 64) }
        ensures started { IfOk result (λ r. IsStarted (parts_of config.now) takers self.new r.0 r.1.items) }
        ensures failed { OnErr result (self.new ≡ self.old) }
    {
        let seats = Vec::with_capacity(alloc, takers as usize)?;
        let (line, mut pass) = Line::ruled(alloc, PLACES)?;
        open::<Brand>(&line, &mut pass, config, takers);
        let (pass, seats) = seat_all(&line, pass, takers, seats);
        self.state = State::Open(Desk { line });
        Ok((Giver { pass }, seats))
    }

    /// Gives a job. `Err` where the queue is full: the job comes back, and nothing has changed; that comes only where 1,024
    /// jobs were given. Conditions: the giver is of this feed; an Ask has the number after the last, is in range, and no
    /// End was given before; and fewer than 2^62 - 1 jobs were given.
    pub fn give<R: Wait>(&self, rt: &R, giver: &mut Giver, job: Job) -> Result<(), Job>
        requires at { IsOpenAt self.now giver.old.feed }
        requires follows { MayFollow giver.old.setup 1 giver.old.gave job }
        requires few { length giver.old.gave < 2 ^ 62 - 1 }
        ensures same { (giver.new.feed ≡ giver.old.feed) × (giver.new.setup ≡ giver.old.setup) }
        ensures gave { MatchResult result (λ _. giver.new.gave ≡ giver.old.gave ++ job ∷ []) (λ back. (back ≡ job) × (giver.new.gave ≡ giver.old.gave) × GiverSaw 1024 giver.old) }
    {
        self.desk().give(rt, giver, job)
    }

    /// Takes a job, the first in the queue. `None` where the queue is empty: nothing has changed. An Ask is in range, and the
    /// taker's numbers rise. Condition: the taker is of this feed.
    pub fn take<R: Wait>(&self, rt: &R, taker: &mut Taker) -> Option<Job>
        requires at { IsOpenAt self.now taker.old.feed }
        ensures same { (taker.new.feed ≡ taker.old.feed) × (taker.new.number ≡ taker.old.number) × (taker.new.setup ≡ taker.old.setup) }
        ensures took { MatchOption result ((taker.new.took ≡ taker.old.took) × TakerSaw 0 taker.old) (λ job. (taker.new.took ≡ taker.old.took ++ job ∷ []) × FitsJob taker.old.setup job × RiseFrom 1 taker.new.took) }
    {
        self.desk().take(rt, taker)
    }

    /// Takes in the giver and all takers. Condition: they are of this feed, each once.
    pub fn gather(&mut self, giver: Giver, takers: Vec<Taker>)
        requires at { IsOpenAt self.old giver.feed × AllAt giver.feed takers.items }
        requires all { tokens_of giver.setup ≡ length takers.items + 1 }
        ensures gathered { self.new ≡ gathered giver.gave (map took_by takers.items) }
        ensures numbered { AreNumbered giver.setup 1 giver.gave }
        ensures kept { (left : List Job) × FeedKept giver.gave (map took_by takers.items) left }
    {
        let State::Open(desk) = mem::replace(&mut self.state, State::Blank) else {
            unreachable!()
        };
        let Desk { line } = desk;
        let Giver { pass } = giver;
        let mut pass = take_in(&line, pass, takers);
        line.learn_as::<Ends>(&mut pass);
        self.state = State::Gathered(Snapshot::of(&pass));
    }
}

// Tells the setup. Condition: the first token.
fn open<J: Sets>(line: &Line, pass: &mut Token, config: &Config, takers: u32)
    requires pass { IsPassOf line.now pass.old × (view pass.old ≡ opener) }
    requires setup { J.setup ≡ Some (setup_of (parts_of config.now) takers) }
    ensures { IsPassOf line.now pass.new × (view pass.new ≡ opened (Some (setup_of (parts_of config.now) takers))) }
{
    drop(line.another::<Opening<J>>(pass));
}

// Makes the takers. Conditions: the token stands for them all, and their room is reserved.
fn seat_all(line: &Line, maker: Token, takers: u32, seats: Vec<Taker>) -> (Token, Vec<Taker>)
    requires maker { IsPassOf line.now maker × (view maker ≡ giver_view (view maker).setup (takers + 1) [] []) }
    requires room { (seats.items ≡ []) × (takers ≤ vec_capacity seats) }
    ensures maker { IsPassOf line.now result.0 × (view result.0 ≡ giver_view (view maker).setup 1 [] []) }
    ensures seats { result.1.items ≡ fresh_takers (line_id line.now) (view maker).setup takers }
{
    let mut maker = maker;
    let mut seats = seats;
    let mut made = 0;
    while made < takers {
        let pass = line.another::<Seating>(&mut maker);
        seats.push_reserved(Taker { number: made, pass });
        made += 1;
    }
    (maker, seats)
}

// The giver's token, which takes in all takers. Condition: they are of this feed.
fn take_in(line: &Line, giver: Token, takers: Vec<Taker>) -> Token
    requires giver { IsPassOf line.now giver × (view giver ≡ giver_view (view giver).setup 1 (view giver).gave []) }
    requires takers { AllAt (line_id line.now) takers.items }
    ensures { IsPassOf line.now result × (view result ≡ giver_view (view giver).setup (length takers.items + 1) (view giver).gave (map took_by takers.items)) }
{
    let mut takers = takers;
    let mut giver = giver;
    while let Some(taker) = takers.pop() {
        let Taker { number: _, pass } = taker;
        line.absorb::<Gathering>(&mut giver, pass);
    }
    giver
}
