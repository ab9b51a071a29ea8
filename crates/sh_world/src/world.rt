// The world: it is laid, its seats are given calls, and take turns.
ghost use Rattle.std.specs.Prelude.{◌≡◌, ◌+◌, ◌-◌, ◌^◌, ◌<◌, ◌≤◌, OnOk, OnErr, IfOk, length, slice_get};
ghost use Rattle.sh_base.specs.Parts.{parts_of};
ghost use Rattle.sh_map.specs.Calls.{IsInRange};
ghost use Rattle.sh_image.specs.Laid.{AreLaid};
ghost use Rattle.sh_world.specs.{States.{dones_by, dones_of, fresh_state, IsBlank}, Turning.{answer_of, give_of, is_idle_at, tally_at, turn_of, IsTurn}};

use crate::laid::{ended_calls, free_lines, fresh_seats};
use crate::lines::{line_at, wanted_lock};
use crate::{Calls, Turn, World};
use sh_base::Config;
use sh_client::{Tally, Want};
use sh_laid::laid_words;
use sh_map::{Book, Call, Entry};
use std::alloc::{AllocError, Global};

impl World {
    /// A world where nothing is laid. It takes no memory.
    pub fn blank(alloc: Global) -> World
        ensures { IsBlank result }
    {
        let cfg = Config::default();
        World {
            calls: Calls::new(alloc, &cfg),
            cfg,
            words: Vec::new(alloc),
            log: Vec::new(alloc),
            seats: Vec::new(alloc),
            lines: Vec::new(alloc),
        }
    }

    /// Whether the seat has no call under way and none left: then a turn of it changes nothing. Condition: it is
    /// laid, and the seat is one of its setting.
    pub fn is_idle(&self, seat: u32) -> bool
        requires { seat < length self.now.seats }
        ensures { result ≡ is_idle_at (slice_get self.now.seats seat) }
    {
        self.seats[seat as usize].is_idle()
    }

    /// How many calls of the seat have ended. Condition: it is laid, and the seat is one of its setting.
    pub fn done_calls(&self, seat: u32) -> u32
        requires { seat < length self.now.seats }
        ensures { result ≡ length (dones_by seat (dones_of self.now.calls)) }
    {
        self.seats[seat as usize].ended
    }

    /// What the seat's client has counted since the world was laid. Condition: it is laid, and the seat is one of its setting.
    pub fn tally(&self, seat: u32) -> Tally
        requires { seat < length self.now.seats }
        ensures { result ≡ tally_at (slice_get self.now.seats seat) }
    {
        self.seats[seat as usize].client.tally()
    }

    /// The setting that it was laid with; a blank one has the default setting.
    pub fn setting(&self) -> &Config
        ensures { parts_of result.now ≡ self.now.setting }
    {
        &self.cfg
    }

    /// How many seats it has: those of its setting, and none while it's blank.
    pub fn seats(&self) -> u32
        ensures { result ≡ length self.now.seats }
    {
        self.seats.len() as u32
    }

    /// The words of its pool.
    pub fn words(&self) -> &[u64]
        ensures { result.now ≡ self.now.words }
    {
        &self.words
    }

    /// The puts and deletes that were made, in their order.
    pub fn log(&self) -> &[Entry]
        ensures { result.now ≡ self.now.log }
    {
        &self.log
    }

    /// The calls in the order in which they were given, numbered from 1, and how those that have ended were answered.
    pub fn calls(&self) -> &Calls
        ensures { result.now.calls ≡ self.now.calls }
    {
        &self.calls
    }

    /// One turn of the seat: the one that its client wants. An event comes back with the word that it found, a call on a
    /// ticket line as `Local`. A seat that rests begins its next call with it, and a turn that ends a call leaves the
    /// seat ready for the next. `Idle` comes exactly where the seat has no call under way and none left; then nothing
    /// changes. It takes no memory. Condition: it is laid, and the seat is one of its setting.
    #[inline]
    pub fn turn(&mut self, seat: u32) -> Turn
        requires { seat < length self.old.seats }
        ensures world { self.new ≡ turn_of self.old seat }
        ensures answer { result ≡ answer_of self.old seat }
    {
        let seen = self.log.len() as u64;
        let asked = &mut self.seats[seat as usize];
        match asked.load(&self.words, seen) {
            Some(step) => Turn::Event(step.event, step.found),
            None => self.store_or_look(seat),
        }
    }

    // One turn of the seat: a store inside a WRITE or an exchange on a lock that is taken, or what else its client wants.
    #[inline(never)]
    fn store_or_look(&mut self, seat: u32) -> Turn
        requires { seat < length self.old.seats }
        ensures { IsTurn self.old seat self.new result }
    {
        let seen = self.log.len() as u64;
        let place = &mut self.seats[seat as usize];
        match place.store_or_fail(&mut self.words, seen) {
            Some(step) => Turn::Event(step.event, step.found),
            None => self.look_or_act(seat),
        }
    }

    // One turn of the seat: a look while its ticket isn't served, or what else its client wants.
    fn look_or_act(&mut self, seat: u32) -> Turn
        requires { seat < length self.old.seats }
        ensures { IsTurn self.old seat self.new result }
    {
        let seen = self.log.len() as u64;
        let place = &mut self.seats[seat as usize];
        if let Some(lock) = place.client.looks() {
            let line = &self.lines[line_at(&self.cfg, lock, seat)];
            if place.waits(line, seen) {
                return Turn::Local;
            }
        }
        self.act(seat)
    }

    // One turn of the seat: a call on a line, an event, or nothing, whatever its client wants.
    #[inline(never)]
    fn act(&mut self, seat: u32) -> Turn
        requires { seat < length self.old.seats }
        ensures { IsTurn self.old seat self.new result }
    {
        let place = &mut self.seats[seat as usize];
        let want = place.ask(&self.calls, self.log.len() as u64);
        if let Some(lock) = wanted_lock(&want) {
            let line = &mut self.lines[line_at(&self.cfg, lock, seat)];
            place.call(&want, line, &self.log, &mut self.calls);
            return Turn::Local;
        }
        match want {
            Want::Event(event) => {
                let found = place.make(event, &mut self.words, &mut self.log, &mut self.calls);
                Turn::Event(event, found)
            }
            _ => Turn::Idle,
        }
    }

    /// Gives the seat a call: it joins the seat's calls as the last. The places of its log entry, of its answer and of its
    /// rows are reserved, so that no turn takes memory. After want of memory nothing has changed. Conditions: it is laid, the
    /// seat is one of its setting, the call is in range, and fewer than 2^32 - 1 calls were given.
    pub fn give(&mut self, seat: u32, call: Call) -> Result<(), AllocError>
        requires seat { seat < length self.old.seats }
        requires in_range { IsInRange self.old.setting call }
        requires few { length self.old.calls < 2 ^ 32 - 1 }
        ensures ok { OnOk result (self.new ≡ give_of self.old seat call) }
        ensures err { OnErr result (self.new ≡ self.old) }
    {
        let number = self.calls.len() + 1;
        self.log.reserve(number + 1 - self.log.len())?;
        let given = &mut self.seats[seat as usize];
        given.numbers.reserve(1)?;
        self.calls.push(seat, &call)?;
        given.numbers.push_reserved(number as u32);
        Ok(())
    }

    /// Lays the pool of a setting: node 1 is the root and the empty leaf of all keys, the log is empty, and each seat has
    /// a client that has no call. After want of memory nothing has changed. Condition: blank.
    pub fn lay(&mut self, alloc: Global, cfg: &Config) -> Result<(), AllocError>
        requires { IsBlank self.old }
        ensures ok { OnOk result (self.new ≡ fresh_state (parts_of cfg.now) self.new.words) }
        ensures laid { OnOk result (AreLaid (parts_of cfg.now) self.new.words) }
        ensures err { OnErr result (self.new ≡ self.old) }
    {
        let words = laid_words(alloc, cfg)?;
        let seats = fresh_seats(alloc, cfg)?;
        let lines = free_lines(alloc, cfg)?;
        let log = Vec::with_capacity(alloc, 1)?;
        self.cfg = *cfg;
        self.calls = Calls::new(alloc, cfg);
        self.words = words;
        self.log = log;
        self.seats = seats;
        self.lines = lines;
        Ok(())
    }

    /// The log, and the calls that have ended with their rows, in the order in which they were given.
    pub fn book(&self, alloc: Global) -> Result<Book, AllocError>
        ensures log { IfOk result (λ b. b.log.items ≡ self.now.log) }
        ensures dones { IfOk result (λ b. b.dones.items ≡ dones_of self.now.calls) }
    {
        Ok(Book {
            log: Vec::from_slice(alloc, &self.log)?,
            dones: ended_calls(alloc, &self.calls)?,
        })
    }
}
