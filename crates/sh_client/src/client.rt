// The client: what it wants, and what it does with what it's fed.
ghost use Rattle.std.specs.{Prelude.{◌≡◌, ◌≤◌, ◌<◌, [], ◌++◌, IfOk, IfSome, length, vec_len}, Vec.{vec_capacity}, List.{AllByRecursion}, Option.{option_map}};
ghost use Rattle.sh_base.specs.{Parts.{parts_of}, Setting.{all_seats}};
ghost use Rattle.sh_map.specs.Calls.{IsInRange};
ghost use Rattle.sh_client.specs.{declared.state.Phase.TheVariants.{Idle, Ended}, Machine.{fresh_machine}, Feeds.{begun, fed_by, finished, turned_by}, Giving.{makes, stored_entries}};
ghost use Rattle.sh_client.specs.Rests.{reply_of, rows_told};
ghost use Rattle.sh_image.specs.Inner.{Inner};
ghost use Rattle.sh_cache.specs.Cached.{found, HaveOwnLows};

use crate::{Client, Phase, Tally, Words, Write};
use sh_alloc::{Chunks, Spare};
use sh_base::Config;
use sh_cache::Cache;
use sh_decide::{aim_of, call_key};
use sh_image::InnerImage;
use sh_map::{Call, Log, Reply, Row, log_call};
use sh_read::Reading;
use std::alloc::{AllocError, Global};

impl Client {
    /// A client of a seat, that is idle and has no spare node. It takes all its memory here. Condition: a seat of this setting.
    pub fn new(alloc: Global, cfg: &Config, seat: u32) -> Result<Client, AllocError>
        requires { seat < all_seats (parts_of cfg.now) }
        ensures { IfOk result (λ c. c ≡ fresh_machine (parts_of cfg.now) seat) }
    {
        Ok(Client {
            cfg: *cfg,
            seat,
            spare: Spare::none(),
            tally: Tally::none(),
            call: Call::Get { key: 1 },
            reply: Reply::None,
            reading: Reading::new(cfg, 1),
            chunks: Chunks::new(cfg, seat),
            body: Words::none(),
            fresh_words: Words::none(),
            rows: Vec::with_capacity(alloc, cfg.parts().rows as usize)?,
            cache: Cache::new(alloc, cfg)?,
            origin: None,
            lock: 0,
            phase: Phase::Idle,
        })
    }

    /// Begins a call: at the child of the cached node that covers its key, and where there is none at the root word.
    /// Conditions: it's idle, and the call is in range.
    pub fn begin(&mut self, call: Call)
        requires idle { self.old.phase ≡ Idle }
        requires in_range { IsInRange self.old.setting call }
        ensures { self.new ≡ begun self.old call }
    {
        let origin = self.origin_for(call_key(&call));
        self.ask(call);
        match origin {
            Some(origin) => self.begin_at(origin),
            None => self.phase = Phase::Root {
                aim: aim_of(&self.call),
            },
        }
    }

    /// Takes what the wanted turn found: the event's word, the ticket, the number of a look that waits, the count of
    /// later tickets, or 0 behind the leaving of a queue. It changes nothing where no turn is wanted.
    pub fn fed(&mut self, word: u64)
        ensures { self.new ≡ fed_by self.old word }
    {
        match self.phase {
            Phase::Idle | Phase::Ended | Phase::Look { .. } => {}
            Phase::Root { aim } => self.fed_root(aim, word),
            Phase::Read { aim, top } => self.fed_read(aim, top, word),
            Phase::Draw { aim, node } => self.fed_draw(aim, node),
            Phase::Grab { aim, node } => self.fed_grab(aim, node, word),
            Phase::ReadLocked { aim, depth } => self.fed_hold(aim, depth, word),
            Phase::Seek { need } => self.fed_seek(need, word),
            Phase::Fill {
                fresh,
                done,
                filling,
            } => self.fed_fill(fresh, done, filling),
            Phase::Waiting { depth, giving } => self.fed_waiting(depth, giving, word),
            Phase::Body {
                carry,
                done,
                giving,
            } => self.fed_body(carry, done, giving),
            Phase::Unlock { node, after } => self.fed_unlock(node, after),
            Phase::Leave { node, carry, after } => self.fed_leave(node, carry, after),
            Phase::Swap {
                posting,
                root,
                fresh,
            } => self.fed_swap(posting, root, fresh, word),
        }
    }

    /// Takes a look that had its turn: with a depth the lock was handed over with it, and without one its word is to be
    /// taken. It changes nothing where no look is wanted. Condition: a depth is at most the setting's bound.
    pub fn fed_turn(&mut self, depth: Option<u32>)
        requires { IfSome depth (λ d. d ≤ self.old.setting.bound) }
        ensures { self.new ≡ turned_by self.old depth }
    {
        if let Phase::Look { aim, node } = self.phase {
            match depth {
                Some(depth) => self.handed(aim, node, depth),
                None => self.phase = Phase::Grab { aim, node },
            }
        }
    }

    /// The call's answer. `Some` exactly where the call has ended.
    pub fn reply(&self) -> Option<Reply>
        ensures { result ≡ reply_of self.now }
    {
        match self.phase {
            Phase::Ended => Some(self.reply),
            _ => None,
        }
    }

    /// Takes the answered call away: it's idle again. Condition: the call has ended.
    pub fn finish(&mut self)
        requires { self.old.phase ≡ Ended }
        ensures { self.new ≡ finished self.old }
    {
        self.phase = Phase::Idle;
    }

    /// The rows of the last range, as far as they are gathered.
    pub fn rows(&self) -> &[Row]
        ensures { result.now ≡ self.now.registers.rows }
    {
        &self.rows
    }

    /// The rows of the call that has ended: a range's, and none of any other call.
    pub fn rows_told(&self) -> &[Row]
        ensures { result.now ≡ rows_told self.now }
    {
        match self.call {
            Call::Range { .. } => &self.rows,
            _ => &[],
        }
    }

    /// Of the cached inner nodes of level 1 that cover a key the one with the greatest low fence. None exactly where none
    /// covers it.
    pub fn cached_row(&self, key: u64) -> Option<&InnerImage>
        ensures row { option_map (λ r. r.now) result ≡ found self.now.registers.cached key }
        ensures level { IfSome result (λ r. r.now.level ≡ 1) }
    {
        self.cache.find(key)
    }

    /// No two cached nodes have one low fence, there are no more than the setting says, and each is of level 1.
    pub fn cached_apart(&self)
        ensures apart { HaveOwnLows self.now.registers.cached }
        ensures within { length self.now.registers.cached ≤ self.now.setting.cached }
        ensures levels { AllByRecursion (λ (r : Inner). r.level ≡ 1) self.now.registers.cached }
    {
        self.cache.rows_apart();
    }

    /// Its seat.
    pub fn seat(&self) -> u32
        ensures { result ≡ self.now.seat }
    {
        self.seat
    }

    /// What it has counted since it was made.
    pub fn tally(&self) -> Tally
        ensures { result ≡ self.now.registers.tally }
    {
        self.tally
    }

    /// Logs what the wanted event makes: an update's entry at the last store of its entry, of its rewritten leaf or of
    /// its left half, and nothing at any other. Condition: there is room for one entry more.
    pub fn log_made(&self, log: &mut Log)
        requires { vec_len log.old < vec_capacity log.old }
        ensures items { log.new.items ≡ log.old.items ++ makes self.now }
        ensures room { vec_capacity log.new ≡ vec_capacity log.old }
    {
        match self.phase {
            Phase::Body { done, giving, .. } => self.log_stored(log, done, giving.write),
            _ => {}
        }
    }

    // Logs what a store of the body makes.
    fn log_stored(&self, log: &mut Log, done: u32, write: Write)
        requires room { vec_len log.old < vec_capacity log.old }
        requires done { done < length self.now.registers.body }
        ensures items { log.new.items ≡ log.old.items ++ stored_entries self.now done write }
        ensures room { vec_capacity log.new ≡ vec_capacity log.old }
    {
        let count = self.body.count();
        if done + 1 != count {
            return;
        }
        match write {
            Write::Entry { .. } | Write::Leaf | Write::LeftLeaf => {
                log_call(log, self.seat, &self.call, &self.reply);
            }
            _ => {}
        }
    }
}
