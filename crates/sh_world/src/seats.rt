// A seat's turns, each on the parts of the world that it needs.
ghost use Rattle.std.specs.{Prelude.{◌≡◌, ◌==◌, not, if◌then◌else◌, ◌+◌, ◌-◌, ◌^◌, ◌<◌, ◌≤◌, ◌++◌, ℕ, [], IfSome, Some, length, slice_get, take, drop, vec_len}, Vec.{vec_capacity}};
ghost use Rattle.sh_base.specs.{Memory.{apply, at_of, found_by}, Setting.{pool_words}};
ghost use Rattle.sh_map.specs.Calls.{IsInRange};
ghost use Rattle.sh_client.specs.{declared.state.Phase.TheVariants.{Idle}, Feeds.{fed_by, turned_by}, Giving.{makes}, Steps.{HasLoaded, HasStepped}, Wants.{want_of, IsWithin}};
ghost use Rattle.sh_world.specs.{Turning.{asked, calls_after, is_idle, line_called, place_after, place_called, started, starts_next, place_stepped}, Seats.{CanAsk, CanSettle, CanStart}};

use crate::lines::behind;
use crate::points::point_of;
use crate::{Calls, Line, Seat};
use sh_base::Event;
use sh_client::{Step, Want};
use sh_map::{Call, Entry, Log};

impl Seat {
    // The turn that it wants. At rest it begins its next call with it, where one is left.
    pub(crate) fn ask(&mut self, calls: &Calls, seen: u64) -> Want
        requires { CanAsk calls.now.calls self.old }
        ensures seat { self.new ≡ asked calls.now.calls self.old seen }
        ensures want { result ≡ want_of self.new.client }
        ensures within { IsWithin self.new.client.setting result }
    {
        match self.client.want() {
            Want::Done => {
                self.start_next(calls, seen);
                self.client.want()
            }
            want => want,
        }
    }

    // It begins its next call, where one is left.
    fn start_next(&mut self, calls: &Calls, seen: u64)
        requires { (number : ℕ) → slice_get self.old.numbers self.old.ended ≡ Some number → CanStart calls.now.calls self.old number }
        ensures { self.new ≡ starts_next calls.now.calls self.old seen (slice_get self.old.numbers self.old.ended) }
    {
        if let Some(number) = self.numbers.get(self.ended as usize) {
            let number = *number;
            self.start(number, calls.get((number - 1) as usize).call, seen);
        }
    }

    // It begins a call.
    fn start(&mut self, number: u32, call: Call, seen: u64)
        requires idle { self.old.client.phase ≡ Idle }
        requires in_range { IsInRange self.old.client.setting call }
        ensures { self.new ≡ started self.old number call seen }
    {
        self.client.begin(call);
        self.number = number;
        self.seen = seen;
        self.first = seen;
        self.point = 0;
    }

    // Whether its client has nothing to do and no call is left.
    pub(crate) fn is_idle(&self) -> bool
        ensures { result ≡ is_idle self.now }
    {
        match self.client.want() {
            Want::Done => self.ended as usize == self.numbers.len(),
            _ => false,
        }
    }

    // It makes a load of a READ that isn't the last one, where its client wants one; the log is so long. None exactly where
    // it wants another turn; then nothing changes.
    #[inline]
    pub(crate) fn load(&mut self, words: &[u64], seen: u64) -> Option<Step>
        requires { length words.now ≡ pool_words self.old.client.setting }
        ensures step { HasLoaded words.now self.old.client self.new.client result }
        ensures seat { self.new ≡ place_stepped self.old self.new.client seen result }
    {
        match self.client.load_from(words) {
            Some(step) => {
                self.seen = seen;
                Some(step)
            }
            None => None,
        }
    }

    // It makes a store of a WRITE that isn't the last one, or an exchange on a lock that is taken, where its client wants
    // one; the log is so long. None exactly where it wants another turn; then nothing changes.
    pub(crate) fn store_or_fail(&mut self, words: &mut [u64], seen: u64) -> Option<Step>
        requires { length words.old ≡ pool_words self.old.client.setting }
        ensures step { HasStepped words.old words.new self.old.client self.new.client result }
        ensures seat { self.new ≡ place_stepped self.old self.new.client seen result }
    {
        match self.client.step(words) {
            Some(step) => {
                self.seen = seen;
                Some(step)
            }
            None => None,
        }
    }

    // It looks while its ticket isn't served; the log is so long. False exactly where its ticket is served; then nothing
    // changes.
    pub(crate) fn waits(&mut self, line: &Line, seen: u64) -> bool
        ensures served { result ≡ not (line.now.served == self.old.ticket) }
        ensures seat { self.new ≡ (if result then record self.old { seen = seen } else self.old) }
    {
        if line.served == self.ticket {
            return false;
        }
        self.seen = seen;
        true
    }

    // It makes an event. The word that it found comes back.
    pub(crate) fn make(
        &mut self,
        event: Event,
        words: &mut [u64],
        log: &mut Log,
        calls: &mut Calls,
    ) -> u64
        requires at { at_of event < length words.old }
        requires room { vec_len log.old < vec_capacity log.old }
        requires settles { CanSettle calls.old.setting log.old.items calls.old.calls self.old (fed_by self.old.client (found_by words.old event)) }
        ensures found { result ≡ found_by words.old event }
        ensures words { words.new ≡ apply words.old event }
        ensures log { log.new.items ≡ log.old.items ++ makes self.old.client }
        ensures room { vec_capacity log.new ≡ vec_capacity log.old }
        ensures seat { self.new ≡ place_after self.old log.old.items (makes self.old.client) (fed_by self.old.client (found_by words.old event)) }
        ensures calls { calls.new.calls ≡ calls_after calls.old.calls self.old log.old.items (fed_by self.old.client (found_by words.old event)) }
        ensures setting { calls.new.setting ≡ calls.old.setting }
    {
        let seen = log.len() as u64;
        let found = event.apply(words);
        self.client.log_made(log);
        self.client.fed(found);
        self.settle(log, seen, calls);
        found
    }

    // It calls on a line, where its client wants that: it draws a ticket; it looks whether its ticket is served, and then
    // takes what was left; it counts the later tickets; or it leaves, with this for the next one.
    fn feed_line(&mut self, want: &Want, line: &mut Line)
        requires { IfSome line.old.left (λ d. d ≤ self.old.client.setting.bound) }
        ensures line { line.new ≡ line_called self.old line.old want.now }
        ensures seat { self.new ≡ place_called self.old line.old want.now }
    {
        match *want {
            Want::Draw { .. } => {
                self.ticket = line.next;
                line.next = line.next.wrapping_add(1);
                self.client.fed(self.ticket);
            }
            Want::Look { .. } => {
                if line.served == self.ticket {
                    self.client.fed_turn(line.left);
                    line.left = None;
                } else {
                    self.client.fed(line.served);
                }
            }
            Want::Waiting { .. } => self.client.fed(behind(line, self.ticket)),
            Want::Leave { carry, .. } => {
                line.served = line.served.wrapping_add(1);
                line.left = carry;
                self.client.fed(0);
            }
            Want::Event(_) | Want::Done => {}
        }
    }

    // It makes the call on a line that its client wants.
    pub(crate) fn call(&mut self, want: &Want, line: &mut Line, log: &[Entry], calls: &mut Calls)
        requires bound { IfSome line.old.left (λ d. d ≤ self.old.client.setting.bound) }
        requires settles { CanSettle calls.old.setting log.now calls.old.calls (place_called self.old line.old want.now) (place_called self.old line.old want.now).client }
        ensures line { line.new ≡ line_called self.old line.old want.now }
        ensures seat { self.new ≡ place_after (place_called self.old line.old want.now) log.now [] (place_called self.old line.old want.now).client }
        ensures calls { calls.new.calls ≡ calls_after calls.old.calls (place_called self.old line.old want.now) log.now (place_called self.old line.old want.now).client }
        ensures setting { calls.new.setting ≡ calls.old.setting }
    {
        self.feed_line(want, line);
        self.settle(log, log.len() as u64, calls);
    }

    // Its client was fed; before, the log was so long. A call that has ended is answered and taken away.
    fn settle(&mut self, log: &[Entry], seen: u64, calls: &mut Calls)
        requires seen { seen ≤ length log.now }
        requires one { length log.now ≤ seen + 1 }
        requires settles { CanSettle calls.old.setting (take seen log.now) calls.old.calls self.old self.old.client }
        ensures seat { self.new ≡ place_after self.old (take seen log.now) (drop seen log.now) self.old.client }
        ensures calls { calls.new.calls ≡ calls_after calls.old.calls self.old (take seen log.now) self.old.client }
        ensures setting { calls.new.setting ≡ calls.old.setting }
    {
        match self.client.reply() {
            Some(reply) => {
                let before = &log[..seen as usize];
                let place = (self.number - 1) as usize;
                let point = point_of(
                    before,
                    self.first,
                    self.point,
                    &calls.get(place).call,
                    &reply,
                );
                let rows = self.client.rows_told();
                calls.answer(place, &reply, rows, self.first as u32, point as u32);
                self.client.finish();
                self.ended += 1;
                self.seen = seen;
                self.first = seen;
            }
            None => {
                if seen < log.len() as u64 {
                    self.point = seen;
                }
                self.seen = log.len() as u64;
            }
        }
    }
}
