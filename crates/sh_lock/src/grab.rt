// The exchange that takes a lock.
ghost use Rattle.std.specs.Prelude.{◌≡◌, ◌==◌, ◌<◌};
ghost use Rattle.sh_base.specs.{Parts.{parts_of}, Setting.{all_locks, all_seats}};
ghost use Rattle.sh_lock.specs.Locks.{event_of, grab_of};

use crate::Grab;
use sh_base::{Config, Event};

impl Grab {
    /// The grab of a lock by a seat. Conditions: a lock and a seat of this setting.
    pub fn new(cfg: &Config, lock: u32, seat: u32) -> Grab
        requires lock { lock < all_locks (parts_of cfg.now) }
        requires seat { seat < all_seats (parts_of cfg.now) }
        ensures { event_of result ≡ grab_of (parts_of cfg.now) lock seat }
    {
        Grab {
            at: cfg.lock_word(lock),
            owner: u64::from(cfg.compute_of(seat)) + 1,
        }
    }

    /// What is to be done now: the exchange of 0, on the lock word, to the number of the seat's compute server plus 1.
    pub fn event(&self) -> Event
        ensures { result ≡ event_of self.now }
    {
        Event::Exchange {
            at: self.at,
            old: 0,
            new: self.owner,
        }
    }

    /// Takes the word that the exchange found. True exactly where it is 0: the lock was free, and is the seat's now.
    /// Else the same exchange is to be made again.
    pub fn fed(&mut self, word: u64) -> bool
        ensures taken { result ≡ (word == 0) }
        ensures again { self.new ≡ self.old }
    {
        word == 0
    }
}
