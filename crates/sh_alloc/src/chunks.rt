// The walk over the counters.
ghost use Rattle.std.specs.Prelude.{◌≡◌, ◌<◌};
ghost use Rattle.sh_base.specs.{Parts.{parts_of}, Setting.{all_seats}};
ghost use Rattle.sh_alloc.specs.{Walks.{server_at, walk_start, walk_wants, walk_fed, walk_next, with_phase}, Chunks.{setting_of, walk_of, WantsEvent, IsWantOf}};

use crate::state::{Phase, Walk};
use crate::{ChunkWant, Chunks};
use sh_base::{Config, Event};

impl Chunks {
    /// A walk of a seat, that begins at server `seat mod servers`. Condition: a seat of this setting.
    pub fn new(cfg: &Config, seat: u32) -> Chunks
        requires { seat < all_seats (parts_of cfg.now) }
        ensures setting { setting_of result ≡ parts_of cfg.now }
        ensures walk { walk_of result ≡ walk_start (parts_of cfg.now) seat }
    {
        Chunks {
            cfg: *cfg,
            walk: Walk {
                first: seat % cfg.parts().servers,
                passed: 0,
                phase: Phase::Loading,
            },
        }
    }

    /// What is to be done now. At each server the counter is loaded, and where it is below the server's number of
    /// chunks one is added; the word found by the add is the chunk, where it's below too, and `Got` tells it. Else the
    /// next server's turn comes. `AllSpent` comes exactly where every counter was found at its limit.
    pub fn want(&self) -> ChunkWant
        ensures here { result ≡ walk_wants (setting_of self.now) (walk_of self.now) }
        ensures within { IsWantOf (setting_of self.now) result }
    {
        let server = self.server();
        match self.walk.phase {
            Phase::Loading => ChunkWant::Event(Event::Load {
                at: self.cfg.counter_word(server),
            }),
            Phase::Adding => ChunkWant::Event(Event::Add {
                at: self.cfg.counter_word(server),
            }),
            Phase::Found { chunk } => ChunkWant::Got { server, chunk },
            Phase::Spent => ChunkWant::AllSpent,
        }
    }

    /// Takes the word that the event found. Condition: an event is wanted.
    pub fn fed(&mut self, word: u64)
        requires { WantsEvent (walk_wants (setting_of self.old) (walk_of self.old)) }
        ensures walk { walk_of self.new ≡ walk_fed (setting_of self.old) (walk_of self.old) word }
        ensures setting { setting_of self.new ≡ setting_of self.old }
    {
        let chunks = u64::from(self.cfg.parts().chunks);
        if word >= chunks {
            self.go_on();
        } else if self.walk.phase == Phase::Loading {
            self.walk.phase = Phase::Adding;
        } else {
            self.walk.phase = Phase::Found { chunk: word as u32 };
        }
    }

    // The server whose turn it is.
    fn server(&self) -> u32
        ensures here { result ≡ server_at (setting_of self.now) (walk_of self.now) }
        ensures server { result < (setting_of self.now).servers }
    {
        (self.walk.first + self.walk.passed) % self.cfg.parts().servers
    }

    // Goes on to the next server, and at the last one ends.
    fn go_on(&mut self)
        ensures walk { walk_of self.new ≡ walk_next (setting_of self.old) (walk_of self.old) }
        ensures setting { setting_of self.new ≡ setting_of self.old }
    {
        if self.walk.passed + 1 < self.cfg.parts().servers {
            self.walk.passed += 1;
            self.walk.phase = Phase::Loading;
        } else {
            self.walk.phase = Phase::Spent;
        }
    }
}
