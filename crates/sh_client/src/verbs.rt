// Steps inside a READ or a WRITE, and exchanges on a lock that is taken, which the client makes itself.
ghost use Rattle.std.specs.Prelude.{◌≡◌, ◌<◌, IfSome, length, true};
ghost use Rattle.sh_base.specs.Setting.{all_locks, pool_words};
ghost use Rattle.sh_client.specs.declared.state.Phase.TheVariants as phase;
ghost use Rattle.sh_client.specs.{Sound.{Stands}, Steps.{is_loading, is_storing, looks_of, StepGoesOn, HasLoaded, HasNextLoad, HasNextStore, HasStepped, HasStored}};

use crate::{Client, Filling, Giving, Phase, Step};
use sh_base::Event;
use sh_decide::Aim;
use sh_lock::Grab;

impl Client {
    /// The address of the wanted load, where it's one of a READ, and not its last one. None exactly where the wanted turn is
    /// another.
    #[inline]
    pub fn next_load(&self) -> Option<u32>
        ensures { HasNextLoad self.now result }
    {
        match self.phase {
            Phase::Read { .. } | Phase::ReadLocked { .. } => self.reading.next_inside(),
            _ => None,
        }
    }

    /// Takes the word of the load that `next_load` names, as `fed` does. Condition: there is one.
    #[inline]
    pub fn fed_load(&mut self, word: u64)
        requires { is_loading self.old ≡ true }
        ensures { StepGoesOn self.old self.new word }
    {
        self.reading.fed_inside(word);
    }

    /// The address and the word of the wanted store, where it's one of a WRITE, and not its last one. None exactly where the
    /// wanted turn is another.
    #[inline]
    pub fn next_store(&self) -> Option<(u32, u64)>
        ensures { HasNextStore self.now result }
    {
        match self.phase {
            Phase::Fill {
                fresh,
                done,
                filling,
            } => self.next_fill(fresh, done, filling),
            Phase::Body {
                carry,
                done,
                giving,
            } => self.next_body(carry, done, giving),
            _ => None,
        }
    }

    // The same for a fresh node.
    fn next_fill(&self, fresh: u32, done: u32, filling: Filling) -> Option<(u32, u64)>
        requires phase { self.now.phase ≡ phase.Fill fresh done filling }
        requires stands { Stands self.now (phase.Fill fresh done filling) }
        ensures { HasNextStore self.now result }
    {
        let size = self.cfg.node_size();
        if done + 1 == size {
            return None;
        }
        Some(self.store_fresh(fresh, done))
    }

    // And for what is to be written.
    fn next_body(&self, carry: Option<u32>, done: u32, giving: Giving) -> Option<(u32, u64)>
        requires phase { self.now.phase ≡ phase.Body carry done giving }
        requires stands { Stands self.now (phase.Body carry done giving) }
        ensures { HasNextStore self.now result }
    {
        let count = self.body.count();
        if done + 1 == count {
            return None;
        }
        Some(self.store_body(giving.node, done, giving.write))
    }

    /// Takes it that the store was made that `next_store` names, as `fed` does. Condition: there is one.
    #[inline]
    pub fn fed_store(&mut self)
        requires { is_storing self.old ≡ true }
        ensures { StepGoesOn self.old self.new 0 }
    {
        // The words are counted in a u32, so what is done fits.
        let _counts = (self.body.count(), self.fresh_words.count());
        match self.phase {
            Phase::Fill {
                fresh,
                done,
                filling,
            } => self.to(Phase::Fill {
                fresh,
                done: done + 1,
                filling,
            }),
            Phase::Body {
                carry,
                done,
                giving,
            } => self.to(Phase::Body {
                carry,
                done: done + 1,
                giving,
            }),
            _ => {}
        }
    }

    /// Makes the wanted load itself, where it's one of a READ, and not its last one: the client then stands as `fed` leaves
    /// it. None exactly where the wanted turn is another; then nothing changes. Condition: the words are a pool of its
    /// setting.
    #[inline]
    pub fn load_from(&mut self, words: &[u64]) -> Option<Step>
        requires { length words.now ≡ pool_words self.old.setting }
        ensures { HasLoaded words.now self.old self.new result }
    {
        match self.next_load() {
            Some(at) => {
                let found = words[at as usize];
                self.fed_load(found);
                Some(Step {
                    event: Event::Load { at },
                    found,
                })
            }
            None => None,
        }
    }

    /// Makes the wanted event itself, where it's a store of a WRITE, and not its last one, or an exchange on a lock word that
    /// isn't 0: the client then stands as `fed` leaves it, and nothing is to be logged. None exactly where the wanted turn
    /// is another; then nothing changes. Condition: the words are a pool of its setting.
    pub fn step(&mut self, words: &mut [u64]) -> Option<Step>
        requires { length words.old ≡ pool_words self.old.setting }
        ensures { HasStepped words.old words.new self.old self.new result }
    {
        match self.phase {
            Phase::Grab { aim, node } => self.grab_step(words, aim, node),
            _ => self.store_step(words),
        }
    }

    // Makes a store of a WRITE, where it isn't the last one.
    fn store_step(&mut self, words: &mut [u64]) -> Option<Step>
        requires { length words.old ≡ pool_words self.old.setting }
        ensures { HasStored words.old words.new self.old self.new result }
    {
        match self.next_store() {
            Some(store) => {
                let event = Event::Store {
                    at: store.0,
                    word: store.1,
                };
                let found = event.apply(words);
                self.fed_store();
                Some(Step { event, found })
            }
            None => None,
        }
    }

    /// The lock for whose ticket it looks: `Some` exactly where it wants a look.
    pub fn looks(&self) -> Option<u32>
        ensures here { result ≡ looks_of self.now }
        ensures within { IfSome result (λ lock. lock < all_locks self.now.setting) }
    {
        match self.phase {
            Phase::Look { .. } => Some(self.lock),
            _ => None,
        }
    }

    // Makes the exchange of a lock word, where it isn't 0.
    fn grab_step(&mut self, words: &[u64], aim: Aim, node: u32) -> Option<Step>
        requires pool { length words.now ≡ pool_words self.old.setting }
        requires phase { self.old.phase ≡ phase.Grab aim node }
        requires stands { Stands self.old (phase.Grab aim node) }
        ensures { HasStepped words.now words.now self.old self.new result }
    {
        let at = self.cfg.lock_word(self.lock);
        let found = words[at as usize];
        if found == 0 {
            return None;
        }
        let event = Grab::new(&self.cfg, self.lock, self.seat).event();
        Some(Step { event, found })
    }
}
