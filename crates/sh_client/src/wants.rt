// What a client wants.
ghost use Rattle.std.specs.Prelude.{◌≡◌, ◌≢◌, true, ◌+◌, ◌<◌, ◌≤◌, length, slice_index};
ghost use Rattle.sh_alloc.specs.{Chunks.{WantsEvent}, Walks.{walk_wants}};
ghost use Rattle.sh_base.specs.{Parts.{parts_of}, Layout.{lock_of, node_word}, Setting.{node_size, pool_words, IsNode}, declared.event.Event.TheVariants.{Store}};
ghost use Rattle.sh_lock.specs.Locks.{grab_of};
ghost use Rattle.sh_read.specs.Reads.{wanted};
ghost use Rattle.sh_client.specs.declared.state.Want.TheVariants as want;
ghost use Rattle.sh_client.specs.{Rests.{is_resting}, Sound.{IsFilled, IsLoading}, Wants.{count_of, load_of, lock_word_of, offset_of, want_of, HandsOver, IsWithin}};

use crate::{Client, Phase, Want, Write};
use sh_alloc::ChunkWant;
use sh_base::{Config, Event};
use sh_lock::Grab;

impl Client {
    /// The turn that it wants: an event on a word of the pool, or a call on the line of a lock of the setting. `Done`
    /// exactly where it has no call, or its call has ended.
    #[tactic(auto, using(crate::proofs::WithinLemmas::root_within))]
    pub fn want(&self) -> Want
        ensures here { result ≡ want_of self.now }
        ensures within { IsWithin self.now.setting result }
        ensures hands { HandsOver self.now.setting result }
        ensures done { result ≡ want.Done → is_resting self.now ≡ true }
        ensures rest { is_resting self.now ≡ true → result ≡ want.Done }
    {
        match self.phase {
            Phase::Idle | Phase::Ended => Want::Done,
            Phase::Root { .. } => Want::Event(Event::Load { at: 1 }),
            Phase::Read { .. } | Phase::ReadLocked { .. } => self.want_load(),
            Phase::Draw { node, .. } => Want::Draw {
                lock: self.cfg.lock_of(node),
            },
            Phase::Look { .. } => Want::Look { lock: self.lock },
            Phase::Grab { node, .. } => self.want_grab(node),
            Phase::Seek { .. } => self.want_count(),
            Phase::Fill { fresh, done, .. } => want_store(self.store_fresh(fresh, done)),
            Phase::Waiting { giving, .. } => Want::Waiting {
                lock: self.cfg.lock_of(giving.node),
            },
            Phase::Body { done, giving, .. } => {
                want_store(self.store_body(giving.node, done, giving.write))
            }
            Phase::Unlock { node, .. } => self.want_unlock(node),
            Phase::Leave { node, carry, .. } => Want::Leave {
                lock: self.cfg.lock_of(node),
                carry,
            },
            Phase::Swap { root, fresh, .. } => Want::Event(Event::Exchange {
                at: 1,
                old: u64::from(root),
                new: u64::from(fresh),
            }),
        }
    }

    // The READ's next word.
    fn want_load(&self) -> Want
        requires { IsLoading self.now.setting self.now.registers.reads }
        ensures event { result ≢ want.Done }
        ensures hands { HandsOver self.now.setting result }
        ensures here { result ≡ load_of (wanted self.now.setting self.now.registers.reads) }
        ensures within { IsWithin self.now.setting result }
    {
        match self.reading.want() {
            Some(at) => Want::Event(Event::Load { at }),
            None => Want::Done,
        }
    }

    // The walk's next event.
    fn want_count(&self) -> Want
        requires { WantsEvent (walk_wants self.now.setting self.now.registers.walk) }
        ensures event { result ≢ want.Done }
        ensures hands { HandsOver self.now.setting result }
        ensures here { result ≡ count_of (walk_wants self.now.setting self.now.registers.walk) }
        ensures within { IsWithin self.now.setting result }
    {
        match self.chunks.want() {
            ChunkWant::Event(event) => Want::Event(event),
            ChunkWant::Got { .. } => Want::Done,
            ChunkWant::AllSpent => Want::Done,
        }
    }

    // The exchange of a lock word.
    fn want_grab(&self, node: u32) -> Want
        requires { IsNode self.now.setting node }
        ensures here { result ≡ want.Event (grab_of self.now.setting (lock_of self.now.setting node) self.now.seat) }
        ensures within { IsWithin self.now.setting result }
    {
        let lock = self.cfg.lock_of(node);
        Want::Event(Grab::new(&self.cfg, lock, self.seat).event())
    }

    // The store of a word of a right half or a new root.
    pub(crate) fn store_fresh(&self, fresh: u32, done: u32) -> (u32, u64)
        requires node { IsNode self.now.setting fresh }
        requires done { done < length self.now.registers.fresh_words }
        requires size { length self.now.registers.fresh_words ≡ node_size self.now.setting }
        ensures here { result.0 ≡ node_word self.now.setting fresh + done }
        ensures word { result.1 ≡ slice_index self.now.registers.fresh_words done }
        ensures within { node_word self.now.setting fresh + done < pool_words self.now.setting }
    {
        let word = self.fresh_words.word(done);
        let at = address(&self.cfg, fresh, done);
        (at, word)
    }

    // The store of a word that is to be written.
    #[tactic(auto, using(sh_base::proofs::LayoutLemmas::node_size_is, sh_base::proofs::LayoutLemmas::rear_at_small))]
    pub(crate) fn store_body(&self, node: u32, done: u32, write: Write) -> (u32, u64)
        requires node { IsNode self.now.setting node }
        requires filled { IsFilled self.now.setting write self.now.registers.body }
        requires done { done < length self.now.registers.body }
        ensures here { result.0 ≡ node_word self.now.setting node + (offset_of self.now.setting write + done) }
        ensures word { result.1 ≡ slice_index self.now.registers.body done }
        ensures within { node_word self.now.setting node + (offset_of self.now.setting write + done) < pool_words self.now.setting }
    {
        let word = self.body.word(done);
        let at = address(&self.cfg, node, self.offset(write) + done);
        (at, word)
    }

    // Where in its node a write begins.
    #[tactic(auto, using(sh_base::proofs::LayoutLemmas::entry_high, sh_base::proofs::LayoutLemmas::node_size_is))]
    fn offset(&self, write: Write) -> u32
        requires { IsFilled self.now.setting write self.now.registers.body }
        ensures at { result ≡ offset_of self.now.setting write }
        ensures within { result + length self.now.registers.body ≤ node_size self.now.setting }
    {
        match write {
            Write::Entry { index } => self.cfg.entry_at(index),
            _ => 0,
        }
    }

    // The store of 0 to a lock word.
    fn want_unlock(&self, node: u32) -> Want
        requires { IsNode self.now.setting node }
        ensures here { result ≡ want.Event (Store (lock_word_of self.now.setting node) 0) }
        ensures within { IsWithin self.now.setting result }
    {
        let lock = self.cfg.lock_of(node);
        Want::Event(Event::Store {
            at: self.cfg.lock_word(lock),
            word: 0,
        })
    }
}

// The store of a word at an address.
fn want_store(store: (u32, u64)) -> Want
    ensures { result ≡ want.Event (Store store.0 store.1) }
{
    Want::Event(Event::Store {
        at: store.0,
        word: store.1,
    })
}

// The address of a node's word.
#[tactic(auto, using(sh_base::proofs::LayoutLemmas::node_word_high))]
fn address(cfg: &Config, node: u32, offset: u32) -> u32
    requires node { IsNode (parts_of cfg.now) node }
    requires offset { offset < node_size (parts_of cfg.now) }
    ensures here { result ≡ node_word (parts_of cfg.now) node + offset }
    ensures within { result < pool_words (parts_of cfg.now) }
{
    cfg.node_word(node) + offset
}
