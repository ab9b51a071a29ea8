// How a client gives a lock back.
ghost use Rattle.std.specs.Prelude.{◌≡◌, ◌≤◌};
ghost use Rattle.sh_base.specs.Parts.{parts_of};
ghost use Rattle.sh_client.specs.declared.state.Phase.TheVariants as phase;
ghost use Rattle.sh_client.specs.{Feeds.{fed_in}, Giving.{carried, counted, followed, released, writes_nothing, write_begun}, Sound.{IsCarry, IsGiving, IsLocked, IsThen, Stands}};
ghost use Rattle.sh_lock.specs.Locks.{release_of};

use crate::{Client, Giving, Phase, Then, Write};
use sh_base::Config;
use sh_lock::{Release, after_hold};

impl Client {
    // So many wait for the lock.
    pub(crate) fn fed_waiting(&mut self, depth: u32, giving: Giving, count: u64)
        requires { Stands self.old (phase.Waiting depth giving) }
        ensures { self.new ≡ fed_in self.old count (phase.Waiting depth giving) }
    {
        let carry = carry(&self.cfg, count, depth);
        self.write(carry, giving);
    }

    // Begins to store what is to be written, or where that's nothing gives the lock back.
    #[tactic(auto, using(crate::proofs::ImageLemmas::filled_some, crate::proofs::ImageLemmas::filled_body))]
    fn write(&mut self, carry: Option<u32>, giving: Giving)
        requires carry { IsCarry self.old.setting carry }
        requires giving { IsGiving self.old.setting self.old.registers.body giving }
        ensures { self.new ≡ write_begun self.old carry giving }
    {
        if writes_nothing(giving.write) {
            self.release(giving.node, carry, giving.after);
        } else {
            self.to(Phase::Body {
                carry,
                done: 0,
                giving,
            });
        }
    }

    // Hands the lock over, or sets its word free.
    fn release(&mut self, node: u32, carry: Option<u32>, after: Then)
        requires carry { IsCarry self.old.setting carry }
        requires locked { IsLocked self.old.setting node after }
        ensures { self.new ≡ released self.old node carry after }
    {
        match carry {
            Some(_) => self.to(Phase::Leave { node, carry, after }),
            None => self.to(Phase::Unlock { node, after }),
        }
    }

    // A word is stored that is to be written.
    pub(crate) fn fed_body(&mut self, carry: Option<u32>, done: u32, giving: Giving)
        requires { Stands self.old (phase.Body carry done giving) }
        ensures { self.new ≡ fed_in self.old 0 (phase.Body carry done giving) }
    {
        let count = self.body.count();
        if done + 1 == count {
            self.count_write(giving.write);
            self.release(giving.node, carry, giving.after);
        } else {
            self.to(Phase::Body {
                carry,
                done: done + 1,
                giving,
            });
        }
    }

    // Counts what was written.
    fn count_write(&mut self, write: Write)
        ensures { self.new ≡ counted self.old write }
    {
        match write {
            Write::Leaf => self.count_rewritten(),
            Write::LeftLeaf | Write::LeftInner => self.count_split(),
            _ => {}
        }
    }

    // The lock word is 0.
    pub(crate) fn fed_unlock(&mut self, node: u32, after: Then)
        requires { Stands self.old (phase.Unlock node after) }
        ensures { self.new ≡ fed_in self.old 0 (phase.Unlock node after) }
    {
        self.to(Phase::Leave {
            node,
            carry: None,
            after,
        });
    }

    // The queue is left.
    pub(crate) fn fed_leave(&mut self, node: u32, carry: Option<u32>, after: Then)
        requires { Stands self.old (phase.Leave node carry after) }
        ensures { self.new ≡ fed_in self.old 0 (phase.Leave node carry after) }
    {
        if carry.is_some() {
            self.count_handed();
        }
        self.follow(after);
    }

    // Does what follows.
    fn follow(&mut self, after: Then)
        requires { IsThen self.old.setting after }
        ensures { self.new ≡ followed self.old after }
    {
        match after {
            Then::Ends => self.to(Phase::Ended),
            Then::Starts { aim } => self.to(Phase::Root { aim }),
            Then::Takes { aim, node } => self.to(Phase::Draw { aim, node }),
        }
    }
}

// The depth with which a lock is handed over, where it is.
fn carry(cfg: &Config, count: u64, depth: u32) -> Option<u32>
    requires { depth ≤ cfg.now.parts.bound }
    ensures here { result ≡ carried depth (release_of count depth cfg.now.parts.bound) }
    ensures within { IsCarry (parts_of cfg.now) result }
{
    match after_hold(count, depth, cfg.parts().bound) {
        Release::Hand => Some(depth + 1),
        Release::Free => None,
    }
}

// Whether nothing is to be written.
fn writes_nothing(write: Write) -> bool
    ensures { result ≡ writes_nothing write }
{
    match write {
        Write::Nothing => true,
        _ => false,
    }
}
