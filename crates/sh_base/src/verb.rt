// The steps of a READ and of a WRITE.
ghost use Rattle.std.specs.Prelude.{◌≡◌, ◌<◌, Bool, ℕ};
ghost use Rattle.sh_base.specs.{Parts.{parts_of}, Setting.{all_locks, entry_size, node_size, IsNode}, Layout.{entry_at}};
ghost use Rattle.sh_base.specs.Plans.{IsReadOf, read_steps, read_at, unlocked_word, IsWriteOf, IsUnlockOf, write_steps, place_of, FallsOver, RisesOver};

use crate::{Config, Place, ReadPlan, WritePlan};

impl ReadPlan {
    /// The READ of a node. Condition: a node of this setting.
    pub fn node(cfg: &Config, node: u32) -> ReadPlan
        requires { IsNode (parts_of cfg.now) node }
        ensures { IsReadOf (parts_of cfg.now) node result }
    {
        ReadPlan {
            first: cfg.node_word(node),
            count: cfg.node_size(),
        }
    }

    /// How many loads there are: one a word of the node.
    pub fn steps(&self) -> u32
        ensures { result ≡ read_steps self.now }
    {
        self.count
    }

    /// The address of a load. Addresses fall from the node's last word to its first. Condition: `step < steps`.
    pub fn at(&self, step: u32) -> u32
        requires { step < read_steps self.now }
        ensures { result ≡ read_at self.now step }
    {
        self.first + (self.count - 1 - step)
    }
}

impl WritePlan {
    /// The WRITE of a whole node, and where `unlock` is true of its lock word. Condition: a node of this setting.
    pub fn node(cfg: &Config, node: u32, unlock: bool) -> WritePlan
        requires { IsNode (parts_of cfg.now) node }
        ensures { IsWriteOf (parts_of cfg.now) node 0 (node_size (parts_of cfg.now)) unlock result }
    {
        WritePlan {
            first: cfg.node_word(node),
            offset: 0,
            count: cfg.node_size(),
            lock: unlocked_word(cfg, node, unlock),
        }
    }

    /// The WRITE of one entry of a leaf, and where `unlock` is true of its lock word. Condition: a node and an entry
    /// of this setting.
    pub fn entry(cfg: &Config, node: u32, index: u32, unlock: bool) -> WritePlan
        requires node { IsNode (parts_of cfg.now) node }
        requires index { index < (parts_of cfg.now).leaf }
        ensures { IsWriteOf (parts_of cfg.now) node (entry_at (parts_of cfg.now) index) (entry_size (parts_of cfg.now)) unlock result }
    {
        WritePlan {
            first: cfg.node_word(node),
            offset: cfg.entry_at(index),
            count: cfg.entry_size(),
            lock: unlocked_word(cfg, node, unlock),
        }
    }

    /// The store of 0 to a lock word alone. Condition: a lock of this setting.
    pub fn unlock(cfg: &Config, lock: u32) -> WritePlan
        requires { lock < all_locks (parts_of cfg.now) }
        ensures { IsUnlockOf (parts_of cfg.now) lock result }
    {
        WritePlan {
            first: 0,
            offset: 0,
            count: 0,
            lock: Some(cfg.lock_word(lock)),
        }
    }

    /// How many stores there are.
    pub fn steps(&self) -> u32
        ensures { result ≡ write_steps self.now }
    {
        match self.lock {
            Some(_) => self.count + 1,
            None => self.count,
        }
    }

    /// Where a step stores. Addresses of the body rise; the lock word, where there is one, is the last place.
    /// Condition: `step < steps`.
    pub fn place(&self, step: u32) -> Place
        requires { step < write_steps self.now }
        ensures { result ≡ place_of self.now step }
    {
        if let Some(at) = self.lock
            && step == self.count
        {
            return Place::Lock { at };
        }
        Place::Body {
            at: self.first + (self.offset + step),
            offset: self.offset + step,
        }
    }
}

// The lock word of a node, where it is to be given back.
fn unlocked_word(cfg: &Config, node: u32, unlock: bool) -> Option<u32>
    requires { IsNode (parts_of cfg.now) node }
    ensures { result ≡ unlocked_word (parts_of cfg.now) node unlock }
{
    if unlock {
        Some(cfg.lock_word(cfg.lock_of(node)))
    } else {
        None
    }
}

impl Config {
    /// The steps of verbs keep to their node: a READ loads each of its words once, falling; a WRITE of a node or of an
    /// entry stores each of its words once, rising, and its lock word last, where it gives the lock back.
    pub fn verbs_in_order(&self)
        ensures read { (n : ℕ) (plan : ReadPlan) → IsNode (parts_of self.now) n → IsReadOf (parts_of self.now) n plan → FallsOver (parts_of self.now) n plan }
        ensures write { (n : ℕ) (unlock : Bool) (plan : WritePlan) → IsNode (parts_of self.now) n → IsWriteOf (parts_of self.now) n 0 (node_size (parts_of self.now)) unlock plan → RisesOver (parts_of self.now) n 0 (node_size (parts_of self.now)) plan }
        ensures entry { (n i : ℕ) (unlock : Bool) (plan : WritePlan) → IsNode (parts_of self.now) n → i < (parts_of self.now).leaf → IsWriteOf (parts_of self.now) n (entry_at (parts_of self.now) i) (entry_size (parts_of self.now)) unlock plan → RisesOver (parts_of self.now) n (entry_at (parts_of self.now) i) (entry_size (parts_of self.now)) plan }
    {}
}
