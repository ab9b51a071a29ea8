// Where the things of a pool lie, and the parts of a node.
ghost use Rattle.std.specs.Prelude.{◌≡◌, ◌<◌};
ghost use Rattle.sh_base.specs.{Parts.{parts_of}, Setting.{all_locks, all_seats, IsNode}, Layout.{counter_word, lock_word, node_word, server_of, lock_of, first_node, compute_of, entry_at, rear_at}};
ghost use Rattle.sh_base.specs.Places.{ArePlacesApart, StoresKeepApart};

use crate::Config;

impl Config {
    /// The address of a server's chunk counter. Condition: a server of this setting.
    pub fn counter_word(&self, server: u32) -> u32
        requires { server < (parts_of self.now).servers }
        ensures { result ≡ counter_word (parts_of self.now) server }
    {
        2 + server
    }

    /// The address of a lock word. Condition: a lock of this setting.
    pub fn lock_word(&self, lock: u32) -> u32
        requires { lock < all_locks (parts_of self.now) }
        ensures { result ≡ lock_word (parts_of self.now) lock }
    {
        2 + self.parts.servers + lock
    }

    /// The address of a node's first word. Condition: a node of this setting.
    pub fn node_word(&self, node: u32) -> u32
        requires { IsNode (parts_of self.now) node }
        ensures { result ≡ node_word (parts_of self.now) node }
    {
        2 + self.parts.servers + self.all_locks() + (node - 1) * self.node_size()
    }

    /// The server that a node stands on. Condition: a node of this setting.
    #[tactic(auto, unfolding(crate::specs::Layout::server_of))]
    pub fn server_of(&self, node: u32) -> u32
        requires { IsNode (parts_of self.now) node }
        ensures here { result ≡ server_of (parts_of self.now) node }
        ensures server { result < (parts_of self.now).servers }
    {
        (node - 1) / (self.parts.chunks * self.parts.chunk_nodes)
    }

    /// The lock of a node. Condition: a node of this setting.
    #[tactic(auto, unfolding(crate::specs::Layout::lock_of))]
    pub fn lock_of(&self, node: u32) -> u32
        requires { IsNode (parts_of self.now) node }
        ensures here { result ≡ lock_of (parts_of self.now) node }
        ensures lock { result < all_locks (parts_of self.now) }
    {
        let place = (node - 1) % (self.parts.chunks * self.parts.chunk_nodes);
        self.server_of(node) * self.parts.locks + place % self.parts.locks
    }

    /// The first node of a server's chunk. Condition: a server and a chunk of this setting.
    #[tactic(auto, unfolding(crate::specs::Layout::first_node))]
    pub fn first_node(&self, server: u32, chunk: u32) -> u32
        requires server { server < (parts_of self.now).servers }
        requires chunk { chunk < (parts_of self.now).chunks }
        ensures { result ≡ first_node (parts_of self.now) server chunk }
    {
        (server * self.parts.chunks + chunk) * self.parts.chunk_nodes + 1
    }

    /// The compute server of a seat. Condition: a seat of this setting.
    #[tactic(auto, unfolding(crate::specs::Layout::compute_of))]
    pub fn compute_of(&self, seat: u32) -> u32
        requires { seat < all_seats (parts_of self.now) }
        ensures { result ≡ compute_of (parts_of self.now) seat }
    {
        seat / self.parts.seats
    }

    /// The offset of an entry's first word in its leaf. Condition: an entry of a leaf of this setting.
    #[tactic(auto, unfolding(crate::specs::Layout::entry_at))]
    pub fn entry_at(&self, index: u32) -> u32
        requires { index < (parts_of self.now).leaf }
        ensures { result ≡ entry_at (parts_of self.now) index }
    {
        6 + self.entry_size() * index
    }

    /// The offset of a node's rear version.
    #[tactic(auto, unfolding(crate::specs::Layout::rear_at))]
    pub fn rear_at(&self) -> u32
        ensures { result ≡ rear_at (parts_of self.now) }
    {
        6 + self.entry_size() * self.parts.leaf
    }

    /// The pool's own word, the root word, the counters, the lock words and the nodes lie in the pool, each word at an
    /// address of its own, and there is no other word.
    pub fn places_apart(&self)
        ensures { ArePlacesApart (parts_of self.now) }
    {}

    /// A store of one word leaves each other place of the pool, each other node, and in a leaf each other entry; of the
    /// node and the entry that it is in it changes the word at its offset alone.
    pub fn stores_apart(&self)
        ensures { StoresKeepApart (parts_of self.now) }
    {}
}
