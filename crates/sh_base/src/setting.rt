// The numbers of a setting: which are lawful, and what follows from them.
ghost use Rattle.std.specs.Prelude.{◌≡◌, ◌<◌, ◌≤◌, MatchResult, None, Some};
ghost use Rattle.sh_base.specs.{Parts.{parts_of}, Setting.{nodes, all_locks, all_seats, entry_size, node_size, pool_words, last_version, last_entry_version, IsRanged, default_parts}};
ghost use Rattle.sh_base.specs.Faults.{outside, first_outside, fault_of};

use crate::{Config, ConfigFault, ConfigParts};

// The fault where a number is outside its range, else the one that was found behind it.
#[tactic(auto, unfolding(crate::specs::Faults::outside))]
fn outside(
    n: u32,
    low: u32,
    high: u32,
    fault: ConfigFault,
    next: Option<ConfigFault>,
) -> Option<ConfigFault>
    ensures { result ≡ outside n low high fault next }
{
    if low <= n && n <= high {
        next
    } else {
        Some(fault)
    }
}

// The first number that is out of its range. The last is tested first, so that the first fault stands.
#[tactic(auto, unfolding(crate::specs::Faults::first_outside))]
fn first_outside(p: &ConfigParts) -> Option<ConfigFault>
    ensures { result ≡ first_outside p.now None }
{
    let fault = outside(
        p.value_words,
        1,
        8,
        ConfigFault::ValueWords(p.value_words),
        None,
    );
    let fault = outside(p.cached, 0, 256, ConfigFault::Cached(p.cached), fault);
    let fault = outside(p.rows, 1, 4096, ConfigFault::Rows(p.rows), fault);
    let fault = outside(p.bits, 4, 48, ConfigFault::Bits(p.bits), fault);
    let fault = outside(p.bound, 0, 64, ConfigFault::Bound(p.bound), fault);
    let fault = outside(p.seats, 1, 8, ConfigFault::Seats(p.seats), fault);
    let fault = outside(p.computes, 1, 8, ConfigFault::Computes(p.computes), fault);
    let fault = outside(p.leaf, 4, 64, ConfigFault::Leaf(p.leaf), fault);
    let fault = outside(p.locks, 1, 1024, ConfigFault::Locks(p.locks), fault);
    let fault = outside(
        p.chunk_nodes,
        1,
        256,
        ConfigFault::ChunkNodes(p.chunk_nodes),
        fault,
    );
    let fault = outside(p.chunks, 1, 4096, ConfigFault::Chunks(p.chunks), fault);
    outside(p.servers, 1, 8, ConfigFault::Servers(p.servers), fault)
}

// The words of the pool, of numbers in their ranges.
#[tactic(auto, unfolding(crate::specs::Setting::pool_words, crate::specs::Setting::node_size, crate::specs::Setting::entry_size))]
fn pool_words(parts: &ConfigParts) -> u64
    requires { IsRanged parts.now }
    ensures { result ≡ pool_words parts.now }
{
    let servers = u64::from(parts.servers);
    let nodes = servers * u64::from(parts.chunks) * u64::from(parts.chunk_nodes);
    let node_size = 7 + (3 + u64::from(parts.value_words)) * u64::from(parts.leaf);
    2 + servers + servers * u64::from(parts.locks) + nodes * node_size
}

impl Default for ConfigParts {
    ghost is_default = { λ p. p ≡ default_parts };

    /// The numbers that stand where none is given, as each field says.
    fn default() -> ConfigParts {
        ConfigParts {
            servers: 2,
            chunks: 64,
            chunk_nodes: 32,
            locks: 64,
            leaf: 16,
            computes: 2,
            seats: 4,
            bound: 4,
            bits: 32,
            rows: 256,
            cached: 16,
            value_words: 1,
        }
    }
}

impl Default for Config {
    ghost is_default = { λ c. parts_of c ≡ default_parts };

    /// The setting of the default numbers: 4096 nodes of 71 words on two servers.
    fn default() -> Config {
        Config {
            parts: ConfigParts::default(),
        }
    }
}

impl Config {
    /// The setting of these numbers. The fields are tested in their order, and the first one out of its range is
    /// refused with its value; then `TooLarge` comes exactly where the pool would have more than 4,194,304 words.
    pub fn new(parts: ConfigParts) -> Result<Config, ConfigFault>
        ensures { MatchResult result (λ c. (parts_of c ≡ parts) × (fault_of parts ≡ None)) (λ f. fault_of parts ≡ Some f) }
    {
        if let Some(fault) = first_outside(&parts) {
            return Err(fault);
        }
        let words = pool_words(&parts);
        if words > 4_194_304 {
            return Err(ConfigFault::TooLarge(words));
        }
        Ok(Config { parts })
    }

    /// The numbers.
    pub fn parts(&self) -> ConfigParts
        ensures { result ≡ parts_of self.now }
    {
        self.parts
    }

    /// How many words the pool has.
    #[tactic(auto, unfolding(crate::specs::Setting::pool_words))]
    pub fn words(&self) -> u32
        ensures { result ≡ pool_words (parts_of self.now) }
    {
        2 + self.parts.servers + self.all_locks() + self.nodes() * self.node_size()
    }

    /// How many nodes the pool has. They are numbered from 1.
    pub fn nodes(&self) -> u32
        ensures { result ≡ nodes (parts_of self.now) }
    {
        self.parts.servers * self.parts.chunks * self.parts.chunk_nodes
    }

    /// The words of a leaf's entry: its front version, key, value and rear version.
    #[tactic(auto, unfolding(crate::specs::Setting::entry_size))]
    pub fn entry_size(&self) -> u32
        ensures { result ≡ entry_size (parts_of self.now) }
    {
        3 + self.parts.value_words
    }

    /// The words of a node.
    #[tactic(auto, unfolding(crate::specs::Setting::node_size))]
    pub fn node_size(&self) -> u32
        ensures { result ≡ node_size (parts_of self.now) }
    {
        7 + self.entry_size() * self.parts.leaf
    }

    /// The entries of a leaf.
    pub fn leaf(&self) -> u32
        ensures { result ≡ (parts_of self.now).leaf }
    {
        self.parts.leaf
    }

    /// The words of a value.
    pub fn value_words(&self) -> u32
        ensures { result ≡ (parts_of self.now).value_words }
    {
        self.parts.value_words
    }

    /// The last version of a node.
    pub fn last_version(&self) -> u64
        ensures { result ≡ last_version (parts_of self.now) }
    {
        (1 << self.parts.bits) - 1
    }

    /// The last version of an entry.
    pub fn last_entry_version(&self) -> u64
        ensures { result ≡ last_entry_version }
    {
        15
    }

    /// How many seats there are. They are numbered from 0.
    pub fn all_seats(&self) -> u32
        ensures { result ≡ all_seats (parts_of self.now) }
    {
        self.parts.computes * self.parts.seats
    }

    /// How many locks the pool has. They are numbered from 0.
    pub fn all_locks(&self) -> u32
        ensures { result ≡ all_locks (parts_of self.now) }
    {
        self.parts.servers * self.parts.locks
    }
}
