// Why rows give no pool.

/// Why rows give no pool. Rows are counted from 0, and the first that isn't good is told.
#[derive(Clone, Copy, Debug, PartialEq, Eq)]
pub enum BulkFault {
    /// The key of row `at` is 0 or 2^64-1.
    BadKey { at: u64 },
    /// The key of row `at` isn't above that of the row before it.
    NotRising { at: u64 },
    /// All rows are good, and the tree needs more nodes than the pool has.
    NoRoom { need: u64, nodes: u64 },
    /// Memory is wanting.
    NoMemory,
}
