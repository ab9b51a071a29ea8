// How many calls were answered in each way.

/// How many calls were answered in each way: by a value, by none, by all rows of a range, by a part of them, by `Full`
/// and by `Worn`.
#[derive(Clone, Copy, Debug, PartialEq, Eq)]
pub struct Counts {
    pub some: u64,
    pub none: u64,
    /// Ranges whose rows go up to their high.
    pub rows: u64,
    /// Ranges whose rows stop below their high.
    pub part: u64,
    pub full: u64,
    pub worn: u64,
}
