// How the finishing rounds ended.

/// How the finishing rounds ended, with the turns that were made in them.
#[derive(Clone, Copy, Debug, PartialEq, Eq)]
pub enum Finish {
    /// Every call has ended.
    Done(u64),
    /// All turns were made, and a call hasn't ended.
    Spent(u64),
}
