// A grab of a lock, and the two ways to give one up.

/// The grab of one lock by one seat: an exchange on the lock word, again until it finds the lock free.
#[derive(Clone, Copy, Debug)]
pub struct Grab {
    pub(crate) at: u32,
    pub(crate) owner: u64,
}

/// What a holder does with its lock: it hands the lock to the next one in its queue, or sets the lock word free.
#[derive(Clone, Copy, Debug, PartialEq, Eq)]
pub enum Release {
    Hand,
    Free,
}
