// What a caller is told of the workers.

/// What is told of each worker before its stretch is begun, and when it is built. It promises nothing.
pub trait Hold {
    /// The worker's stretch is about to be begun. Workers are numbered from 0.
    fn before(&self, worker: u32);

    /// The worker's stretch is built.
    fn after(&self, worker: u32);
}

/// Does nothing.
#[derive(Clone, Copy, Debug)]
pub struct NoHold;

impl Hold for NoHold {
    fn before(&self, _worker: u32) {}

    fn after(&self, _worker: u32) {}
}
