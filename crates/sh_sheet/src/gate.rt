// What a caller is told of the calls.

/// What is told of each call before it is begun, and when it has ended. It promises nothing.
pub trait Gate {
    /// The seat's call with this number is about to be begun. Calls are numbered from 1, in the sheet's order.
    fn before(&self, seat: u32, n: u64);

    /// The call has ended.
    fn after(&self, seat: u32, n: u64);
}

/// Does nothing.
#[derive(Clone, Copy, Debug)]
pub struct Free;

impl Gate for Free {
    fn before(&self, _seat: u32, _n: u64) {}

    fn after(&self, _seat: u32, _n: u64) {}
}
