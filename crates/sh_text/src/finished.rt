// A call that has ended.
use sh_map::{Call, Reply};

/// A finished call without its rows: its number, its seat, what it asked and was answered, and its two numbers of
/// points.
#[derive(Clone, Copy, Debug)]
pub struct Finished {
    pub n: u32,
    pub seat: u32,
    pub call: Call,
    pub reply: Reply,
    pub first: u64,
    pub point: u64,
}
