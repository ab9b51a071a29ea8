// The verbs on one node, word by word.
ghost use Rattle.std.specs.Prelude.{◌+◌, ◌≤◌};

/// The loads of a READ of one node: one word a step, from the node's last word down to its first.
#[derive(Clone, Copy, Debug)]
pub struct ReadPlan {
    pub(crate) first: u32,
    pub(crate) count: u32,
    ghost small: { first + count ≤ 4194304 },
}

/// Where a step of a WRITE stores: to a word of the node, at this address and this offset in the node, or to the
/// node's lock word.
#[derive(Clone, Copy, Debug, PartialEq, Eq)]
pub enum Place {
    Body { at: u32, offset: u32 },
    Lock { at: u32 },
}

/// The stores of a WRITE of a part of one node, rising, and last the node's lock word where it is given back.
#[derive(Clone, Copy, Debug)]
pub struct WritePlan {
    pub(crate) first: u32,
    pub(crate) offset: u32,
    pub(crate) count: u32,
    pub(crate) lock: Option<u32>,
    ghost small: { first + offset + count ≤ 4194304 },
}
