// What a descent is for, and what it leads to.

/// The post of a node: its number goes, with its low fence, into the node above it, which has this level.
#[derive(Clone, Copy, Debug, PartialEq, Eq)]
pub struct Posting {
    pub separator: u64,
    pub node: u32,
    pub level: u64,
}

/// What a descent is for: the call's own leaf, the rows of its range from a place on, or a post.
#[derive(Clone, Copy, Debug, PartialEq, Eq)]
pub enum Aim {
    Own,
    Gathers { place: u64 },
    Posts { post: Posting },
}

/// Where a READ without a lock leads: to the root word again, to a READ of a node below or to the right, to the lock of
/// a node, here or below or to the right, to a new root, to the call's reply, or to the rows of its range.
#[derive(Clone, Copy, Debug, PartialEq, Eq)]
pub enum Way {
    Root,
    Read { node: u32 },
    Right { node: u32 },
    Lock { node: u32 },
    LockRight { node: u32 },
    Grow,
    Found,
    Rows,
}

/// What a READ under the lock leads to: the descent starts again, the lock of the node to the right is taken, the key is
/// absent, an entry is written, the leaf is rewritten, the leaf can't be written any more, the node is split, the post is
/// skipped, or the node gets a pair more.
#[derive(Clone, Copy, Debug, PartialEq, Eq)]
pub enum Decision {
    Restart,
    Right { node: u32 },
    Absent,
    Entry { index: u32 },
    Rewrite { index: u32 },
    Worn { version: u64 },
    Split,
    Skip,
    Add,
}
