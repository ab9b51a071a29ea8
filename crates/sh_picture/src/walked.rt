// Where a walk came to.

// The nodes of a level, or the first number that isn't sound.
#[derive(Drop)]
pub(crate) enum LevelWalk {
    Whole(Vec<u32>),
    Unsound(u32),
}

// The nodes of all levels, from the top one down, or the first number that isn't sound and its level.
#[derive(Drop)]
pub(crate) enum Walk {
    Whole(Vec<Vec<u32>>),
    Unsound { level: u64, node: u32 },
}
