// How far the answers of a seat were told.

/// How many of a seat's replies were told, and how many of its rows.
#[derive(Clone, Copy, Debug)]
pub struct Cursor {
    pub(crate) reply: usize,
    pub(crate) row: usize,
}
