// The calls of a world, in columns.
use sh_base::Config;
use std::marker::Model;

// Which call it is.
#[derive(Clone, Copy, Debug, PartialEq, Eq)]
pub(crate) enum CallKind {
    Get,
    Put,
    Del,
    Range,
}

// How it was answered, or that it wasn't yet.
#[derive(Clone, Copy, Debug, PartialEq, Eq)]
pub(crate) enum ReplyKind {
    Waiting,
    Some,
    None,
    Rows,
    Full,
    Worn,
}

// What is kept of a call beside the words of its value and of its reply's value: its key, its seat, its two numbers of
// points, and where its rows begin in their column, and how many there are.
#[derive(Clone, Copy, Debug)]
pub(crate) struct Kept {
    pub(crate) key: u64,
    pub(crate) seat: u32,
    pub(crate) first: u32,
    pub(crate) point: u32,
    pub(crate) start: usize,
    pub(crate) count: u32,
    pub(crate) call: CallKind,
    pub(crate) reply: ReplyKind,
}

/// The calls that a world of this setting was given, in their order, and the rows of its ranges that have ended. Values
/// take as many words as the setting says, and no more: a call takes 40 bytes, and the words of two values; a row takes
/// its key's word and those of its value.
#[derive(Debug, Drop)]
pub struct Calls {
    pub(crate) cfg: Config,
    pub(crate) kept: Vec<Kept>,
    pub(crate) words: Vec<u64>,
    // The rows, in the order in which their ranges ended, and how many words the other ranges' rows may still take.
    pub(crate) rows: Vec<u64>,
    pub(crate) owed: usize,
}

impl Model for Calls {
    ghost use Rattle.std.specs.Vec.{vec_capacity};
    ghost use Rattle.sh_world.specs.Columns.{calls_of, AreColumns, Listed};

    ghost Value = { Listed };

    ghost view = { λ c. record { setting = c.cfg.parts; calls = calls_of c.cfg.parts.value_words c.kept.items c.words.items c.rows.items } };

    ghost invariant = { λ c. AreColumns c.cfg.parts c.kept.items c.words.items c.rows.items c.owed (vec_capacity c.rows) };
}
