// What a seat's calls were answered.
ghost use Rattle.std.specs.Prelude.{◌≡◌, ◌+◌, ◌<◌, ◌≤◌, ◌∷◌, ◌++◌, [], length, vec_capacity, vec_len};

use sh_map::{Reply, Row};

/// A call's reply, and how many rows it has.
#[derive(Clone, Copy, Debug)]
pub struct Answer {
    pub reply: Reply,
    pub rows: u32,
}

/// The answers of a seat's calls, in their order, and the rows of all of them.
#[derive(Debug, Drop)]
pub struct Answers {
    pub(crate) replies: Vec<Answer>,
    pub(crate) rows: Vec<Row>,
}

// Puts rows behind others. Condition: there is room for them.
fn push_rows(rows: &mut Vec<Row>, more: &[Row])
    requires { vec_len rows.old + length more.now ≤ vec_capacity rows.old }
    ensures items { rows.new.items ≡ rows.old.items ++ more.now }
    ensures room { vec_capacity rows.old ≤ vec_capacity rows.new }
{
    for row in more {
        rows.push_reserved(*row);
    }
}

impl Answers {
    // Adds an answer with its rows. Condition: there is room for it.
    pub(crate) fn add(&mut self, reply: Reply, rows: &[Row])
        requires reply { vec_len self.old.replies < vec_capacity self.old.replies }
        requires rows { vec_len self.old.rows + length rows.now ≤ vec_capacity self.old.rows }
        requires few { length rows.now ≤ 4096 }
        ensures replies { self.new.replies.items ≡ self.old.replies.items ++ record { reply = reply; rows = length rows.now } ∷ [] }
        ensures rows { self.new.rows.items ≡ self.old.rows.items ++ rows.now }
        ensures room { vec_capacity self.old.replies ≤ vec_capacity self.new.replies }
        ensures row_room { vec_capacity self.old.rows ≤ vec_capacity self.new.rows }
    {
        self.replies.push_reserved(Answer {
            reply,
            rows: rows.len() as u32,
        });
        push_rows(&mut self.rows, rows);
    }
}
