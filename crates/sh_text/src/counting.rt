// Counting the answers of calls, and the line of counts.
ghost use Rattle.std.specs.{Prelude.{◌≡◌, ◌++◌, ◌≤◌, ◌<◌, ◌-◌, ◌^◌, IfOk, OnOk, codes, string_bytes}, Fmt.{decimal}};
ghost use Rattle.sh_text.specs.Counts.{counts_line, counts_of, no_counts, with_answer};

use crate::Counts;
use crate::push::{push_last, push_number};
use sh_map::{Call, Done, Reply};
use std::alloc::{AllocError, Global};
use std::fmt::Write;

impl Counts {
    /// No call yet.
    pub fn none_yet() -> Counts
        ensures { result ≡ no_counts }
    {
        Counts {
            some: 0,
            none: 0,
            rows: 0,
            part: 0,
            full: 0,
            worn: 0,
        }
    }
}

/// Counts one more call that was answered so. Condition: no count stands at 2^64 - 1.
pub fn add_answer(counts: &mut Counts, call: &Call, reply: &Reply)
    requires some { counts.old.some < 2 ^ 64 - 1 }
    requires none { counts.old.none < 2 ^ 64 - 1 }
    requires rows { counts.old.rows < 2 ^ 64 - 1 }
    requires part { counts.old.part < 2 ^ 64 - 1 }
    requires full { counts.old.full < 2 ^ 64 - 1 }
    requires worn { counts.old.worn < 2 ^ 64 - 1 }
    ensures { counts.new ≡ with_answer counts.old call.now reply.now }
{
    match reply {
        Reply::Some(_) => counts.some += 1,
        Reply::None => counts.none += 1,
        Reply::Rows { upto } => match call {
            Call::Range { high, .. } if upto < high => counts.part += 1,
            _ => counts.rows += 1,
        },
        Reply::Full => counts.full += 1,
        Reply::Worn { .. } => counts.worn += 1,
    }
}

/// How many of these finished calls were answered in each way.
pub fn counts_of(dones: &[Done]) -> Counts
    ensures { result ≡ counts_of dones.now }
{
    let mut counts = Counts::none_yet();
    for done in dones {
        add_answer(&mut counts, &done.call, &done.reply);
    }
    counts
}

// The first three counts.
fn push_answers(text: &mut String, counts: &Counts) -> Result<(), AllocError>
    ensures { OnOk result (string_bytes text.new ≡ string_bytes text.old ++ ((decimal counts.now.some ++ codes ",") ++ ((decimal counts.now.none ++ codes ",") ++ (decimal counts.now.rows ++ codes ",")))) }
{
    push_number(text, counts.some)?;
    push_number(text, counts.none)?;
    push_number(text, counts.rows)
}

/// The line of counts, `counts,some,none,rows,part,full,worn` and a line feed.
#[tactic(auto, unfolding(crate::specs::Counts::counts_line))]
pub fn counts_line(alloc: Global, counts: &Counts) -> Result<String, AllocError>
    ensures { IfOk result (λ s. string_bytes s ≡ counts_line counts.now) }
{
    let mut text = String::new(alloc);
    write!(text, "counts,")?;
    push_answers(&mut text, counts)?;
    push_number(&mut text, counts.part)?;
    push_number(&mut text, counts.full)?;
    push_last(&mut text, counts.worn)?;
    Ok(text)
}
