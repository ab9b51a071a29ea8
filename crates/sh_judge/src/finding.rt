// What is found of a printed replay.
ghost use Rattle.std.specs.{Prelude.{◌≡◌, ◌++◌, IfOk, OnOk, codes, string_bytes}, Fmt.{decimal}};
ghost use Rattle.sh_judge.specs.FindingLine.{finding_line, misfit_rest};

use sh_map::Misfit;
use std::alloc::{AllocError, Global};
use std::fmt::Write;

/// What is found of a printed replay.
#[derive(Clone, Copy, Debug, PartialEq, Eq)]
pub enum Finding {
    /// The book of this many calls and entries is lawful, and the lines of the map and the last line are its map's.
    Lawful { calls: u64, entries: u64 },
    /// This is the first line that isn't in its place. Lines are numbered from 1.
    Line { at: u64 },
    /// This is the least place of the log that isn't the point of just one updating call. Places are numbered from 0.
    Place { at: u64 },
    /// This is the book's first misfit.
    Misfit(Misfit),
    /// This is the first line of the map that isn't the map's, or the last line where one is wanting.
    Map { line: u64 },
    /// The last line's numbers aren't the book's.
    End,
}

// A misfit's word, and what it is about.
fn push_misfit(text: &mut String, misfit: &Misfit) -> Result<(), AllocError>
    ensures { OnOk result (string_bytes text.new ≡ string_bytes text.old ++ misfit_rest misfit.now) }
{
    match *misfit {
        Misfit::Entry { at } => write!(text, "entry,{at}\n"),
        Misfit::Reply { n } => write!(text, "reply,{n}\n"),
        Misfit::Row { n } => write!(text, "row,{n}\n"),
        Misfit::Order { n } => write!(text, "order,{n}\n"),
    }
}

// A finding's line, at the end of a text.
fn push_finding(text: &mut String, finding: &Finding) -> Result<(), AllocError>
    ensures { OnOk result (string_bytes text.new ≡ string_bytes text.old ++ finding_line finding.now) }
{
    match *finding {
        Finding::Lawful { calls, entries } => write!(text, "lawful,{calls},{entries}\n"),
        Finding::Line { at } => write!(text, "line,{at}\n"),
        Finding::Place { at } => write!(text, "place,{at}\n"),
        Finding::Misfit(misfit) => {
            write!(text, "misfit,")?;
            push_misfit(text, &misfit)
        }
        Finding::Map { line } => write!(text, "map,{line}\n"),
        Finding::End => write!(text, "end\n"),
    }
}

/// A finding's line, with its line feed.
pub(crate) fn finding_line(alloc: Global, finding: &Finding) -> Result<String, AllocError>
    ensures { IfOk result (λ s. string_bytes s ≡ finding_line finding.now) }
{
    let mut text = String::new(alloc);
    push_finding(&mut text, finding)?;
    Ok(text)
}
