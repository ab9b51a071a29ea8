// How a run ended, as a code and as a text.
ghost use Rattle.std.specs.Prelude.{◌≡◌, ◌≤◌, length, Some};
ghost use Rattle.sh_sheet.specs.Status.{cause_text, row_text, status_code, status_text};

use arrayvec::ArrayString;
use itoa::Buffer;
use std::fmt;

/// The text of a status, which needs no memory.
pub type StatusText = ArrayString<48>;

/// Why a row of a sheet was refused. Its text is its name.
#[derive(Clone, Copy, Debug, PartialEq, Eq)]
pub enum RowCause {
    /// It hasn't four fields.
    FieldCount,
    /// Its first field is no operation.
    BadOp,
    /// It is a turn, in a sheet for a run by threads.
    TurnNotHere,
    /// A field that should be a number, a value or empty isn't.
    BadNumber,
    /// There is no such seat.
    BadSeat,
    /// It is about the key 0 or 2^64-1.
    BadKey,
    /// The high of a range is below its low.
    BadBounds,
    /// A mark stands twice, or is waited for before it stands.
    BadMark,
}

/// How a run ended.
#[derive(Clone, Copy, Debug, PartialEq, Eq)]
pub enum Status {
    /// The run was made and its output written.
    Ok,
    /// The words were refused.
    Usage,
    /// The source of the sheet failed.
    ReadFault,
    /// The sink of the output failed.
    WriteFault,
    /// The sheet has too many bytes.
    TooLong,
    /// A row of the sheet was refused. Rows are numbered from 1.
    BadRow { row: u64, cause: RowCause },
    /// The sheet asks for too much.
    TooMany,
    /// Memory is wanting.
    NoMemory,
    /// A call hadn't ended after this many turns.
    Unfinished { turns: u64 },
}

impl RowCause {
    /// Its name.
    pub fn name(self) -> &'static str
        ensures text { result.now ≡ cause_text self }
        ensures short { length result.now ≤ 11 }
    {
        match self {
            RowCause::FieldCount => "FieldCount",
            RowCause::BadOp => "BadOp",
            RowCause::TurnNotHere => "TurnNotHere",
            RowCause::BadNumber => "BadNumber",
            RowCause::BadSeat => "BadSeat",
            RowCause::BadKey => "BadKey",
            RowCause::BadBounds => "BadBounds",
            RowCause::BadMark => "BadMark",
        }
    }
}

impl fmt::Display for RowCause {
    ghost output = { λ cause. Some (cause_text cause) };

    fn fmt<W: fmt::Write>(&self, f: &mut fmt::Formatter<W>) -> fmt::Result {
        f.write_str(self.name())
    }
}

impl Status {
    /// The code that a program ends with: 0 for `Ok`, and 2 to 9 for the others in their order.
    pub fn code(&self) -> u8
        ensures { result ≡ status_code self.now }
    {
        match self {
            Status::Ok => 0,
            Status::Usage => 2,
            Status::ReadFault => 3,
            Status::WriteFault => 4,
            Status::TooLong => 5,
            Status::BadRow { .. } => 6,
            Status::TooMany => 7,
            Status::NoMemory => 8,
            Status::Unfinished { .. } => 9,
        }
    }
}

// A text of one part.
fn text_of(part: &str) -> StatusText
    requires { length part.now ≤ 48 }
    ensures { result.bytes ≡ part.now }
{
    let mut text = ArrayString::new();
    text.push_str(part);
    text
}

// The text of a row that is refused.
fn row_text(row: u64, cause: RowCause) -> StatusText
    ensures { result.bytes ≡ row_text row cause }
{
    let mut digits = Buffer::new();
    let mut text = text_of("row ");
    text.push_str(digits.format(row));
    text.push_str(" ");
    text.push_str(cause.name());
    text
}

impl Status {
    /// The text that tells it: `usage`, `read fault`, `write fault`, `too long`, `too many`, `no memory`, or `row R CAUSE`
    /// with the row's number and the cause's name; and none where the last line of the output tells it, with `Ok` and
    /// `Unfinished`.
    pub fn text(&self) -> StatusText
        ensures { result.bytes ≡ status_text self.now }
    {
        match *self {
            Status::Ok | Status::Unfinished { .. } => ArrayString::new(),
            Status::Usage => text_of("usage"),
            Status::ReadFault => text_of("read fault"),
            Status::WriteFault => text_of("write fault"),
            Status::TooLong => text_of("too long"),
            Status::BadRow { row, cause } => row_text(row, cause),
            Status::TooMany => text_of("too many"),
            Status::NoMemory => text_of("no memory"),
        }
    }
}

impl fmt::Display for Status {
    ghost output = { λ status. Some (status_text status) };

    fn fmt<W: fmt::Write>(&self, f: &mut fmt::Formatter<W>) -> fmt::Result {
        f.write_str(self.text().as_str())
    }
}
