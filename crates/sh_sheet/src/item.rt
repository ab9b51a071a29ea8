// What a sheet is read for, what a row asks for, and why a sheet isn't read.
ghost use Rattle.std.specs.Prelude.{◌≡◌};
ghost use Rattle.sh_sheet.specs.declared.item.SheetFault.TheVariants.{NoMemory};

use crate::RowCause;
use sh_map::Call;
use std::alloc::{AllocError, AllocFailed};

/// What a sheet is read for: a run by threads, a replay, or a feed of calls that are bound to no seat.
#[derive(Clone, Copy, Debug, PartialEq, Eq)]
pub enum Mode {
    Run,
    Replay,
    Feed,
}

/// What a row asks for.
#[derive(Clone, Copy, Debug)]
pub enum Item {
    /// A call by this seat.
    Ask { seat: u32, call: Call },
    /// A mark behind the seat's earlier calls.
    Mark { seat: u32, number: u64 },
    /// The seat's later calls wait for a mark.
    After { seat: u32, number: u64 },
    /// The seat takes so many turns.
    Turn { seat: u32, count: u64 },
}

/// Why a sheet wasn't read.
#[derive(Clone, Copy, Debug, PartialEq, Eq)]
pub enum SheetFault {
    /// This row is the first that is refused. Rows are numbered from 1.
    Row { row: u64, cause: RowCause },
    /// The sheet asks for too much.
    TooMany,
    /// Memory is wanting.
    NoMemory,
}

impl From<AllocError> for SheetFault {
    ghost from_gives = { λ _ e. e ≡ NoMemory };

    fn from(_: AllocError) -> Self {
        SheetFault::NoMemory
    }
}

impl<T: Drop> From<AllocFailed<T>> for SheetFault {
    ghost from_gives = { λ _ e. e ≡ NoMemory };

    fn from(_: AllocFailed<T>) -> Self {
        SheetFault::NoMemory
    }
}
