// How the check of an input ended.

use sh_sheet::Status;

/// How the check of an input ended.
#[derive(Clone, Copy, Debug, PartialEq, Eq)]
pub enum PictureStatus {
    /// With `Ok` the picture is lawful and all lines were written; else why there is no verdict, or not all its lines.
    Served(Status),
    /// The bytes aren't the picture of a lawful tree, and the line that says so was written.
    NotLawful,
}
