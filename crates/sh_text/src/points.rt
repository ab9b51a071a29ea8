// Whether a call's line says where in the log the call is answered.

/// Whether the lines of calls have a last column with the point in the log at which the call is answered.
#[derive(Clone, Copy, Debug, PartialEq, Eq)]
pub enum Points {
    Shown,
    Hidden,
}
