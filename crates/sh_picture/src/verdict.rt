// What a picture's bytes are.

use crate::FirstPlace;
use sh_base::Config;
use sh_map::Rows;

/// What a picture's bytes are.
#[derive(Debug, Drop)]
pub enum Verdict {
    /// The picture of a lawful tree: its setting, and the keys and values that it holds, rising.
    Lawful { cfg: Config, pairs: Rows },
    /// They are no picture of a lawful tree, and this place says so first.
    Refused(FirstPlace),
}
