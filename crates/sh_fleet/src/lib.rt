//! Words and a sheet of calls in, lines out: each seat serves its calls in a thread of its own, over one running pool.
#![tactic(auto)]

mod answers;
mod board;
mod cursor;
mod laws;
mod output;
mod seat;
mod serve;
mod sharing;
mod threads;
mod top;
mod work;

pub use answers::{Answer, Answers};
pub use board::{Board, Naming};
pub use cursor::Cursor;
pub use laws::{run_laws, run_sure};
pub use sh_pool::Pool;
pub use sh_sheet::{Free, Gate};
pub use sharing::Share;
pub use threads::{Serves, Task};
pub use top::run_top;
pub use work::{Floor, Place, Work};

#[cfg(test)]
mod tests;
