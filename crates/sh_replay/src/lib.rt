//! Words and a sheet of calls in, lines out: the calls are served turn by turn over one pool, by the sheet's schedule.
#![tactic(auto)]

mod ending;
mod laws;
mod marks;
mod output;
mod replay;
mod serve;
mod tells;
mod turns;

pub use ending::Finish;
pub use laws::{replay_laws, replay_sure};
pub use replay::replay_top;
pub use sh_sheet::generate;
pub use sh_world::World;
pub use turns::finish;

#[cfg(test)]
mod tests;
