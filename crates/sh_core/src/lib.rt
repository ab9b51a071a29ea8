//! Any number of clients over one pool: what holds at each moment, whatever the order of their turns. `sh_core_turns` has
//! the law of the turns, and `sh_core_says` what the invariant says.
#![tactic(auto)]
