//! What stands in memory, who holds what, and which node number is what; and what an act of one seat leaves to the others.
#![tactic(auto)]

ghost use Rattle.sh_base.specs.Parts.{parts_of};
ghost use Rattle.sh_state.specs.Laws.{JoinsAfter, JoinsBefore, NothingIsChange};

use sh_base::Config;

/// Two acts of a seat in one turn are one change to the others, where one of the two leaves the nodes and their WRITEs,
/// as each act does but a store into a node; and nothing done is one.
pub fn acts_join(cfg: &Config)
    ensures none { NothingIsChange (parts_of cfg.now) }
    ensures after { JoinsAfter (parts_of cfg.now) }
    ensures before { JoinsBefore (parts_of cfg.now) }
{}
