//! What a READ of a node in the tree knows while it is under way, what it has found where it is accepted, where the hops
//! from there lead, and what a range gathers of the leaves that it reads.
#![tactic(auto)]

mod hops;
mod ranges;

ghost use Rattle.sh_base.specs.Parts.{parts_of};
ghost use Rattle.sh_readers.specs.Laws.{ActsKeepKnowledge, FedInnersStand, FedLeavesAreRight, FedReadsAreNeverOdd, FedReadsBegin, FedReadsGoOn, HandoversKeepKnowledge, InnerReadsStand, LeafReadsAreRight, LoadsAddKnowledge, ReadsAreNeverOdd, ReadsBeginKnowing};

pub use hops::{hops_lead_on, images_in_hand, rows_in_hand};
pub use ranges::ranges_gather;
use sh_base::Config;

/// What a READ of a linked node knows begins with the load of its rear version, and the load of the next lower word adds
/// to it. It is kept by whatever others do, and where a right goes from one to another. `first` is any length that the
/// log had before the READ began.
pub fn reads_know(cfg: &Config)
    ensures begin { ReadsBeginKnowing (parts_of cfg.now) }
    ensures load { LoadsAddKnowledge (parts_of cfg.now) }
    ensures act { ActsKeepKnowledge (parts_of cfg.now) }
    ensures handover { HandoversKeepKnowledge (parts_of cfg.now) }
{}

/// What a READ has found at its last load, where its versions agree. A leaf's words spell a leaf with the fences and the
/// next node that stand now, and what it holds, or lacks, of a key between the fences the map had at a point since
/// `first`. An inner node's words stand now. So no such READ is answered to be no node.
pub fn accepted_reads(cfg: &Config)
    ensures leaf { LeafReadsAreRight (parts_of cfg.now) }
    ensures inner { InnerReadsStand (parts_of cfg.now) }
    ensures never_odd { ReadsAreNeverOdd (parts_of cfg.now) }
{}

/// The same for the words that a READ was fed, from the node's last one on: it begins with the rear version, and is fed
/// the next lower word each time. When all were fed they are the node's, and were accepted or not.
pub fn fed_reads(cfg: &Config)
    ensures begin { FedReadsBegin (parts_of cfg.now) }
    ensures load { FedReadsGoOn (parts_of cfg.now) }
    ensures leaf { FedLeavesAreRight (parts_of cfg.now) }
    ensures inner { FedInnersStand (parts_of cfg.now) }
    ensures never_odd { FedReadsAreNeverOdd (parts_of cfg.now) }
{}
