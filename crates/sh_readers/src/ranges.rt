// What a range gathers, leaf by leaf: rows that answer it key by key.
ghost use Rattle.sh_base.specs.Parts.{parts_of};
ghost use Rattle.sh_readers.specs.Laws.{DoneRangesAreAnswered, GatheredRowsAreFew, GatheredRowsStay, LeavesAreGathered, RangesBegin, ReadLeavesHeldSince};

use sh_base::Config;

/// A range begins with no rows, and what it has gathered stays so as the log grows. Of an accepted leaf that covers its
/// place it takes the keys from there on. Then it has reached the leaf's high fence, with room left and keys of its own
/// behind, or it is done: the bound that it answers lies from its low bound to its high one, and its rows answer it up to
/// there, each key at a point of the log since `first`. There are no more rows than keys.
pub fn ranges_gather(cfg: &Config)
    ensures begin { RangesBegin }
    ensures stay { GatheredRowsStay }
    ensures held { ReadLeavesHeldSince (parts_of cfg.now) }
    ensures leaf { LeavesAreGathered }
    ensures few { GatheredRowsAreFew }
    ensures done { DoneRangesAreAnswered }
{}
