// A seat's own nodes and the counters that they come from, and a laid pool.
ghost use Rattle.sh_base.specs.Parts.{parts_of};
ghost use Rattle.sh_acts.specs.Laws.{BoundedBegins, ChunksAreDrawn, CountersAreBounded, DrawnNodesAreOwn, FoundBelowIsBounded, LaidPoolsHaveScenes, OwnNodesFill, RaisedIsBounded, SpentCountersCount};

use sh_base::Config;

/// A seat stores what it likes into a node of its own: no READ of a linked node and no other seat meets it. An add on a
/// server's counter that finds less than the limit draws that chunk, whose nodes become the seat's own. One that finds
/// the limit reached counts on, and no more. Where the seats that add found the counter below the limit before, it
/// passes the limit by no more than there are seats.
pub fn own_nodes(cfg: &Config)
    ensures filled { OwnNodesFill (parts_of cfg.now) }
    ensures drawn { ChunksAreDrawn (parts_of cfg.now) }
    ensures mine { DrawnNodesAreOwn (parts_of cfg.now) }
    ensures spent { SpentCountersCount (parts_of cfg.now) }
    ensures bounded { CountersAreBounded }
    ensures found_below { FoundBelowIsBounded }
    ensures raised { RaisedIsBounded }
{}

/// A laid pool has a scene: node 1 is the only linked node, the root and the leaf of all keys, and the log is empty. No
/// seat is late yet with a counter that is at most at its limit.
pub fn laid_pool(cfg: &Config)
    ensures scene { LaidPoolsHaveScenes (parts_of cfg.now) }
    ensures bounded { BoundedBegins }
{}
