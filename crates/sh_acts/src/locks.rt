// Locks change hands, WRITEs begin and go on, and posts are skipped or made by a new root.
ghost use Rattle.sh_base.specs.Parts.{parts_of};
ghost use Rattle.sh_acts.specs.Laws.{FreeLocksAreTaken, HeldLocksAreMissed, HeldNodesStand, LevelsAreFewer, LinkedNodesHaveMoments, LocksAreGivenBack, OtherRootsAreMissed, PostsAreSkipped, RightsAreHanded, RootsAreExchanged, WritesBegin, WritesGoOn, ZeroLocksAreFree};

use sh_base::Config;

/// A lock is taken by the exchange that finds 0, which it finds exactly where nobody holds the lock; and an exchange that
/// finds another word changes nothing. It is given back by a store of 0. A right is handed over, and taken up, without an
/// event: the lock word has the number of the compute server of both. Of all that the others rely on nothing changes.
pub fn locks_change_hands(cfg: &Config)
    ensures free { ZeroLocksAreFree (parts_of cfg.now) }
    ensures taken { FreeLocksAreTaken (parts_of cfg.now) }
    ensures missed { HeldLocksAreMissed (parts_of cfg.now) }
    ensures given_back { LocksAreGivenBack (parts_of cfg.now) }
    ensures handed { RightsAreHanded (parts_of cfg.now) }
{}

/// At each moment a linked node has its standing words, whose versions agree, and at most one WRITE under way, its
/// lock's holder's. While the holder writes nothing, the words in memory of the nodes under its lock are those that
/// stand. A store by the holder begins a WRITE or goes on with it; the node stands as it did.
pub fn writes_go_on(cfg: &Config)
    ensures moment { LinkedNodesHaveMoments (parts_of cfg.now) }
    ensures stands { HeldNodesStand (parts_of cfg.now) }
    ensures begins { WritesBegin (parts_of cfg.now) }
    ensures goes_on { WritesGoOn (parts_of cfg.now) }
{}

/// A seat skips the post of a node that it was to post. Or it posts it by a new root, a node of its own, written before:
/// the exchange of the root word that finds the old root hangs it in, and one that finds another changes nothing. There
/// are fewer levels than nodes as long as a seat has a node of its own, so a new root's level is a level.
pub fn posts_and_roots(cfg: &Config)
    ensures skipped { PostsAreSkipped (parts_of cfg.now) }
    ensures level { LevelsAreFewer (parts_of cfg.now) }
    ensures grown { RootsAreExchanged (parts_of cfg.now) }
    ensures lost { OtherRootsAreMissed (parts_of cfg.now) }
{}
