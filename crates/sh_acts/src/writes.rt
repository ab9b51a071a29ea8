// The stores of a WRITE, one by one, and what the last one makes of the tree and its map.
ghost use Rattle.sh_base.specs.Parts.{parts_of};
ghost use Rattle.sh_acts.specs.Laws.{EarlyUnlockBreaks, EmptiedEntryIsDel, EntryOverIsPut, EntryWritesBegin, EntryWritesEnd, EntryWritesGoOn, InnerSplitsEnd, InnersAreVersioned, KeptNumberBreaks, KeysStayOnce, LeafSplitsEnd, LeafWritesEnd, LeavesAreVersioned, LevelAndFenceNameOne, NewEntryIsPut, NodeWritesBegin, NodeWritesGoOn, PairWritesEnd, PostedSeparatorsAreNew, RearFirstBreaks, UnwrittenHalfBreaks};

use sh_base::Config;

/// The stores of a WRITE before its last. A node's WRITE stores the new image's words rising from its front version on,
/// which is greater than the standing one; an entry's WRITE stores the entry's words in the same way. An image that
/// meets the rules has its version behind as well as in front.
pub fn writes_rise(cfg: &Config)
    ensures leaf { LeavesAreVersioned (parts_of cfg.now) }
    ensures inner { InnersAreVersioned (parts_of cfg.now) }
    ensures whole_begins { NodeWritesBegin (parts_of cfg.now) }
    ensures whole_goes_on { NodeWritesGoOn (parts_of cfg.now) }
    ensures one_begins { EntryWritesBegin (parts_of cfg.now) }
    ensures one_goes_on { EntryWritesGoOn (parts_of cfg.now) }
{}

/// A leaf's entries with another at an index. Where that entry is the first with its key, or none has the key and it is
/// the first empty one, it is the put; where it is emptied, the delete. No key stands twice then, where no other entry
/// has the new one.
pub fn entries_change()
    ensures over { EntryOverIsPut }
    ensures new { NewEntryIsPut }
    ensures removed { EmptiedEntryIsDel }
    ensures once { KeysStayOnce }
{}

/// The last store of a leaf's WRITE brings the update's entry into the log, and the leaf has the log's map between its
/// fences again: one entry was written, or the whole leaf with its fences, whose pairs are the change of the leaf's; or
/// the left half of a split, whose right half was written before into a node of the seat's own. That node is then linked
/// behind the leaf, and the seat is to post it.
pub fn leaf_writes_end(cfg: &Config)
    ensures entry { EntryWritesEnd (parts_of cfg.now) }
    ensures whole { LeafWritesEnd (parts_of cfg.now) }
    ensures split { LeafSplitsEnd (parts_of cfg.now) }
{}

/// The last store of an inner node's WRITE posts the node that the seat was to post: its pair was added, or the left half
/// of a split at that pair was written, whose right half was written before into a node of the seat's own. That node is
/// then linked behind the inner node, and the seat is to post it. The pair's separator was new: a level and a low fence
/// name one node, and that node isn't posted.
pub fn inner_writes_end(cfg: &Config)
    ensures once { LevelAndFenceNameOne (parts_of cfg.now) }
    ensures new { PostedSeparatorsAreNew (parts_of cfg.now) }
    ensures pair { PairWritesEnd (parts_of cfg.now) }
    ensures split { InnerSplitsEnd (parts_of cfg.now) }
{}

/// What the order of the stores is for: these leave words that show no such scene. A lock is given back before the last
/// store of the WRITE under it. A node's WRITE stores its rear version first. The right half of a split is linked before
/// its words are written. A node that is hung in behind another stays its seat's own.
pub fn orders_that_break(cfg: &Config)
    ensures early_unlock { EarlyUnlockBreaks (parts_of cfg.now) }
    ensures rear_first { RearFirstBreaks (parts_of cfg.now) }
    ensures unwritten_half { UnwrittenHalfBreaks (parts_of cfg.now) }
    ensures kept_number { KeptNumberBreaks (parts_of cfg.now) }
{}
