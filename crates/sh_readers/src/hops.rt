// Where hops lead in the tree: each node and image that a client has in hand names nodes that are linked for good.
ghost use Rattle.sh_base.specs.Parts.{parts_of};
ghost use Rattle.sh_readers.specs.Laws.{DownHopsLeadOn, ForgottenRowsLeaveOthers, FoundRowsCoverTheKey, HereIsTheLevel, ImagesStayInHand, InnerImagesAreInHand, KeptRowsAreInHand, LeafImagesAreInHand, NamesStayInHand, NoHopRestarts, RightHopsLeadOn, RootIsInHand, RowsLeadToLeaves, RowsStayInHand};

use sh_base::Config;

/// The image of an accepted READ says of its next node and its children what is so for good, whatever others do; and the
/// root is in hand for any key.
pub fn images_in_hand(cfg: &Config)
    ensures leaf { LeafImagesAreInHand (parts_of cfg.now) }
    ensures inner { InnerImagesAreInHand (parts_of cfg.now) }
    ensures root { RootIsInHand (parts_of cfg.now) }
    ensures kept { ImagesStayInHand (parts_of cfg.now) }
    ensures named { NamesStayInHand (parts_of cfg.now) }
{}

/// From the image of a node that begins no later than the key, a hop right leads to a node of its level, and a hop down
/// to one of the level below, not below the wanted one; both begin no later than the key. Where the hop is nowhere the
/// level is the wanted one, and covers the key. It is never back to the root, unless the level is below the wanted one.
pub fn hops_lead_on()
    ensures right { RightHopsLeadOn }
    ensures down { DownHopsLeadOn }
    ensures here { HereIsTheLevel }
    ensures restart { NoHopRestarts }
{}

/// The rows of a cache stay images of nodes of level 1: whatever others do, where an accepted image of that level is
/// kept, and where a row is forgotten. A row that was found for a key covers it, and leads to a leaf that begins no
/// later.
pub fn rows_in_hand(cfg: &Config)
    ensures act { RowsStayInHand (parts_of cfg.now) }
    ensures kept { KeptRowsAreInHand }
    ensures forgotten { ForgottenRowsLeaveOthers }
    ensures found { FoundRowsCoverTheKey }
    ensures leaf { RowsLeadToLeaves }
{}
