//! What the invariant says of a pool: its tree, its locks and the book of its calls, at each moment and at rest.
#![tactic(auto)]

ghost use Rattle.std.specs.Prelude.{◌≡◌, [], ℕ, List, true};
ghost use Rattle.sh_base.specs.Parts.{parts_of};
ghost use Rattle.sh_map.specs.declared.{log.Entry.{Entry}, book.Done.{Done}};
ghost use Rattle.sh_client.specs.Rests.{is_resting};
ghost use Rattle.sh_core.specs.{Actors.{Actor}, Causes.{HaveCauses}, Listed.{HasAt, RightOut, OutAt, IsKept}};
ghost use Rattle.sh_core_says.specs.{Books.{counter_in, HasAnswers, IsBookOf, IsLawfulBook}, Moments.{IsMoment}, Rest.{AreAtRest}};

mod quiescent;

pub use quiescent::trees_at_rest;
use sh_base::Config;

/// What the invariant says. At each moment the standing words hold a lawful tree with the log's map, each lock word is
/// its holder's, and the book of all calls is lawful: each ended call is answered at a point of the log, and an entry
/// that is no ended call's is that of its seat's call under way. A put was full where all chunks were drawn and its key had
/// nothing in the map, and an update was worn by a node's last version. Where all clients rest and no right is out, the words
/// themselves hold the tree, all lock words are 0, the book is closed, and as many nodes aren't posted as were skipped.
pub fn trees_and_books(cfg: &Config)
    ensures moment { (words : List ℕ) (log : List Entry) (actors : List Actor) (rights : List RightOut) → IsKept (parts_of cfg.now) words log actors rights → IsMoment (parts_of cfg.now) words log (HasAt actors) (OutAt rights) }
    ensures book { (words : List ℕ) (log : List Entry) (actors : List Actor) (rights : List RightOut) (dones : List Done) → IsKept (parts_of cfg.now) words log actors rights → IsBookOf (HasAt actors) dones → IsLawfulBook (HasAt actors) log dones }
    ensures refusals { (words : List ℕ) (log : List Entry) (actors : List Actor) (rights : List RightOut) (dones : List Done) → IsKept (parts_of cfg.now) words log actors rights → IsBookOf (HasAt actors) dones → HaveCauses (parts_of cfg.now) (counter_in (parts_of cfg.now) words) log dones }
    ensures calls { (words : List ℕ) (log : List Entry) (actors : List Actor) (rights : List RightOut) (seat : ℕ) (a : Actor) → IsKept (parts_of cfg.now) words log actors rights → HasAt actors seat a → HasAnswers log seat a }
    ensures rest { (words : List ℕ) (log : List Entry) (actors : List Actor) → IsKept (parts_of cfg.now) words log actors [] → ((seat : ℕ) (a : Actor) → HasAt actors seat a → is_resting a.client ≡ true) → AreAtRest (parts_of cfg.now) words log (HasAt actors) }
{}
