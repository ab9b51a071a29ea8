// The law of reads, what a READ under way knows, and why it answers as it does.
ghost use Rattle.std.specs.Prelude.{◌≡◌, ℕ, ◌+◌, ◌<◌, ◌≤◌, List, [], ◌∷◌, length, slice_index, slice_set, Some};
ghost use Rattle.sh_base.specs.{Parts.{parts_of}, Setting.{node_size}, Layout.{entry_at, entry_rear_at, rear_at}};
ghost use Rattle.sh_image.specs.{Seen.{SeenBy}, declared.{inner.Image.{Image}, read.Seen.{Seen}}, Node.{seen_as}};
ghost use Rattle.sh_read.specs.{Judging.{seen_of}, Reads.{accepted, in_place, left_in, progress_with, Reads}, Causes.{AnsweredBy}, Moments.{Writing, word, IsNodeMoment, Next}};
ghost use Rattle.sh_read.specs.{Reading.{StoodIn, StoodWith, FitsRead, IsCalm, IsLeafNode, IsGoodEntry}, ReadLaw.{Moment, IsHistory, HasMemoryLaw}};

use sh_base::Config;

/// In an accepted READ, one whose rear version is the front version, the words that only WRITEs of the node store are
/// quiet from the load of the rear version to that of the front version, and each entry of a leaf is quiet between the
/// loads of its own two versions. The memories are one per event; of the node, only its own WRITEs store its words, one
/// at a time; each stores a greater version first and the same version last, and leaves a node whose versions agree.
pub fn read_law(cfg: &Config)
    ensures { (level n : ℕ) (memories : List (List ℕ)) (moments : List Moment) → IsHistory (parts_of cfg.now) level n memories moments → HasMemoryLaw (parts_of cfg.now) level n memories }
{}

/// The same for one event: what a READ under way knows begins with the load of the rear version, is kept by whatever
/// happens to the node, and by the load of the next lower word. `stood` are nodes that stood since the READ began, and
/// more may come to it. At the last load, where the node's two versions agree, no WRITE of the node has stored since.
pub fn reads_under_way(cfg: &Config)
    ensures begin { (level : ℕ) (stood : List (List ℕ)) (s : List ℕ) (w : Writing) (blank : List ℕ) → IsNodeMoment (parts_of cfg.now) level s w → length blank ≡ node_size (parts_of cfg.now) → FitsRead (parts_of cfg.now) level (StoodWith stood s) s w (rear_at (parts_of cfg.now)) (slice_set blank (rear_at (parts_of cfg.now)) (word (parts_of cfg.now) s w (rear_at (parts_of cfg.now)))) }
    ensures event { (level : ℕ) (stood : List (List ℕ)) (s t : List ℕ) (w v : Writing) (from : ℕ) (got : List ℕ) → Next (parts_of cfg.now) s w t v → IsNodeMoment (parts_of cfg.now) level s w → IsNodeMoment (parts_of cfg.now) level t v → FitsRead (parts_of cfg.now) level (StoodWith stood s) s w from got → FitsRead (parts_of cfg.now) level (StoodWith stood t) t v from got }
    ensures load { (level : ℕ) (stood : List (List ℕ)) (s : List ℕ) (w : Writing) (at : ℕ) (got : List ℕ) → IsNodeMoment (parts_of cfg.now) level s w → StoodIn stood s → FitsRead (parts_of cfg.now) level (StoodWith stood s) s w (at + 1) got → FitsRead (parts_of cfg.now) level (StoodWith stood s) s w at (slice_set got at (word (parts_of cfg.now) s w at)) }
    ensures more { (level : ℕ) (stood : List (List ℕ)) (b s : List ℕ) (w : Writing) (from : ℕ) (got : List ℕ) → FitsRead (parts_of cfg.now) level (StoodWith stood s) s w from got → FitsRead (parts_of cfg.now) level (StoodWith (b ∷ stood) s) s w from got }
    ensures accepted { (level : ℕ) (stood : List (List ℕ)) (s : List ℕ) (w : Writing) (got : List ℕ) → IsNodeMoment (parts_of cfg.now) level s w → FitsRead (parts_of cfg.now) level (StoodWith stood s) s w 0 got → slice_index got 0 ≡ word (parts_of cfg.now) s w 0 → slice_index got 0 ≡ slice_index got (rear_at (parts_of cfg.now)) → IsCalm (parts_of cfg.now) s w got }
{}

/// An entry of a leaf that a READ under way has loaded whole, with equal versions, stood at some moment since the READ
/// began, in a node with the header that stands now, and it meets the rules of an entry between the fences that stand
/// now. So it is while no WRITE of the node has stored since the load of the rear version, where each of the nodes that
/// stood spells a leaf.
pub fn entries_under_way(cfg: &Config)
    ensures { (stood : List (List ℕ)) (s : List ℕ) (w : Writing) (from : ℕ) (got : List ℕ) → ((ws : List ℕ) → StoodIn stood ws → IsLeafNode (parts_of cfg.now) ws) → FitsRead (parts_of cfg.now) 0 (StoodWith stood s) s w from got → IsCalm (parts_of cfg.now) s w got → (i : ℕ) → i < cfg.now.parts.leaf → from ≤ entry_at (parts_of cfg.now) i → slice_index got (entry_rear_at (parts_of cfg.now) i) ≡ slice_index got (entry_at (parts_of cfg.now) i) → IsGoodEntry (parts_of cfg.now) stood s got i }
{}

/// The same for the words that a READ was fed, each in its place: what it knows begins with the first word, the rear
/// version, and each word that it's fed adds to it. When all are fed, the words are the node's.
pub fn fed_words_fit(cfg: &Config)
    ensures begin { (level : ℕ) (stood : List (List ℕ)) (s : List ℕ) (w : Writing) → IsNodeMoment (parts_of cfg.now) level s w → FitsRead (parts_of cfg.now) level (StoodWith stood s) s w (left_in (parts_of cfg.now) (word (parts_of cfg.now) s w (rear_at (parts_of cfg.now)) ∷ [])) (in_place (parts_of cfg.now) (word (parts_of cfg.now) s w (rear_at (parts_of cfg.now)) ∷ [])) }
    ensures load { (level : ℕ) (stood : List (List ℕ)) (s : List ℕ) (w : Writing) (loaded : List ℕ) (at : ℕ) → IsNodeMoment (parts_of cfg.now) level s w → StoodIn stood s → left_in (parts_of cfg.now) loaded ≡ at + 1 → FitsRead (parts_of cfg.now) level (StoodWith stood s) s w (left_in (parts_of cfg.now) loaded) (in_place (parts_of cfg.now) loaded) → FitsRead (parts_of cfg.now) level (StoodWith stood s) s w (left_in (parts_of cfg.now) (word (parts_of cfg.now) s w at ∷ loaded)) (in_place (parts_of cfg.now) (word (parts_of cfg.now) s w at ∷ loaded)) }
    ensures all { (loaded : List ℕ) → length loaded ≡ node_size (parts_of cfg.now) → in_place (parts_of cfg.now) loaded ≡ loaded }
{}

/// What is judged of a node's words is what a reader of them answers: each answer comes exactly where its cause holds,
/// and no words have two answers. So a READ answers `Accepted` exactly where the loaded words spell a node, and its image
/// is that node's; `Again` exactly where two versions differ, with these; and `Odd` exactly where neither is so.
pub fn judged_by_causes(cfg: &Config)
    ensures cause { (words : List ℕ) → length words ≡ node_size (parts_of cfg.now) → SeenBy (parts_of cfg.now) words (seen_of (parts_of cfg.now) words) }
    ensures once { (words : List ℕ) (seen other : Seen) → SeenBy (parts_of cfg.now) words seen → SeenBy (parts_of cfg.now) words other → seen ≡ other }
    ensures answer { (words : List ℕ) → length words ≡ node_size (parts_of cfg.now) → AnsweredBy (parts_of cfg.now) words (progress_with (parts_of cfg.now) words) }
    ensures image { (r : Reads) (image : Image) → length r.loaded ≤ node_size (parts_of cfg.now) → accepted (parts_of cfg.now) r ≡ Some image → SeenBy (parts_of cfg.now) r.loaded (seen_as image) }
{}
