// What an update stores, by the leaf that it READ under its lock.
ghost use Rattle.std.specs.Prelude.{◌≡◌, ◌≢◌, ◌+◌, ◌<◌, ◌≤◌, ℕ, List, [], Some, None};
ghost use Rattle.sh_base.specs.{Layout.{entry_at, node_word}, Setting.{last_entry_version, last_version}};
ghost use Rattle.sh_edit.specs.{Rewriting.{rewritten}, Splitting.{left_half, right_half}};
ghost use Rattle.sh_image.specs.{Entries.{entry_words}, Leaf.{leaf_words, Leaf}};
ghost use Rattle.sh_map.specs.declared.call.{Call.{Call, TheVariants.{Del}}, Reply.{Reply}};
ghost use Rattle.sh_map.specs.declared.call.Reply.TheVariants as reply;
ghost use Rattle.sh_client.specs.{Bodies.{entry_left}, Machine.{Machine}};
ghost use Rattle.sh_decide.specs.{Aims.{call_key, written_key, written_value}, Leaves.{leaf_answer, version_at}};
ghost use Rattle.sh_course.specs.{Causes.{slot_of, IsFull, IsLeafFor, IsWorn, ReadsThenEnds}, Stores.{GaveBack, Split}, Turns.{Taken}};

/// An update that has stored no word of a node and READs its leaf under the lock has this left to do, each turn once and no
/// other one. Where the entry that it can use isn't at its last version, it stores the words of that entry; where it is, and
/// the leaf has a version left, the words of the rewritten leaf; a delete that finds no entry, and an update that is worn,
/// store nothing. It asks before how many wait for the lock; behind it sets the lock word to 0, unless it hands the lock
/// over; it leaves the queue, and has ended. A put that finds a full leaf, and isn't full, stores the right half to a fresh
/// node, and then so the left half; the turn behind is the first one of its post.
pub fn updates_store_what_they_owe()
    ensures entry { (m n : Machine) (call : Call) (turns before since : List Taken) (r : Reply) (node depth index : ℕ) (a : Leaf) → ReadsThenEnds m n call turns before since node depth a r → IsLeafFor a (call_key call) → slot_of a call ≡ Some index → version_at a.entries index < last_entry_version → GaveBack m.setting node depth (node_word m.setting node + entry_at m.setting index) (entry_words (entry_left m.setting call a index)) since × (r ≡ leaf_answer a.entries (call_key call)) }
    ensures leaf { (m n : Machine) (call : Call) (turns before since : List Taken) (r : Reply) (node depth index : ℕ) (a : Leaf) → ReadsThenEnds m n call turns before since node depth a r → IsLeafFor a (call_key call) → slot_of a call ≡ Some index → last_entry_version ≤ version_at a.entries index → a.version < last_version m.setting → GaveBack m.setting node depth (node_word m.setting node + 0) (leaf_words (rewritten a index (written_key call) (written_value m.setting call))) since × (r ≡ leaf_answer a.entries (call_key call)) }
    ensures absent { (m n : Machine) (key : ℕ) (turns before since : List Taken) (r : Reply) (node depth : ℕ) (a : Leaf) → ReadsThenEnds m n (Del key) turns before since node depth a r → IsLeafFor a key → slot_of a (Del key) ≡ None → GaveBack m.setting node depth (node_word m.setting node + 0) [] since × (r ≡ leaf_answer a.entries key) }
    ensures worn { (m n : Machine) (call : Call) (turns before since : List Taken) (r : Reply) (node depth version : ℕ) (a : Leaf) → ReadsThenEnds m n call turns before since node depth a r → IsWorn m.setting call a version → GaveBack m.setting node depth (node_word m.setting node + 0) [] since × (r ≡ reply.Worn version) }
    ensures split { (m n : Machine) (call : Call) (turns before since : List Taken) (r : Reply) (node depth : ℕ) (a : Leaf) → ReadsThenEnds m n call turns before since node depth a r → IsFull m.setting call a → r ≢ reply.Full → (fresh : ℕ) × Split m.setting node depth fresh (leaf_words (left_half a (written_key call) (written_value m.setting call) fresh)) (leaf_words (right_half a (written_key call) (written_value m.setting call))) since }
{}
