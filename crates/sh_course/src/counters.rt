// What a client counts: each counter rises where its cause stands.
ghost use Rattle.std.specs.Prelude.{◌≡◌, ◌∷◌, List};
ghost use Rattle.sh_map.specs.declared.call.Call.{Call};
ghost use Rattle.sh_client.specs.{Feeds.{begun}, Machine.{Machine}, Wants.{want_of}};
ghost use Rattle.sh_course.specs.{Causes.{IsReady}, Counts.{ends_write, handed_by, rewritten_by, splits_by, CountsReads}, Skips.{CountsSkips}};
ghost use Rattle.sh_course.specs.Turns.{machine_behind, turn_found, Found, IsCallCourse, MayFind, Taken};

/// A turn counts a skipped post where its cause stands, and only there: as worn, where it ends a READ under the lock of an inner
/// node, on the level of the post that the client is after, that is at its last version, covers the separator and hasn't got
/// it; as without a node, where the call has stored a word of a node, the seat has no spare one, and the last turns, on
/// counters alone, found each server's counter at the limit and got no chunk.
pub fn skips_have_causes()
    ensures { (m n : Machine) (call : Call) (turns : List Taken) (x : Found) → IsReady m → IsCallCourse (begun m call) turns n → MayFind (want_of n) x → CountsSkips (turn_found (want_of n) x ∷ turns) n (machine_behind n x) }
{}

/// Of all turns a leave of a queue with a depth alone counts a lock that was handed over, the last store of a left half alone
/// a node that was split, and that of a rewritten leaf alone such a leaf; each counts one. No turn counts a call that began
/// at a cached node.
pub fn turns_are_counted()
    ensures handed { (m : Machine) (x : Found) → MayFind (want_of m) x → (machine_behind m x).registers.tally.handed ≡ handed_by (want_of m) m.registers.tally.handed }
    ensures splits { (m : Machine) (x : Found) → MayFind (want_of m) x → (machine_behind m x).registers.tally.splits ≡ splits_by (ends_write m) m.registers.tally.splits }
    ensures rewritten { (m : Machine) (x : Found) → MayFind (want_of m) x → (machine_behind m x).registers.tally.rewritten ≡ rewritten_by (ends_write m) m.registers.tally.rewritten }
    ensures from_cache { (m : Machine) (x : Found) → (machine_behind m x).registers.tally.from_cache ≡ m.registers.tally.from_cache }
{}

/// A torn READ is counted where a turn ends a run of all of a node's words, of which a reader says that they are torn, and only
/// there; a hop to the right where it ends such a run of a node that ends at or below the key that the client is after, with a
/// node of the setting to its right, and only there.
pub fn reads_are_counted()
    ensures { (m n : Machine) (call : Call) (turns : List Taken) (x : Found) → IsReady m → IsCallCourse (begun m call) turns n → MayFind (want_of n) x → CountsReads m.setting call (turn_found (want_of n) x ∷ turns) n (machine_behind n x) }
{}
