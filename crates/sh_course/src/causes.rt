// Why a call was refused, or a range ended early: by the words of its own course.
ghost use Rattle.std.specs.Prelude.{◌≡◌, ℕ, List, Option, Some, None};
ghost use Rattle.sh_image.specs.Leaf.{Leaf};
ghost use Rattle.sh_map.specs.declared.call.{Call.{Call, TheVariants.{Range}}, Reply.{Reply}};
ghost use Rattle.sh_map.specs.declared.call.Reply.TheVariants as reply;
ghost use Rattle.sh_client.specs.{Feeds.{begun}, Machine.{Machine}, Rests.{reply_of}};
ghost use Rattle.sh_course.specs.{Causes.{FoundFull, FoundWorn, IsFull, IsReady, IsWorn, ReadsThenEnds}, Found.{holds, AllGotNone}, Ranges.{FoundRows}, Turns.{IsCallCourse, Taken}};

/// A call that was refused has its cause in its own course, and none of its turns stored a word of a node. An update was
/// worn where it READ, under the leaf's lock, a leaf at its last version that it had to rewrite or to split. A put was full
/// where it READ so a leaf with neither its key nor an empty entry, its seat had no spare node, and since then it found
/// each server's counter at the limit.
pub fn refusals_have_causes()
    ensures worn { (m n : Machine) (call : Call) (turns : List Taken) (version : ℕ) → IsReady m → IsCallCourse (begun m call) turns n → reply_of n ≡ Some (reply.Worn version) → FoundWorn m.setting call turns version }
    ensures full { (m n : Machine) (call : Call) (turns : List Taken) → IsReady m → IsCallCourse (begun m call) turns n → reply_of n ≡ Some reply.Full → FoundFull m.setting call turns × (m.registers.spare.count ≡ 0) }
{}

/// A call whose cause stood is refused: one that has stored no word of a node and READs a worn leaf under its lock ends worn;
/// and one that READs so a full leaf, without a spare node, and gets no chunk since, ends full.
pub fn causes_refuse()
    ensures worn { (m n : Machine) (call : Call) (turns before since : List Taken) (r : Reply) (node depth version : ℕ) (a : Leaf) → ReadsThenEnds m n call turns before since node depth a r → IsWorn m.setting call a version → r ≡ reply.Worn version }
    ensures full { (m n : Machine) (call : Call) (turns before since : List Taken) (r : Reply) (node depth : ℕ) (a : Leaf) → ReadsThenEnds m n call turns before since node depth a r → IsFull m.setting call a → m.registers.spare.count ≡ 0 → AllGotNone m.setting since → r ≡ reply.Full }
{}

/// A range is answered by rows alone. They are those of the leaves that its course READ, and it ends below its high end exactly
/// where its buffer is full and the key behind the last row's is below that end: at that key.
pub fn ranges_end_by_rows()
    ensures { (m n : Machine) (turns : List Taken) (low high : ℕ) (r : Reply) → IsReady m → IsCallCourse (begun m (Range low high)) turns n → reply_of n ≡ Some r → (upto : ℕ) × (r ≡ reply.Rows upto) × FoundRows m.setting low high turns n.registers.rows upto }
{}

/// Where a call has ended it holds no lock.
pub fn calls_free_their_locks()
    ensures { (m n : Machine) (call : Call) (turns : List Taken) (r : Reply) → IsReady m → IsCallCourse (begun m call) turns n → reply_of n ≡ Some r → (lock : ℕ) → holds m.setting lock turns ≡ None }
{}
