// What updates store, what senseless words lead to, and what no turn changes.
ghost use Rattle.std.specs.Prelude.{◌≡◌, ◌⊎◌, ◌<◌, ◌≤◌, ◌+◌, ℕ, length, Option, Some, Contains};
ghost use Rattle.sh_image.specs.{Inner.{Inner}, Entries.{entry_words}, Leaf.{Leaf, IsLeaf, leaf_words}, declared.inner.Image.{Image}};
ghost use Rattle.sh_base.specs.{declared.config.ConfigParts.{ConfigParts}, Layout.{entry_at, node_word}, Setting.{entry_size, node_size}};
ghost use Rattle.sh_edit.specs.Rewriting.{rewritten};
ghost use Rattle.sh_map.specs.{declared.call.Call.{Call}, Calls.{IsInRange}};
ghost use Rattle.sh_read.specs.{declared.state.Progress.TheVariants.{Accepted, Odd}, Reads.{accepted, progress_of, read_fed}};
ghost use Rattle.sh_decide.specs.{declared.state.{Aim.{Aim}, Decision.TheVariants.{Entry, Restart, Rewrite}}, Deciding.{decision_of}, Aims.{call_key, written_key, written_value}};
ghost use Rattle.sh_client.specs.{declared.state.{Phase.TheVariants.{ReadLocked, Waiting}, Giving.{Giving}}, Bodies.{entry_left}};
ghost use Rattle.sh_client.specs.Courses.{carry_at, node_read, Finds, HandsOnce, GivesBack, KeepsCall, StoresThenFrees};
ghost use Rattle.sh_client.specs.{CachedTurns.{learnt_by, BeginsBy, IsReplaced, IsStale, KeepsCached, ShowsParent}, Feeds.{fed_by, turned_by}, Machine.{Machine}};
ghost use Rattle.sh_cache.specs.Cached.{found, HaveOwnLows};

/// An update that finds its entry's version below the last one stores the words of this entry, each once, rising, and
/// nothing else; they are as many as an entry has. One that rewrites its leaf stores so the words of the leaf, as many as
/// a node has. Behind them, where the lock isn't handed over, the store of 0 to the lock word is the next event.
pub fn updates_store_their_words()
    ensures entry { (m : Machine) (word depth index : ℕ) (a : Leaf) → Finds m word depth a (Entry index) → StoresThenFrees (fed_by m word) (node_read m word) depth (node_word m.setting (node_read m word) + entry_at m.setting index) (entry_words (entry_left m.setting m.registers.call a index)) }
    ensures entry_size { (p : ConfigParts) (call : Call) (a : Leaf) (index : ℕ) → IsInRange p call → length (entry_words (entry_left p call a index)) ≡ entry_size p }
    ensures leaf { (m : Machine) (word depth index : ℕ) (a : Leaf) → Finds m word depth a (Rewrite index) → StoresThenFrees (fed_by m word) (node_read m word) depth (node_word m.setting (node_read m word) + 0) (leaf_words (rewritten a index (written_key m.registers.call) (written_value m.setting m.registers.call))) }
    ensures leaf_size { (p : ConfigParts) (call : Call) (a : Leaf) (index : ℕ) → IsInRange p call → IsLeaf p a → length (leaf_words (rewritten a index (written_key call) (written_value p call))) ≡ node_size p }
{}

/// Under a lock, words that spell no node, and an image that is senseless there, lead back: the lock is given back with
/// nothing written, and the root word is loaded next.
pub fn senseless_words_lead_back()
    ensures odd { (m : Machine) (word depth : ℕ) (aim : Aim) → m.phase ≡ ReadLocked aim depth → progress_of m.setting m.registers.reads word ≡ Odd → GivesBack (fed_by m word) (node_read m word) depth aim }
    ensures image { (m : Machine) (word depth : ℕ) (aim : Aim) (image : Image) → m.phase ≡ ReadLocked aim depth → progress_of m.setting m.registers.reads word ≡ Accepted → accepted m.setting (read_fed m.setting m.registers.reads word) ≡ Some image → decision_of m.setting m.registers.call aim image ≡ Restart → GivesBack (fed_by m word) (node_read m word) depth aim }
{}

/// No turn changes a client's setting, seat or call.
pub fn turns_keep_the_call()
    ensures fed { (m : Machine) (word : ℕ) → KeepsCall m (fed_by m word) }
    ensures turned { (m : Machine) (depth : Option ℕ) → KeepsCall m (turned_by m depth) }
{}

/// A call begins at the child of the cached node that covers its key: an update with its ticket, and any other call with the
/// READ; it is counted so, which no turn counts, and that node is its origin until its first image is there. The turn that
/// makes a READ's image an accepted one is the only one that changes the cached nodes. With room for any it keeps an inner
/// node of level 1 that a descent to a leaf has READ without a lock; so a cached node was cached before, or is that one. A
/// cached node goes where that one takes its place, or where it's the origin and the call's first image leads to the right;
/// and then none with its low fence is cached, but the one that was shown.
pub fn cached_nodes_lead_to_leaves()
    ensures begin { (m : Machine) (call : Call) → BeginsBy m call (found m.registers.cached (call_key call)) }
    ensures fed { (m : Machine) (word : ℕ) → KeepsCached (learnt_by m word) (fed_by m word) }
    ensures turned { (m : Machine) (depth : Option ℕ) → KeepsCached m (turned_by m depth) }
    ensures shown { (m : Machine) (word : ℕ) (row : Inner) → Contains (fed_by m word).registers.cached row → Contains m.registers.cached row ⊎ ShowsParent m word row }
    ensures kept { (m : Machine) (word : ℕ) (row : Inner) → 0 < m.setting.cached → ShowsParent m word row → Contains (fed_by m word).registers.cached row }
    ensures stays { (m : Machine) (word : ℕ) (row : Inner) → length m.registers.cached ≤ m.setting.cached → Contains m.registers.cached row → Contains (fed_by m word).registers.cached row ⊎ (IsStale m word row.low ⊎ IsReplaced m word row) }
    ensures stale { (m : Machine) (word : ℕ) (row : Inner) → HaveOwnLows m.registers.cached → IsStale m word row.low → Contains (fed_by m word).registers.cached row → ShowsParent m word row }
{}

/// A lock is handed over only where somebody waits for it, and each time with a depth one higher, up to the bound.
pub fn hands_over_within_the_bound()
    ensures { (m : Machine) (depth count carry : ℕ) (giving : Giving) → m.phase ≡ Waiting depth giving → depth ≤ m.setting.bound → carry_at (fed_by m count).phase ≡ Some carry → HandsOnce m depth count carry }
{}
