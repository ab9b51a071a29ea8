// What spare nodes and walks keep to.
ghost use Rattle.std.specs.Prelude.{◌≡◌, ◌<◌, ◌≤◌, ◌↔◌, ℕ, List, Some};
ghost use Rattle.sh_base.specs.declared.config.ConfigParts.{ConfigParts};
ghost use Rattle.sh_alloc.specs.{declared.state.{NodeRange.{NodeRange}, ChunkWant.TheVariants.{Got, AllSpent}}, Spares.{lowest, without_lowest, with_lowest, IsSpare, MayPutBack}};
ghost use Rattle.sh_alloc.specs.{Walks.{walk_start, walk_wants, run_of}, Chunks.{FindsSpent, FindsChunk}};

/// A node that is taken was spare, and the spare nodes behind it are those that are greater: so the least goes first,
/// and none goes twice. It may be put back, and then all is as before.
pub fn spare_laws()
    ensures taken { (r : NodeRange) (n : ℕ) → lowest r ≡ Some n → IsSpare r n }
    ensures rest { (r : NodeRange) (n m : ℕ) → lowest r ≡ Some n → IsSpare (without_lowest r) m ↔ (IsSpare r m × (n < m)) }
    ensures back { (r : NodeRange) (n : ℕ) → 1 ≤ r.first → lowest r ≡ Some n → MayPutBack n (without_lowest r) × (with_lowest n (without_lowest r) ≡ r) }
{}

/// A run ends with every server spent exactly where it was fed, at each server's counter, a word at or above its limit.
/// And a run that ends with a chunk got it by an add at that server's counter: the word found is the chunk, and is below
/// the limit.
pub fn chunk_laws()
    ensures spent { (p : ConfigParts) (seat : ℕ) (words : List ℕ) (server : ℕ) → server < p.servers → walk_wants p (run_of p (walk_start p seat) words) ≡ AllSpent → FindsSpent p (walk_start p seat) words server }
    ensures all { (p : ConfigParts) (seat : ℕ) (words : List ℕ) → 1 ≤ p.servers → ((server : ℕ) → server < p.servers → FindsSpent p (walk_start p seat) words server) → walk_wants p (run_of p (walk_start p seat) words) ≡ AllSpent }
    ensures got { (p : ConfigParts) (seat : ℕ) (words : List ℕ) (server chunk : ℕ) → walk_wants p (run_of p (walk_start p seat) words) ≡ Got server chunk → FindsChunk p (walk_start p seat) words server chunk }
{}
