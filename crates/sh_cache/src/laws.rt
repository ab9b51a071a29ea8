// What a cache promises over its calls.
ghost use Rattle.std.specs.Prelude.{◌≡◌, ◌⊎◌, ◌<◌, ℕ, List, [], false, true, Some, Contains};
ghost use Rattle.sh_image.specs.Inner.{Inner};
ghost use Rattle.sh_cache.specs.{Cached.{covers, forgotten, found, has_low, kept, HaveOwnLows, FoundBy, IsOldest}, Acts.{rows_after, Act, StillKept}};

/// What a cache promises: a row that is found covers the key with the greatest low fence, and none is found exactly
/// where no row covers the key; a forgotten low fence is no row's.
pub fn rows_are_exact()
    ensures found { (rows : List Inner) (key : ℕ) → FoundBy rows key (found rows key) }
    ensures forgotten { (rows : List Inner) (low : ℕ) → HaveOwnLows rows → has_low (forgotten rows low) low ≡ false }
{}

/// A row after a keep was a row before, or is the one that was kept; a row after a forget was a row before.
pub fn rows_were_kept()
    ensures kept { (room : ℕ) (rows : List Inner) (a row : Inner) → Contains (kept room rows a) row → Contains rows row ⊎ (row ≡ a) }
    ensures forgotten { (rows : List Inner) (low : ℕ) (row : Inner) → Contains (forgotten rows low) row → Contains rows row }
{}

/// With room for rows, a row that is kept is a row after that. A row before a keep is a row after it, but the one of the
/// same low fence, and the oldest one of a full cache; a row before a forget is a row after it, but the one that is
/// forgotten.
pub fn rows_stay()
    ensures here { (room : ℕ) (rows : List Inner) (a : Inner) → 0 < room → Contains (kept room rows a) a }
    ensures kept { (room : ℕ) (rows : List Inner) (a row : Inner) → Contains rows row → Contains (kept room rows a) row ⊎ ((row.low ≡ a.low) ⊎ IsOldest room rows row) }
    ensures forgotten { (rows : List Inner) (low : ℕ) (row : Inner) → Contains rows row → Contains (forgotten rows low) row ⊎ (row.low ≡ low) }
{}

/// What is found after keeps and forgets, of a cache that was empty, covers the key, was kept, and has been neither
/// forgotten nor replaced since. No two rows have one low fence.
pub fn what_is_found_was_kept()
    ensures found { (room : ℕ) (acts : List Act) (key : ℕ) (row : Inner) → found (rows_after room [] acts) key ≡ Some row → StillKept acts row × (covers row key ≡ true) }
    ensures apart { (room : ℕ) (acts : List Act) → HaveOwnLows (rows_after room [] acts) }
{}
