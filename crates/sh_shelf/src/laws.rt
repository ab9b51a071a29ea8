// What a shelf promises, over its definitions alone.
ghost use Rattle.std.specs.{Prelude.{◌≡◌, ℕ, ◌≤◌, List, [], ◌∷◌, ◌++◌, length, Some}, List.{Contains}};
ghost use Rattle.sh_image.specs.Inner.{Inner};
ghost use Rattle.sh_cache.specs.Cached.{found, kept, HaveOwnLows};
ghost use Rattle.sh_shelf.specs.Shelf.{shelf_of};

/// The rows of offers, one offer kept after another: no two have one low fence, there are no more than there is room for,
/// and each row that is found was offered.
pub fn shelf_is_exact()
    ensures none { (room : ℕ) → shelf_of room [] ≡ [] }
    ensures more { (room : ℕ) (offers : List Inner) (r : Inner) → shelf_of room (offers ++ r ∷ []) ≡ kept room (shelf_of room offers) r }
    ensures within { (room : ℕ) (offers : List Inner) → length (shelf_of room offers) ≤ room }
    ensures apart { (room : ℕ) (offers : List Inner) → HaveOwnLows (shelf_of room offers) }
    ensures offered { (room : ℕ) (offers : List Inner) (key : ℕ) (r : Inner) → found (shelf_of room offers) key ≡ Some r → Contains offers r }
{}
