// What the changes of leaves mean for the map that their entries hold, and those of inner nodes for their pairs.
ghost use Rattle.std.specs.Prelude.{◌≡◌, ◌≢◌, ◌<◌, ◌≤◌, ◌⊎◌, ◌^◌, ◌+◌, ◌-◌, ◌++◌, ◌∷◌, ◌*◌, ℕ, List, drop, length, replicate, nat_lt, take, Some, None};
ghost use Rattle.sh_base.specs.{declared.config.ConfigParts.{ConfigParts}, Layout.{entry_at}, Setting.{entry_size, last_version, nodes}};
ghost use Rattle.std.specs.{List.Sorted.{IsPermutation}, FinMap.{from_entries}};
ghost use Rattle.sh_map.specs.Map.{get, put, del, size};
ghost use Rattle.sh_image.specs.{declared.{leaf.LeafEntry.{LeafEntry}, inner.Pair.{Pair}}, Inner.{Inner, IsInner}, Entries.{entry_words}, Leaf.{leaf_words, Leaf, IsEntry, IsLeaf}};
ghost use Rattle.sh_edit.specs.{Held.{map_of_entries, pairs_of, value_at, key_at, has_room, HasKeysOnce}, Placing.{IsFirstWith, IsPlaceFor, LacksKey}, Rewriting.{rewritten, with_entry}};
ghost use Rattle.sh_edit.specs.{Pairing.{left_inner, middle_of, pairs_with, right_inner, root_over, with_pair, IsAddable}, Splitting.{left_half, right_half, separator_of, IsSplit}};

/// The changes of a leaf are the map's. What `find` finds is the map's value of the key. A rewrite at the index that
/// `place` answered is the put, and one that empties the index that `remove` answered is the delete, of a leaf without
/// a key twice. A leaf keeps its keys apart, and meets the rules so long as its version isn't the last one and the key
/// lies between its fences. It has room for a new key exactly where its map has fewer keys than it has entries.
pub fn edits_are_the_maps()
    ensures found { (es : List LeafEntry) (key i : ℕ) → key ≢ 0 → IsFirstWith es key i → get (map_of_entries es) key ≡ Some (value_at es i) }
    ensures absent { (es : List LeafEntry) (key : ℕ) → key ≢ 0 → LacksKey es key → get (map_of_entries es) key ≡ None }
    ensures over { (a : Leaf) (i key : ℕ) (value : List ℕ) → key ≢ 0 → IsFirstWith a.entries key i → map_of_entries (rewritten a i key value).entries ≡ put (map_of_entries a.entries) key value }
    ensures new { (a : Leaf) (i key : ℕ) (value : List ℕ) → key ≢ 0 → LacksKey a.entries key → IsFirstWith a.entries 0 i → map_of_entries (rewritten a i key value).entries ≡ put (map_of_entries a.entries) key value }
    ensures removed { (a : Leaf) (i key : ℕ) (zeros : List ℕ) → key ≢ 0 → HasKeysOnce a.entries → IsFirstWith a.entries key i → map_of_entries (rewritten a i 0 zeros).entries ≡ del (map_of_entries a.entries) key }
    ensures once { (a : Leaf) (i key : ℕ) (value : List ℕ) → i < length a.entries → HasKeysOnce a.entries → ((j : ℕ) → j < length a.entries → j ≢ i → key_at a.entries j ≡ key → key ≡ 0) → HasKeysOnce (rewritten a i key value).entries }
    ensures lawful { (p : ConfigParts) (a : Leaf) (i key : ℕ) (value : List ℕ) → IsLeaf p a → a.version < last_version p → length value ≡ p.value_words → ((key ≡ 0) × (value ≡ replicate p.value_words 0)) ⊎ ((a.low ≤ key) × (1 ≤ key) × (key < a.high)) → IsLeaf p (rewritten a i key value) }
    ensures room { (es : List LeafEntry) → HasKeysOnce es → nat_lt (size (map_of_entries es)) (length es) ≡ has_room es }
{}

/// A leaf without a key twice has none twice after a rewrite at the place of a put, and after one that empties an entry.
pub fn edits_keep_keys_apart()
    ensures placed { (a : Leaf) (i key : ℕ) (value : List ℕ) → HasKeysOnce a.entries → IsPlaceFor a.entries key i → HasKeysOnce (rewritten a i key value).entries }
    ensures removed { (a : Leaf) (i : ℕ) (zeros : List ℕ) → HasKeysOnce a.entries → i < length a.entries → HasKeysOnce (rewritten a i 0 zeros).entries }
{}

/// A write of one entry alone is the map's change too. At the place of a put it is the put, and where it empties the
/// first entry with a key it is the delete, of a leaf without a key twice; it leaves none twice. The leaf meets the rules
/// where it did and the entry may stand in it. Its words are those from before but for the words of that entry.
pub fn entry_writes_are_the_maps()
    ensures placed { (a : Leaf) (i : ℕ) (e : LeafEntry) → e.key ≢ 0 → IsPlaceFor a.entries e.key i → map_of_entries (with_entry a i e).entries ≡ put (map_of_entries a.entries) e.key e.value }
    ensures removed { (a : Leaf) (i key : ℕ) (e : LeafEntry) → key ≢ 0 → e.key ≡ 0 → HasKeysOnce a.entries → IsFirstWith a.entries key i → map_of_entries (with_entry a i e).entries ≡ del (map_of_entries a.entries) key }
    ensures once_placed { (a : Leaf) (i : ℕ) (e : LeafEntry) → HasKeysOnce a.entries → IsPlaceFor a.entries e.key i → HasKeysOnce (with_entry a i e).entries }
    ensures once_removed { (a : Leaf) (i : ℕ) (e : LeafEntry) → HasKeysOnce a.entries → e.key ≡ 0 → i < length a.entries → HasKeysOnce (with_entry a i e).entries }
    ensures lawful { (p : ConfigParts) (a : Leaf) (i : ℕ) (e : LeafEntry) → IsLeaf p a → IsEntry p a.low a.high e → IsLeaf p (with_entry a i e) }
    ensures words { (p : ConfigParts) (a : Leaf) (i : ℕ) (e : LeafEntry) → IsLeaf p a → i < p.leaf → leaf_words (with_entry a i e) ≡ take (entry_at p i) (leaf_words a) ++ (entry_words e ++ drop (entry_at p i + entry_size p) (leaf_words a)) }
{}

/// A split at a put parts the leaf's map after it. The pairs of the two halves together are the put's; a key has its
/// value in the left half where it lies below the separator, and else in the right one, and the other half lacks it.
/// The separator lies between the fences, above the low one. No half has a key twice; and both meet the rules where the
/// leaf did, its version wasn't the last one, and the right half's node is one of the setting's.
pub fn splits_are_the_maps()
    ensures together { (a : Leaf) (key right : ℕ) (value : List ℕ) → key ≢ 0 → from_entries (pairs_of (left_half a key value right).entries ++ pairs_of (right_half a key value).entries) ≡ put (map_of_entries a.entries) key value }
    ensures left { (a : Leaf) (key right q : ℕ) (value : List ℕ) → IsSplit a key → q < separator_of a.entries key value → (get (map_of_entries (left_half a key value right).entries) q ≡ get (put (map_of_entries a.entries) key value) q) × (get (map_of_entries (right_half a key value).entries) q ≡ None) }
    ensures right { (a : Leaf) (key right q : ℕ) (value : List ℕ) → IsSplit a key → separator_of a.entries key value ≤ q → (get (map_of_entries (left_half a key value right).entries) q ≡ None) × (get (map_of_entries (right_half a key value).entries) q ≡ get (put (map_of_entries a.entries) key value) q) }
    ensures once { (a : Leaf) (key right : ℕ) (value : List ℕ) → key ≢ 0 → HasKeysOnce (left_half a key value right).entries × HasKeysOnce (right_half a key value).entries }
    ensures separator { (p : ConfigParts) (a : Leaf) (key : ℕ) (value : List ℕ) → IsSplit a key → IsLeaf p a → length value ≡ p.value_words → a.low ≤ key → key < a.high → (a.low < separator_of a.entries key value) × (separator_of a.entries key value < a.high) }
    ensures lawful { (p : ConfigParts) (a : Leaf) (key right : ℕ) (value : List ℕ) → IsSplit a key → IsLeaf p a → length value ≡ p.value_words → a.low ≤ key → key < a.high → a.high < 2 ^ 64 → a.version < last_version p → 1 ≤ right → right ≤ nodes p → IsLeaf p (left_half a key value right) × IsLeaf p (right_half a key value) }
{}

/// A pair that is added to an inner node is put to its pairs, and all of them are kept; so do the two halves of a split
/// together. The node meets the rules where it did before, the pair may be added, and its version wasn't the last one;
/// so do both halves, which meet at a separator between the fences, and so does a new root.
pub fn inner_nodes_keep_their_pairs()
    ensures kept { (a : Inner) (new : Pair) → IsPermutation (new ∷ a.pairs) (with_pair a new).pairs }
    ensures halves { (count right : ℕ) (a : Inner) (new : Pair) → (left_inner count a new right).pairs ++ (right_inner count a new).pairs ≡ (with_pair a new).pairs }
    ensures lawful { (p : ConfigParts) (a : Inner) (new : Pair) → IsInner p a → length a.pairs < 2 * p.leaf → IsAddable p a new → a.version < last_version p → IsInner p (with_pair a new) }
    ensures separator { (p : ConfigParts) (a : Inner) (new : Pair) → IsInner p a → length a.pairs ≡ 2 * p.leaf → IsAddable p a new → (a.low < middle_of p.leaf a.pairs new) × (middle_of p.leaf a.pairs new < a.high) }
    ensures lawful_halves { (p : ConfigParts) (a : Inner) (new : Pair) (right : ℕ) → IsInner p a → length a.pairs ≡ 2 * p.leaf → IsAddable p a new → a.high < 2 ^ 64 → a.version < last_version p → 1 ≤ right → right ≤ nodes p → IsInner p (left_inner p.leaf a new right) × IsInner p (right_inner p.leaf a new) }
    ensures lawful_root { (p : ConfigParts) (level left separator right : ℕ) → 1 ≤ p.leaf → 1 ≤ level → level < nodes p → 1 ≤ left → left ≤ nodes p → 1 ≤ right → right ≤ nodes p → 1 ≤ separator → separator < 2 ^ 64 - 1 → IsInner p (root_over level left separator right) }
{}
