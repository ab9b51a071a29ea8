// What the definitions say of some words, as laws.
ghost use Rattle.std.specs.Prelude.{List, ℕ, ◌≡◌, ◌∷◌, ◌++◌, [], codes, Some, None, option_map, true, false};
ghost use Rattle.sh_base.specs.Setting.{default_parts};
ghost use Rattle.sh_sheet.specs.declared.item.Mode.TheVariants.{Feed, Run, Replay};
ghost use Rattle.sh_options.specs.{Order.{names_for, order_of}, Uses.{option_use, flag_use, spelled, uses_of}};

/// The uses that some words make, for each value and for each rest.
pub fn known_uses()
    ensures joined { (v : List ℕ) → uses_of (names_for Run) ((codes "--leaf=" ++ v) ∷ []) ≡ Some (option_use (codes "leaf") v ∷ []) }
    ensures apart { (v : List ℕ) → uses_of (names_for Run) (codes "--leaf" ∷ v ∷ []) ≡ Some (option_use (codes "leaf") v ∷ []) }
    ensures three { (u v : List ℕ) → uses_of (names_for Replay) (codes "--seed" ∷ u ∷ codes "--map" ∷ (codes "--make=" ++ v) ∷ []) ≡ Some (option_use (codes "seed") u ∷ flag_use (codes "map") ∷ option_use (codes "make") v ∷ []) }
    ensures missing { uses_of (names_for Replay) (codes "--leaf" ∷ []) ≡ None }
    ensures flag_value { (v : List ℕ) (rest : List (List ℕ)) → uses_of (names_for Replay) ((codes "--map=" ++ v) ∷ rest) ≡ None }
    ensures stray { (word : List ℕ) (rest : List (List ℕ)) → spelled word ≡ None → uses_of (names_for Replay) (word ∷ rest) ≡ None }
    ensures help { (rest : List (List ℕ)) → uses_of (names_for Replay) (codes "--help" ∷ rest) ≡ None }
    ensures short_help { (rest : List (List ℕ)) → uses_of (names_for Replay) (codes "-h" ∷ rest) ≡ None }
    ensures empty { (rest : List (List ℕ)) → uses_of (names_for Replay) ([] ∷ rest) ≡ None }
    ensures end { (rest : List (List ℕ)) → uses_of (names_for Replay) (codes "--" ∷ rest) ≡ None }
    ensures part_of_a_name { (rest : List (List ℕ)) → uses_of (names_for Replay) (codes "--lea=5" ∷ rest) ≡ None }
    ensures events_in_a_run { (rest : List (List ℕ)) → uses_of (names_for Run) (codes "--events" ∷ rest) ≡ None }
    ensures make_in_a_run { (v : List ℕ) (rest : List (List ℕ)) → uses_of (names_for Run) ((codes "--make=" ++ v) ∷ rest) ≡ None }
{}

/// The orders that some words give.
pub fn known_orders()
    ensures none { order_of Replay [] ≡ Some (record { parts = default_parts; map = false; events = false; make = None; seed = 1 }) }
    ensures zeros { option_map (λ a. a.parts.leaf) (order_of Run (codes "--leaf=007" ∷ [])) ≡ Some 7 }
    ensures seed { order_of Replay (codes "--seed=7" ∷ codes "--map" ∷ codes "--make=5" ∷ []) ≡ Some (record { parts = default_parts; map = true; events = false; make = Some 5; seed = 7 }) }
    ensures seed_alone { order_of Replay (codes "--seed=7" ∷ []) ≡ None }
    ensures feed { (words : List (List ℕ)) → order_of Feed words ≡ order_of Run words }
    ensures nothing_made { order_of Replay (codes "--make=0" ∷ []) ≡ None }
    ensures leaf_of_three { order_of Run (codes "--leaf=3" ∷ []) ≡ None }
    ensures twice { order_of Run (codes "--leaf=5" ∷ codes "--leaf" ∷ codes "5" ∷ []) ≡ None }
    ensures flag_twice { order_of Run (codes "--map" ∷ codes "--map" ∷ []) ≡ None }
    ensures empty_joined { order_of Run (codes "--leaf=" ∷ []) ≡ None }
    ensures empty_apart { order_of Run (codes "--leaf" ∷ [] ∷ []) ≡ None }
    ensures option_as_value { order_of Run (codes "--leaf" ∷ codes "--map" ∷ []) ≡ None }
    ensures end_as_value { order_of Run (codes "--leaf" ∷ codes "--" ∷ []) ≡ None }
    ensures hyphen { order_of Run (codes "--leaf" ∷ codes "-5" ∷ []) ≡ None }
    ensures plus { order_of Run (codes "--leaf=+5" ∷ []) ≡ None }
    ensures past_the_words { order_of Replay (codes "--make=1" ∷ codes "--seed=18446744073709551616" ∷ []) ≡ None }
    ensures digits_21 { order_of Run (codes "--leaf=000000000000000000005" ∷ []) ≡ None }
{}
