//! Lemmas that know nothing of the project: on tests of numbers, options, lists, look-ups in lists of pairs and counting.
#![tactic(auto)]

ghost use Rattle.std.specs.Prelude.{◌≡◌, ◌<◌, ◌≤◌, ℕ, nat_lt, true, false};

/// What a test of two numbers answers.
pub fn tests_answer()
    ensures less { (a b : ℕ) → a < b → nat_lt a b ≡ true }
    ensures more { (a b : ℕ) → b ≤ a → nat_lt a b ≡ false }
{}
