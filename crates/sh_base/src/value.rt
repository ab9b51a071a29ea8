// Values of one to eight words.
ghost use Rattle.std.specs.Prelude.{◌≡◌, ◌≤◌, length};

use std::marker::Model;

/// A value of 1 to 8 words, seen as the list of its words. It takes no memory.
#[derive(Clone, Copy, Debug, PartialEq, Eq)]
pub struct Value {
    count: u32,
    words: [u64; 8],
}

impl Model for Value {
    ghost use Rattle.std.specs.{Prelude.{List, ℕ, ◌≡◌, ◌≤◌, length, take}, Coded.{coded_list, coded_ℕ}};
    ghost use Rattle.sh_base.specs.Values.{eight, eight_take, IsValue};

    ghost Value = { List ℕ };

    ghost view = { λ a. take a.count a.words };

    ghost invariant = { λ a. IsValue a.count a.words };

    ghost inverse = { λ ws. record { count = length ws; words = eight ws } };

    ghost inverse_ok = { λ a h. λ i. record { count = (eight_take a.count a.words h).0 i; words = (eight_take a.count a.words h).1 i } };
}

impl Value {
    /// The value of these words. Condition: there are 1 to 8.
    pub fn of(words: &[u64]) -> Value
        requires low { 1 ≤ length words.now }
        requires high { length words.now ≤ 8 }
        ensures { result ≡ words.now }
    {
        let mut all = [0; 8];
        all[..words.len()].copy_from_slice(words);
        Value {
            count: words.len() as u32,
            words: all,
        }
    }

    /// How many words it has: 1 to 8.
    pub fn len(&self) -> usize
        ensures len { result ≡ length self.now }
        ensures low { 1 ≤ result }
        ensures high { result ≤ 8 }
    {
        self.count as usize
    }

    /// Its words.
    pub fn words(&self) -> &[u64]
        ensures { result.now ≡ self.now }
    {
        &self.words[..self.count as usize]
    }
}
