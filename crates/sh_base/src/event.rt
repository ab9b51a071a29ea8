// One step on one word of the memory.
ghost use Rattle.std.specs.Prelude.{◌≡◌, ◌<◌, length};
ghost use Rattle.sh_base.specs.Memory.{apply, at_of, found_by};

/// One load, store, exchange or add of one word. `at` is the word's address. An exchange stores `new` exactly where
/// the word is `old`; an add adds one, and counts on from the last word to 0.
#[derive(Clone, Copy, Debug, PartialEq, Eq)]
pub enum Event {
    Load { at: u32 },
    Store { at: u32, word: u64 },
    Exchange { at: u32, old: u64, new: u64 },
    Add { at: u32 },
}

impl Event {
    /// Makes the event in a memory, and answers the word that it found: the word from before, and 0 for a store.
    /// Condition: the address lies in the memory.
    pub fn apply(&self, memory: &mut [u64]) -> u64
        requires { at_of self.now < length memory.old }
        ensures found { result ≡ found_by memory.old self.now }
        ensures memory { memory.new ≡ apply memory.old self.now }
    {
        match *self {
            Event::Load { at } => memory[at as usize],
            Event::Store { at, word } => {
                memory[at as usize] = word;
                0
            }
            Event::Exchange { at, old, new } => {
                let found = memory[at as usize];
                if found == old {
                    memory[at as usize] = new;
                }
                found
            }
            Event::Add { at } => {
                let found = memory[at as usize];
                memory[at as usize] = found.wrapping_add(1);
                found
            }
        }
    }
}
