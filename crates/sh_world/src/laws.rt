// What holds of a world after any calls and turns.
ghost use Rattle.std.specs.Prelude.{◌<◌, ℕ, length};
ghost use Rattle.sh_world.specs.{Running.{IsRunning}, Laws.{Extends, IdlesRight, IsLawfulWorld}};

use crate::World;

impl World {
    /// What holds of a world whose pool is laid, whatever calls it was given and whatever turns were taken since. The book
    /// is lawful, and an entry that is no ended call's own is that of its seat's call under way; at each moment the
    /// standing words hold a lawful tree with the log's map, and a lock has one holder at most; each refusal has its
    /// cause. A turn extends the log by one entry at most, with the last store of an update. It is idle exactly where
    /// the seat has no call under way and none left, and then nothing changes. The function does nothing.
    pub fn keeps_the_laws(&self)
        requires { 0 < length self.now.seats }
        ensures lawful { IsLawfulWorld self.now }
        ensures running { IsRunning self.now }
        ensures log { (seat : ℕ) → Extends self.now seat }
        ensures idle { (seat : ℕ) → seat < length self.now.seats → IdlesRight self.now seat }
    {
        let _words = &self.words;
    }
}
