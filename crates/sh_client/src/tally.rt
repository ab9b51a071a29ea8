// Counters that stay at their last value.
ghost use Rattle.std.specs.Prelude.{◌≡◌};
ghost use Rattle.sh_client.specs.Machine.{no_tally, up};

use crate::Tally;

impl Tally {
    // Nothing is counted.
    pub(crate) fn none() -> Tally
        ensures { result ≡ no_tally }
    {
        Tally {
            again: 0,
            rights: 0,
            splits: 0,
            handed: 0,
            from_cache: 0,
            skipped_spent: 0,
            skipped_worn: 0,
            rewritten: 0,
        }
    }
}

// The next number, and behind the last one the same.
pub(crate) fn up(n: u64) -> u64
    ensures { result ≡ up n }
{
    if n == u64::MAX { n } else { n + 1 }
}
