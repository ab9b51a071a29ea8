// What a holder does with its lock.
ghost use Rattle.std.specs.Prelude.{◌≡◌, ◌≤◌};
ghost use Rattle.sh_lock.specs.Locks.{release_of};

use crate::Release;

/// What a holder does after its call, where so many seats wait in its compute server's queue of this lock and the lock
/// was handed over `depth` times in a row: `Free` exactly where nobody waits or `depth` is `bound`, else `Hand`.
/// Condition: `depth` is at most `bound`.
pub fn after_hold(waiting: u64, depth: u32, bound: u32) -> Release
    requires { depth ≤ bound }
    ensures { result ≡ release_of waiting depth bound }
{
    if waiting == 0 || depth == bound {
        Release::Free
    } else {
        Release::Hand
    }
}
