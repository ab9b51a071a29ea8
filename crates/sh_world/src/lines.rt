// Ticket lines.
ghost use Rattle.std.specs.Prelude.{◌≡◌, ◌*◌, ◌<◌};
ghost use Rattle.sh_base.specs.{Parts.{parts_of}, Setting.{all_locks, all_seats}, Layout.{compute_of}};
ghost use Rattle.sh_world.specs.{States.{line_at}, Turning.{behind, wanted_lock}};

use crate::Line;
use sh_base::Config;
use sh_client::Want;

/// The place of the line of a lock at a seat's compute server. Conditions: a lock and a seat of the setting.
#[tactic(auto, unfolding(crate::specs::States::line_at))]
pub(crate) fn line_at(cfg: &Config, lock: u32, seat: u32) -> usize
    requires lock { lock < all_locks (parts_of cfg.now) }
    requires seat { seat < all_seats (parts_of cfg.now) }
    ensures at { result ≡ line_at (parts_of cfg.now) lock (compute_of (parts_of cfg.now) seat) }
    ensures within { result < all_locks (parts_of cfg.now) * (parts_of cfg.now).computes }
{
    lock as usize * cfg.parts().computes as usize + cfg.compute_of(seat) as usize
}

/// How many tickets were drawn behind this one.
pub(crate) fn behind(line: &Line, ticket: u64) -> u64
    ensures { result ≡ behind line.now ticket }
{
    line.next.wrapping_sub(ticket).wrapping_sub(1)
}

/// The lock of the line that a turn calls on, where it's such a call.
pub(crate) fn wanted_lock(want: &Want) -> Option<u32>
    ensures { result ≡ wanted_lock want.now }
{
    match *want {
        Want::Draw { lock } | Want::Look { lock } | Want::Waiting { lock } => Some(lock),
        Want::Leave { lock, .. } => Some(lock),
        Want::Event(_) | Want::Done => None,
    }
}
