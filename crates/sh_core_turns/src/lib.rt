//! The law of the turns: whatever a client of a pool does, the invariant stays, and no client comes to a senseless case.
#![tactic(auto)]

ghost use Rattle.std.specs.Prelude.{◌≡◌, ◌<◌, ◌≤◌, ◌++◌, ◌∷◌, [], ℕ, List, length, true, None, Some, slice_set};
ghost use Rattle.sh_base.specs.{Parts.{parts_of}, Setting.{all_seats}, Layout.{lock_of, compute_of}, Memory.{apply, found_by}, declared.event.Event.{Event}};
ghost use Rattle.sh_map.specs.{declared.{call.Call.{Call}, log.Entry.{Entry}}, Calls.{IsInRange}};
ghost use Rattle.sh_image.specs.Laid.{AreLaid};
ghost use Rattle.sh_decide.specs.declared.state.Aim.{Aim};
ghost use Rattle.sh_client.specs.{declared.state.{Then.{Then}, Phase.TheVariants.{Look, Leave, Ended}}, Giving.{makes}, Rests.{is_resting}, Wants.{want_of}};
ghost use Rattle.sh_client.specs.declared.state.Want.TheVariants as want;
ghost use Rattle.sh_core.specs.{Actors.{Actor, actor_begun, rested, actor_stepped, actor_turned}, Core.{HasSeen, IsLocal}, Opening.{entered}, Listed.{HasAt, RightOut, OutAt, without, IsKept}};

mod senseless;

pub use senseless::senseless_cases_never_come;
use sh_base::Config;

/// Clients take turns, in any order. A laid pool has the invariant, and everything that a seat can do keeps it: a new
/// client enters; a client at rest begins a call; it makes the event that it wants; its compute server answers it; it
/// has its turn in the queue, without a right or with one that it takes up; it hands a lock over; and its call that
/// has ended is taken away. An event extends the log by the entries that it makes, and nothing else does.
pub fn clients_take_turns(cfg: &Config)
    ensures laid { (words : List ℕ) → AreLaid (parts_of cfg.now) words → IsKept (parts_of cfg.now) words [] [] [] }
    ensures entered { (words : List ℕ) (log : List Entry) (actors : List Actor) (rights : List RightOut) → IsKept (parts_of cfg.now) words log actors rights → length actors < all_seats (parts_of cfg.now) → IsKept (parts_of cfg.now) words log (actors ++ entered (parts_of cfg.now) (length actors) ∷ []) rights }
    ensures begun { (words : List ℕ) (log : List Entry) (actors : List Actor) (rights : List RightOut) (seat number n : ℕ) (a : Actor) (call : Call) → IsKept (parts_of cfg.now) words log actors rights → HasAt actors seat a → is_resting a.client ≡ true → IsInRange (parts_of cfg.now) call → a.seen ≤ n → n ≤ length log → IsKept (parts_of cfg.now) words log (slice_set actors seat (actor_begun a number call n)) rights }
    ensures turn { (words : List ℕ) (log : List Entry) (actors : List Actor) (rights : List RightOut) (seat : ℕ) (a : Actor) (e : Event) → IsKept (parts_of cfg.now) words log actors rights → HasAt actors seat a → want_of a.client ≡ want.Event e → IsKept (parts_of cfg.now) (apply words e) (log ++ makes a.client) (slice_set actors seat (actor_stepped seat a log (found_by words e))) rights }
    ensures local { (words : List ℕ) (log seen : List Entry) (actors : List Actor) (rights : List RightOut) (seat word : ℕ) (a : Actor) → IsKept (parts_of cfg.now) words log actors rights → HasAt actors seat a → IsLocal (want_of a.client) → HasSeen log seen a → IsKept (parts_of cfg.now) words log (slice_set actors seat (actor_stepped seat a seen word)) rights }
    ensures look { (words : List ℕ) (log seen : List Entry) (actors : List Actor) (rights : List RightOut) (seat n : ℕ) (a : Actor) (aim : Aim) → IsKept (parts_of cfg.now) words log actors rights → HasAt actors seat a → a.client.phase ≡ Look aim n → HasSeen log seen a → IsKept (parts_of cfg.now) words log (slice_set actors seat (actor_turned seat a seen None)) rights }
    ensures take { (words : List ℕ) (log seen : List Entry) (actors : List Actor) (rights : List RightOut) (seat n depth : ℕ) (a : Actor) (aim : Aim) → IsKept (parts_of cfg.now) words log actors rights → HasAt actors seat a → a.client.phase ≡ Look aim n → HasSeen log seen a → OutAt rights (lock_of (parts_of cfg.now) n) (compute_of (parts_of cfg.now) seat) depth → IsKept (parts_of cfg.now) words log (slice_set actors seat (actor_turned seat a seen (Some depth))) (without (lock_of (parts_of cfg.now) n) rights) }
    ensures part { (words : List ℕ) (log seen : List Entry) (actors : List Actor) (rights : List RightOut) (seat word n depth : ℕ) (a : Actor) (after : Then) → IsKept (parts_of cfg.now) words log actors rights → HasAt actors seat a → a.client.phase ≡ Leave n (Some depth) after → HasSeen log seen a → IsKept (parts_of cfg.now) words log (slice_set actors seat (actor_stepped seat a seen word)) (record { lock = lock_of (parts_of cfg.now) n; compute = compute_of (parts_of cfg.now) seat; depth = depth } ∷ rights) }
    ensures ended { (words : List ℕ) (log : List Entry) (actors : List Actor) (rights : List RightOut) (seat : ℕ) (a : Actor) → IsKept (parts_of cfg.now) words log actors rights → HasAt actors seat a → a.client.phase ≡ Ended → IsKept (parts_of cfg.now) words log (slice_set actors seat (rested a)) rights }
{}
