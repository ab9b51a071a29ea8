//! The life of each seat of a world: whatever calls are given and whatever seats are asked for turns.
#![tactic(auto)]

ghost use Rattle.std.specs.Prelude.{◌≡◌, ℕ, List, Some, slice_get, true};
ghost use Rattle.sh_base.specs.{declared.config.ConfigParts.{ConfigParts}, Setting.{IsSetting}};
ghost use Rattle.sh_client.specs.{Machine.{fresh_machine}, Rests.{is_resting}};
ghost use Rattle.sh_course.specs.Causes.{IsReady};
ghost use Rattle.sh_lives.specs.Runs.{after, HasLife, Move};
ghost use Rattle.sh_world.specs.States.{Place, State};

/// Whatever calls a world's seats are given, and whatever seats are asked for turns, each seat has a life of its own: it leads
/// from the client that it began with to the one that it has, its events are the seat's own of these turns, in their order,
/// and each call that ended in it stands at a place of it with its cause. Condition: the client was at rest, of a lawful
/// setting and with lawful cached nodes, as a fresh one is.
pub fn seats_have_lives()
    ensures lives { (s : State) (seat : ℕ) (q : Place) → slice_get s.seats seat ≡ Some q → IsReady q.client → is_resting q.client ≡ true → (moves : List Move) → (now : Place) × (slice_get (after s moves).seats seat ≡ Some now) × HasLife s moves seat q.client now }
    ensures fresh { (p : ConfigParts) (seat : ℕ) → IsSetting p → IsReady (fresh_machine p seat) × (is_resting (fresh_machine p seat) ≡ true) }
{}
