// The senseless cases, which no client of a pool comes to.
ghost use Rattle.std.specs.Prelude.{◌≡◌, ℕ, List, false};
ghost use Rattle.sh_base.specs.{Parts.{parts_of}, Memory.{found_by}, declared.event.Event.{Event}};
ghost use Rattle.sh_map.specs.declared.log.Entry.{Entry};
ghost use Rattle.sh_client.specs.declared.state.Want.TheVariants as want;
ghost use Rattle.sh_client.specs.Wants.{want_of};
ghost use Rattle.sh_core.specs.{Actors.{Actor}, Listed.{HasAt, RightOut, IsKept}};
ghost use Rattle.sh_core_turns.specs.Senses.{is_senseless, AreAllCases};

use sh_base::Config;

/// Whatever the order of their turns, no client of a pool comes to a senseless case by what its event finds. A client of
/// any machine starts again in these cases, and in no other.
pub fn senseless_cases_never_come(cfg: &Config)
    ensures never { (words : List ℕ) (log : List Entry) (actors : List Actor) (rights : List RightOut) (seat : ℕ) (a : Actor) (e : Event) → IsKept (parts_of cfg.now) words log actors rights → HasAt actors seat a → want_of a.client ≡ want.Event e → is_senseless a.client (found_by words e) ≡ false }
    ensures all { AreAllCases }
{}
