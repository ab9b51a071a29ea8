// The rule of the table of a pool's words, and what its steps tell.
ghost use Rattle.std.specs.{Prelude.{◌≡◌, []}, List.{AllByRecursion}};
ghost use Rattle.sh_base.specs.Parts.{parts_of};
ghost use Rattle.sh_core.specs.Actors.{Actor};
ghost use Rattle.sh_pool_rule.specs.{declared.view.Card.{Card}, Views.{empty_view, no_tale, nobody, opening_view, Begins, Tale}, Rule.{KeepsPool, TookEvent}};
ghost use Rattle.sh_pool_rule.specs.Rights.{first_alone, joined_view, learnt_view, less_first, note_view, parted_view, right_view, taken_view, told_view};

use crate::view::PassView;
use atomic_table::{Join, Play, Split, TableRule};
use sh_base::Config;
use std::marker::{Brand, PhantomData};

/// The rule of a pool's table: what `KeepsPool` says of the table's setting, its words and the views of its seats.
pub struct PoolRule;

impl TableRule<(), PassView, Config> for PoolRule {
    ghost holds = { λ cfg s. KeepsPool (parts_of cfg) s.words s.views };

    ghost first = { λ cfg. opening_view (parts_of cfg) };
}

/// The actor whose turn it is, as the call of a step picks it, and what the pass's view is told with the step.
pub trait TurnOf {
    ghost actor: { Actor };

    ghost tale: { Tale };
}

impl TurnOf for Brand {
    ghost actor = { nobody };

    ghost tale = { no_tale };
}

/// The actor has made its event, and was fed the number found.
pub struct Fed<J> {
    of: PhantomData<J>,
}

impl<J: TurnOf> Play<(), PassView> for Fed<J> {
    ghost then = { λ st me n now. TookEvent J.actor J.tale me.0 n now.0 × (now.1 ≡ me.1) };
}

/// The actor has made a store, which finds 0.
pub struct Stored<J> {
    of: PhantomData<J>,
}

impl<J: TurnOf> Play<(), PassView> for Stored<J> {
    ghost then = { λ st me n now. TookEvent J.actor J.tale me.0 0 now.0 × (now.1 ≡ me.1) };
}

/// The actor leaves a queue and hands its lock over.
pub struct Parting<J> {
    of: PhantomData<J>,
}

impl<J: TurnOf> Split<PassView> for Parting<J> {
    ghost left = { parted_view J.actor J.tale };

    ghost right = { right_view J.actor };
}

/// The actor takes a right up.
pub struct TakingUp<J> {
    of: PhantomData<J>,
}

impl<J: TurnOf> Join<PassView> for TakingUp<J> {
    ghost both = { taken_view J.actor J.tale };

    ghost spent = { empty_view };
}

/// The first of the actors that a view has leaves it, and has a view of its own.
pub struct Making;

impl Split<PassView> for Making {
    ghost left = { less_first };

    ghost right = { first_alone };
}

/// A note is made. The pass's view is told of all that the pass has done.
pub struct Noting<J> {
    of: PhantomData<J>,
}

impl<J: TurnOf> Split<PassView> for Noting<J> {
    ghost left = { told_view J.actor J.tale };

    ghost right = { note_view J.actor };
}

/// A note is learnt. The pass's view is told of all that the pass has done.
pub struct Learning<J> {
    of: PhantomData<J>,
}

impl<J: TurnOf> Join<PassView> for Learning<J> {
    ghost both = { learnt_view J.actor J.tale };

    ghost spent = { empty_view };
}

/// Nothing changes; what the seat has seen begins with all that the makers of its notes had seen.
pub struct Telling;

impl Play<(), PassView> for Telling {
    ghost then = { λ st me n now. (now ≡ me) × AllByRecursion (λ (c : Card). Begins c.saw me.0.seen) me.0.cards };
}

/// A new seat, which knows nothing.
pub struct Entering;

impl Play<(), PassView> for Entering {
    ghost then = { λ st me n now. (now.0 ≡ empty_view) × (now.1 ≡ []) };
}

/// A pass is taken in, with the actor to which it has come.
pub struct TakingIn<J> {
    of: PhantomData<J>,
}

impl<J: TurnOf> Join<PassView> for TakingIn<J> {
    ghost both = { λ v w. joined_view v (told_view J.actor J.tale w) };

    ghost spent = { empty_view };
}
