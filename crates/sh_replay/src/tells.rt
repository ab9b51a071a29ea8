// Whether a run's events are told as it goes on.
ghost use Rattle.std.specs.Prelude.{Bool, true, false};

// Whether each event's line is written right after its turn: a type, so that a run without them asks nothing.
pub(crate) trait Tells {
    ghost TOLD: { Bool };

    const TOLD: bool;
}

// The events are told.
pub(crate) struct Told;

impl Tells for Told {
    ghost TOLD = { true };

    const TOLD: bool = true;
}

// They aren't.
pub(crate) struct Untold;

impl Tells for Untold {
    ghost TOLD = { false };

    const TOLD: bool = false;
}
