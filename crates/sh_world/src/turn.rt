// What a turn answers.
use sh_base::Event;

/// What a turn was: an event with the word that it found; a call on a ticket line; or nothing, since the seat has no call
/// under way and none left.
#[derive(Clone, Copy, Debug, PartialEq, Eq)]
pub enum Turn {
    Event(Event, u64),
    Local,
    Idle,
}
