// What a seat at the table of a pool's words knows, for contracts alone: no value of these types is made.
use sh_client::Client;
use sh_map::{Call, Done, Entry};
use std::collections::LinkedList;
use std::marker::Model;

/// A seat's client, with what the seat has seen and what its calls were answered.
pub struct Player {
    client: Client,
    number: u64,
    seen: u64,
    first: u64,
    point: u64,
    dones: LinkedList<Done>,
}

impl Model for Player {
    ghost use Rattle.sh_core.specs.Actors.{Actor};

    ghost Value = { Actor };

    ghost view = { λ a. record { client = a.client; number = a.number; seen = a.seen; first = a.first; point = a.point; dones = a.dones } };
}

/// A seat's number with its actor.
pub struct Member {
    pub seat: u64,
    pub actor: Player,
}

/// A right to a lock, for the seats of a compute server, that was handed over so often.
pub struct LockRight {
    pub lock: u64,
    pub compute: u64,
    pub depth: u64,
}

/// What a client is told: a call begins; a turn that it wanted found this word; or a look had its turn, with the depth of
/// a right or with none.
pub enum Tiding {
    CallTold { call: Call },
    WordTold { word: u64 },
    TurnTold { depth: Option<u64> },
}

/// What a note says: which seat made it, the calls of that seat that had ended, the lengths that it had seen after each note
/// that it had learnt, and what it had seen; and the length that was seen where the card lies now, when it came there.
pub struct Card {
    pub seat: u64,
    pub dones: LinkedList<Done>,
    pub learnt: LinkedList<u64>,
    pub saw: LinkedList<Entry>,
    pub seen: u64,
}

/// What a seat that was taken in had seen, and the cards of the notes that it had learnt.
pub struct Past {
    pub seat: u64,
    pub seen: LinkedList<Entry>,
    pub cards: LinkedList<Card>,
}

/// What a seat at the table knows.
pub struct PassView {
    /// The log, as far as it was seen.
    pub seen: LinkedList<Entry>,
    /// The actors that are here: one in a pass, all in a table that is laid or gathered, none in a right.
    pub members: LinkedList<Member>,
    /// Those that were taken in.
    pub pasts: LinkedList<Past>,
    /// The cards of the notes that the pass has learnt, or that of the note that it is.
    pub cards: LinkedList<Card>,
    /// The right that it is.
    pub right: Option<LockRight>,
    /// All that the pass's client was told, the last first, as far as the view is told of it.
    pub life: LinkedList<Tiding>,
    /// How many calls on the pass's chair are told here.
    pub heard: u64,
    /// How many rights it has parted with.
    pub gave: u64,
    /// How many rights it has taken up.
    pub took: u64,
}
