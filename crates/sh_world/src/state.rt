// What a world is made of.
use crate::Calls;
use sh_base::Config;
use sh_client::Client;
use sh_map::{Call, Log, Reply};
use std::marker::Model;

/// A call that was given to a seat, without its rows. Once it has ended it has its reply, and `first` and `point` are the
/// log's length before its first turn, and the point of the log where it is answered; before, they are 0.
#[derive(Clone, Copy, Debug)]
pub struct GivenCall {
    pub seat: u32,
    pub call: Call,
    pub reply: Option<Reply>,
    pub first: u32,
    pub point: u32,
}

// The ticket line of one lock at one compute server: the next ticket to be drawn, the one that is served, and the right
// that was left for it, with how often its lock was handed over.
#[derive(Clone, Copy, Debug)]
pub(crate) struct Line {
    pub(crate) next: u64,
    pub(crate) served: u64,
    pub(crate) left: Option<u32>,
}

// A seat: its client, its calls, and where they stand.
#[derive(Debug, Drop)]
pub(crate) struct Seat {
    pub(crate) client: Client,
    pub(crate) numbers: Vec<u32>,
    pub(crate) ended: u32,
    pub(crate) number: u32,
    pub(crate) ticket: u64,
    pub(crate) seen: u64,
    pub(crate) first: u64,
    pub(crate) point: u64,
}

impl Model for Seat {
    ghost use Rattle.sh_world.specs.States.{Place};

    ghost Value = { Place };

    ghost view = { λ q. record { client = q.client; numbers = q.numbers.items; ended = q.ended; number = q.number; ticket = q.ticket; seen = q.seen; first = q.first; point = q.point } };
}

/// A world: the words of a pool, and its seats with their clients, one turn at a time. It is plain data.
#[derive(Debug, Drop)]
pub struct World {
    pub(crate) cfg: Config,
    pub(crate) words: Vec<u64>,
    pub(crate) log: Log,
    pub(crate) seats: Vec<Seat>,
    pub(crate) calls: Calls,
    pub(crate) lines: Vec<Line>,
}

impl Model for World {
    ghost use Rattle.std.specs.Vec.{vec_capacity};
    ghost use Rattle.sh_world.specs.{States.{State}, Running.{IsWorld}};

    ghost Value = { State };

    ghost view = { λ w. record { setting = w.cfg.parts; words = w.words.items; log = w.log.items; seats = w.seats.items; calls = w.calls.calls; lines = w.lines.items } };

    ghost invariant = { λ w. IsWorld (record { setting = w.cfg.parts; words = w.words.items; log = w.log.items; seats = w.seats.items; calls = w.calls.calls; lines = w.lines.items }) (vec_capacity w.log) w.calls.setting };
}
