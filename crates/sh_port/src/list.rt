// A source and a sink in memory.
ghost use Rattle.std.specs.{Prelude.{◌≡◌, ◌≤◌, ◌<◌, ◌+◌, ◌↔◌, [], ◌++◌, drop, take, length, min, vec_len, Some, IfOk, OnErr, IsErr, IsTrue}, Vec.{vec_capacity}, List.{Contains}};
ghost use Rattle.std.specs.Io.KnownBytes.{ReadConsumes, WriteAppends};
ghost use Rattle.sh_port.specs.{Port.{HasFaultCause}, Lists.{FailsRead, FailsWrite, counted_up, read_count, read_failed, read_on, write_count, write_failed, written_on}};

use crate::{Failed, Sink, Source};
use std::alloc::{AllocError, Global};
use std::marker::Model;

/// A source in memory. Each call moves as many bytes as it can, at most `piece`. The calls are numbered from 1, and a
/// call fails exactly where its number stands in `fails`.
#[derive(Drop)]
pub struct ListSource {
    bytes: Vec<u8>,
    at: usize,
    piece: usize,
    fails: Vec<u64>,
    calls: u64,
    faults: u64,
}

impl Model for ListSource {
    ghost use Rattle.std.specs.Prelude.{◌≤◌, ◌<◌, drop, vec_len};
    ghost use Rattle.sh_port.specs.Lists.{SourceReads};

    ghost Value = { SourceReads };

    ghost view = { λ s. record { left = drop s.at s.bytes.items; piece = s.piece; fails = s.fails.items; calls = s.calls; faults = s.faults } };

    ghost invariant = { λ s. (s.at ≤ vec_len s.bytes) × (0 < s.piece) };
}

// Whether a call of this number fails.
fn is_failing(fails: &[u64], call: u64) -> bool
    ensures { IsTrue result ↔ Contains fails.now call }
{
    fails.contains(&call)
}

// Copies a front of `from` to the front of `to`: as much as fits, and at most `most` bytes.
pub(crate) fn copy_piece(from: &[u8], to: &mut [u8], most: usize) -> usize
    ensures count { result ≡ min (min (length to.old) most) (length from.now) }
    ensures room { length to.new ≡ length to.old }
    ensures within { result ≤ length from.now }
    ensures none { result ≡ 0 → 0 < most → 0 < length to.old → length from.now ≡ 0 }
    ensures copied { take result to.new ≡ take result from.now }
{
    let n = to.len().min(most).min(from.len());
    to[..n].copy_from_slice(&from[..n]);
    n
}

impl ListSource {
    /// A source of these bytes. Condition: `piece` is at least 1.
    pub fn new(bytes: Vec<u8>, piece: usize, fails: Vec<u64>) -> Self
        requires { 0 < piece }
        ensures state { result ≡ record { left = bytes.items; piece = piece; fails = fails.items; calls = 0; faults = 0 } }
        ensures left { ⟦<ListSource as Source>⟧.left result ≡ Some bytes.items }
        ensures faults { ⟦<ListSource as Source>⟧.faults result ≡ 0 }
    {
        ListSource {
            bytes,
            at: 0,
            piece,
            fails,
            calls: 0,
            faults: 0,
        }
    }
}

impl Source for ListSource {
    ghost left = { λ s. Some s.left };

    ghost faults = { λ s. s.faults };

    /// Fails exactly where the call's number stands in `fails`; else it moves as many bytes as it can.
    fn read(&mut self, into: &mut [u8]) -> Result<usize, Failed>
        ensures bound { IfOk result (λ n. n ≤ length into.new) }
        ensures bytes { ReadConsumes (Some self.old.left) (Some self.new.left) result into.new }
        ensures cause { HasFaultCause self.old.faults self.new.faults result }
        ensures fails { IsErr result ↔ FailsRead self.old }
        ensures moves { IfOk result (λ n. n ≡ read_count self.old (length into.old)) }
        ensures moved { IfOk result (λ n. self.new ≡ read_on self.old n) }
        ensures failed { OnErr result (self.new ≡ read_failed self.old) }
    {
        self.calls = self.calls.saturating_add(1);
        if is_failing(&self.fails, self.calls) {
            self.faults = self.faults.saturating_add(1);
            return Err(Failed);
        }
        let n = copy_piece(&self.bytes[self.at..], into, self.piece);
        self.at += n;
        Ok(n)
    }
}

/// A sink in memory that holds at most `room` bytes. Each call moves as many bytes as it can, at most `piece`. The calls
/// are numbered from 1, and a call fails exactly where its number stands in `fails`, or where the sink is full and
/// there are bytes to take.
#[derive(Drop)]
pub struct ListSink {
    bytes: Vec<u8>,
    room: usize,
    piece: usize,
    fails: Vec<u64>,
    calls: u64,
    faults: u64,
}

impl Model for ListSink {
    ghost use Rattle.std.specs.{Prelude.{◌≤◌, ◌<◌, ◌≡◌, vec_len}, Vec.{vec_capacity}};
    ghost use Rattle.sh_port.specs.Lists.{Writes};

    ghost Value = { Writes };

    ghost view = { λ s. record { held = s.bytes.items; room = s.room; piece = s.piece; fails = s.fails.items; calls = s.calls; faults = s.faults } };

    ghost invariant = { λ s. (vec_len s.bytes ≤ s.room) × (vec_capacity s.bytes ≡ s.room) × (0 < s.piece) };
}

// Adds these bytes, for which there is room.
fn push_all(bytes: &mut Vec<u8>, more: &[u8])
    requires { vec_len bytes.old + length more.now ≤ vec_capacity bytes.old }
    ensures items { bytes.new.items ≡ bytes.old.items ++ more.now }
    ensures len { vec_len bytes.new ≡ vec_len bytes.old + length more.now }
    ensures room { vec_capacity bytes.new ≡ vec_capacity bytes.old }
{
    for byte in more {
        bytes.push_reserved(*byte);
    }
}

impl ListSink {
    /// An empty sink, with memory for `room` bytes. Condition: `piece` is at least 1.
    pub fn new(
        alloc: Global,
        room: usize,
        piece: usize,
        fails: Vec<u64>,
    ) -> Result<Self, AllocError>
        requires { 0 < piece }
        ensures state { IfOk result (λ s. s ≡ record { held = []; room = room; piece = piece; fails = fails.items; calls = 0; faults = 0 }) }
        ensures held { IfOk result (λ s. ⟦<ListSink as Sink>⟧.held s ≡ Some []) }
        ensures faults { IfOk result (λ s. ⟦<ListSink as Sink>⟧.faults s ≡ 0) }
    {
        Ok(ListSink {
            bytes: Vec::with_capacity(alloc, room)?,
            room,
            piece,
            fails,
            calls: 0,
            faults: 0,
        })
    }

    /// The bytes that it holds.
    pub fn bytes(&self) -> &[u8]
        ensures bytes { result.now ≡ self.now.held }
        ensures held { ⟦<ListSink as Sink>⟧.held self.now ≡ Some result.now }
    {
        &self.bytes
    }
}

impl Sink for ListSink {
    ghost held = { λ s. Some s.held };

    ghost faults = { λ s. s.faults };

    /// Fails exactly where the call's number stands in `fails`, or where the sink is full and there are bytes to take;
    /// else it moves as many bytes as it can.
    fn write(&mut self, piece: &[u8]) -> Result<usize, Failed>
        ensures bound { IfOk result (λ n. n ≤ length piece.now) }
        ensures progress { 0 < length piece.now → IfOk result (λ n. 0 < n) }
        ensures bytes { WriteAppends (Some self.old.held) (Some self.new.held) result piece.now }
        ensures cause { HasFaultCause self.old.faults self.new.faults result }
        ensures fails { IsErr result ↔ FailsWrite self.old piece.now }
        ensures moves { IfOk result (λ n. n ≡ write_count self.old piece.now) }
        ensures moved { IfOk result (λ n. self.new ≡ written_on self.old piece.now n) }
        ensures failed { OnErr result (self.new ≡ write_failed self.old) }
    {
        self.calls = self.calls.saturating_add(1);
        let left = self.room - self.bytes.len();
        if is_failing(&self.fails, self.calls) || (left == 0 && !piece.is_empty()) {
            self.faults = self.faults.saturating_add(1);
            return Err(Failed);
        }
        let n = piece.len().min(self.piece).min(left);
        push_all(&mut self.bytes, &piece[..n]);
        Ok(n)
    }
}
