// A seat serves its items.
ghost use Rattle.std.specs.Prelude.{◌≡◌, ◌<◌, ◌≤◌, ◌+◌, ◌∷◌, [], length, slice_get, suc, true, All, Some, vec_capacity, vec_len, slice_index_or};
ghost use Rattle.sh_base.specs.Parts.{parts_of};
ghost use Rattle.sh_map.specs.Calls.{IsInRange};
ghost use Rattle.sh_sheet.specs.{Sheet.{rows_of, IsLawfulItem}, declared.item.Item.TheVariants.{Ask}};
ghost use Rattle.sh_client.specs.Rests.{is_resting};
ghost use Rattle.sh_pool.specs.{Calls.{HasServed}, Pools.{IsOfPool, IsReady}};
ghost use Rattle.sh_fleet.specs.{Boards.{want_at, IsAfter, IsMaker, IsMark, IsNoteFor, Stays, StandsAt}, Sharing.{HasAsked, HasHeeded, HasRoom, HasServedItem, IsDone, IsWork, KeepsRest}};

use crate::board::{Board, Naming};
use crate::work::{Floor, Place, Work};
use sh_map::{Call, Reply};
use sh_pool::{Note, Pass, Pool};
use sh_sheet::{Gate, Item};
use std::sync::{Mutex, Wait};
use std::thread::yield_now;

// The item at a place. Condition: there is one.
fn item_at(items: &[Item], at: usize) -> &Item
    requires { at < length items.now }
    ensures { result.now ≡ slice_index_or items.now at result.now }
{
    &items[at]
}

// Serves a call to its end.
fn serve_call<R: Wait>(rt: &R, pool: &Pool, pass: &mut Pass, call: &Call) -> Reply
    requires of { IsOfPool pool.now pass.old }
    requires rests { is_resting pass.old.client ≡ true }
    requires in_range { IsInRange pass.old.client.setting call.now }
    ensures of { IsOfPool pool.now pass.new }
    ensures served { HasServed call.now result pass.old pass.new }
{
    match call {
        Call::Get { key } => pass.get(rt, pool, *key),
        Call::Put { key, value } => pass.put(rt, pool, *key, *value),
        Call::Del { key } => pass.del(rt, pool, *key),
        Call::Range { low, high } => pass.range(rt, pool, *low, *high),
    }
}

// Waits for the note of the after at this place of the sheet.
fn await_note<R: Wait, N: Naming>(rt: &R, board: &Mutex<Board<N>>, at: usize) -> Note
    requires { IsAfter (slice_get N.items at) }
    ensures { IsNoteFor N.laid (want_at N.items at) result }
{
    for _ in rt.forever() {
        if let Some(note) = board.lock(rt).take(at) {
            return note;
        }
        yield_now();
    }
    unreachable!()
}

impl Work {
    // Serves a call of the seat, and keeps what it was answered. The gate is told of it before and behind it.
    fn ask<R: Wait, G: Gate>(
        &mut self,
        rt: &R,
        pool: &Pool,
        gate: &G,
        seat: u32,
        n: u32,
        call: &Call,
    )
        requires of { IsOfPool pool.now self.old.pass }
        requires rests { is_resting self.old.pass.client ≡ true }
        requires in_range { IsInRange self.old.pass.client.setting call.now }
        requires reply_room { vec_len self.old.answers.replies < vec_capacity self.old.answers.replies }
        requires row_room { vec_len self.old.answers.rows + rows_of self.old.pass.client.setting (Ask seat call.now) ≤ vec_capacity self.old.answers.rows }
        requires rows { self.old.pass.client.setting.rows ≤ 4096 }
        ensures of { IsOfPool pool.now self.new.pass }
        ensures asked { HasAsked call.now self.old self.new }
    {
        gate.before(seat, u64::from(n));
        let reply = serve_call(rt, pool, &mut self.pass, call);
        gate.after(seat, u64::from(n));
        self.answers.add(reply, self.pass.rows_told());
    }

    // Lays the seat's notes for the mark at this place of the sheet.
    fn mark<R: Wait, N: Naming>(&mut self, rt: &R, pool: &Pool, board: &Mutex<Board<N>>, at: usize)
        requires of { IsOfPool pool.now self.old.pass }
        requires rests { is_resting self.old.pass.client ≡ true }
        requires laid { pool.now.laid ≡ N.laid }
        requires mark { IsMark (slice_get N.items at) }
        requires maker { IsMaker (want_at N.items at) self.old.pass }
        ensures of { IsOfPool pool.now self.new.pass }
        ensures stays { Stays self.old.pass self.new.pass }
        ensures rest { KeepsRest self.old self.new }
    {
        board.lock(rt).lay(pool, &mut self.pass, at);
    }

    // Learns the note for the after at this place of the sheet.
    fn heed<R: Wait, N: Naming>(&mut self, rt: &R, pool: &Pool, board: &Mutex<Board<N>>, at: usize)
        requires of { IsOfPool pool.now self.old.pass }
        requires rests { is_resting self.old.pass.client ≡ true }
        requires laid { pool.now.laid ≡ N.laid }
        requires after { IsAfter (slice_get N.items at) }
        ensures of { IsOfPool pool.now self.new.pass }
        ensures heeded { HasHeeded (want_at N.items at) self.old self.new }
    {
        let note = await_note(rt, board, at);
        self.pass.learn(pool, note);
    }

    // Serves the item of the seat at a place of the sheet.
    fn serve_item<R: Wait, N: Naming, G: Gate>(
        &mut self,
        rt: &R,
        pool: &Pool,
        board: &Mutex<Board<N>>,
        gate: &G,
        seat: u32,
        place: Place,
        item: &Item,
    )
        requires laid { pool.now.laid ≡ N.laid }
        requires here { slice_get N.items place.at ≡ Some item.now }
        requires stands { StandsAt (want_at N.items place.at) item.now self.old.pass }
        requires ready { IsReady self.old.pass.client.setting pool.now.laid self.old.pass }
        requires lawful { IsLawfulItem self.old.pass.client.setting item.now }
        requires room { HasRoom self.old.pass.client.setting (item.now ∷ []) self.old.answers }
        requires rows { self.old.pass.client.setting.rows ≤ 4096 }
        ensures ready { IsOfPool pool.now self.new.pass }
        ensures served { HasServedItem (want_at N.items place.at) item.now self.old self.new }
    {
        match item {
            Item::Ask { call, .. } => self.ask(rt, pool, gate, seat, place.n, call),
            Item::Mark { .. } => self.mark(rt, pool, board, place.at),
            Item::After { .. } => self.heed(rt, pool, board, place.at),
            Item::Turn { .. } => {}
        }
    }

    // Serves the next item of the seat. Condition: there is one.
    fn serve_next<R: Wait, N: Naming, G: Gate>(
        &mut self,
        rt: &R,
        floor: &Floor,
        board: &Mutex<Board<N>>,
        gate: &G,
        seat: u32,
    )
        requires named { (floor.now.pool.now.laid ≡ N.laid) × (floor.now.items.now ≡ N.items) }
        requires lawful { All (IsLawfulItem (parts_of floor.now.cfg.now)) floor.now.items.now }
        requires next { self.old.next < length self.old.places.items }
        requires work { IsWork (parts_of floor.now.cfg.now) floor.now.pool.now.laid floor.now.items.now seat self.old }
        ensures work { IsWork (parts_of floor.now.cfg.now) floor.now.pool.now.laid floor.now.items.now seat self.new }
        ensures next { self.new.next ≡ suc self.old.next }
        ensures places { self.new.places.items ≡ self.old.places.items }
    {
        let place = self.places[self.next];
        let _rows = floor.cfg.parts();
        let item = item_at(floor.items, place.at);
        self.serve_item(rt, floor.pool, board, gate, seat, place, item);
        self.next += 1;
    }

    // Serves the next item of the seat, where there is one.
    pub(crate) fn step<R: Wait, N: Naming, G: Gate>(
        &mut self,
        rt: &R,
        floor: &Floor,
        board: &Mutex<Board<N>>,
        gate: &G,
        seat: u32,
    )
        requires named { (floor.now.pool.now.laid ≡ N.laid) × (floor.now.items.now ≡ N.items) }
        requires lawful { All (IsLawfulItem (parts_of floor.now.cfg.now)) floor.now.items.now }
        requires work { IsWork (parts_of floor.now.cfg.now) floor.now.pool.now.laid floor.now.items.now seat self.old }
        ensures work { IsWork (parts_of floor.now.cfg.now) floor.now.pool.now.laid floor.now.items.now seat self.new }
    {
        if self.next < self.places.len() {
            self.serve_next(rt, floor, board, gate, seat);
        }
    }

    // Serves all items of the seat that are left.
    pub(crate) fn finish<R: Wait, N: Naming, G: Gate>(
        &mut self,
        rt: &R,
        floor: &Floor,
        board: &Mutex<Board<N>>,
        gate: &G,
        seat: u32,
    )
        requires named { (floor.now.pool.now.laid ≡ N.laid) × (floor.now.items.now ≡ N.items) }
        requires lawful { All (IsLawfulItem (parts_of floor.now.cfg.now)) floor.now.items.now }
        requires work { IsWork (parts_of floor.now.cfg.now) floor.now.pool.now.laid floor.now.items.now seat self.old }
        ensures done { IsDone (parts_of floor.now.cfg.now) floor.now.pool.now.laid floor.now.items.now seat self.new }
    {
        while self.next < self.places.len() {
            self.serve_next(rt, floor, board, gate, seat);
        }
    }
}
