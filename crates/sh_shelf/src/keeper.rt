// The keeper of a shelf.
ghost use Rattle.std.specs.Prelude.{◌≡◌, ◌+◌, ◌<◌, ◌^◌, ◌++◌, ◌∷◌, [], drop, length, IfOk, IsOk, OnOk, MatchResult};
ghost use Rattle.sh_shelf.specs.{Shelf.{route_of, shelf_of, AreRising}, Racked.{Follows, IsAfter, IsShown}};

use crate::book::{Front, Head};
use crate::kept::{copy_of, rise};
use crate::looker::Told;
use crate::rack::Offered;
use crate::route::Route;
use crate::rule::{Puts, Shown};
use core::mem::replace_with;
use sh_image::InnerImage;
use std::alloc::{AllocError, Global};
use std::collections::VecDeque;
use std::marker::Model;
use std::sync::Wait;

/// It puts offers on a shelf. It is not `Drop`: end it by `end`.
pub struct Keeper {
    pub(crate) writer: Shown,
    /// Offers that the writer has not.
    pub(crate) waiting: VecDeque<Offered>,
    /// The word that counts the offers, which nobody else has.
    pub(crate) head: Head,
    /// All offers.
    pub(crate) front: Front,
    /// The published rows, rising by low.
    pub(crate) rising: Vec<Route>,
}

impl Model for Keeper {
    ghost use Rattle.std.specs.{Prelude.{◌++◌, drop}, Vec.{vec_capacity}};
    ghost use Rattle.sh_shelf.specs.{Racked.{routes_in}, Held.{IsKeeper, IsRisen, Keeping}};

    ghost Value = { Keeping };

    ghost view = { λ k. record { shelf = k.writer.desk.shown.value.front.book; room = k.writer.desk.shown.value.room; published = k.writer.desk.shown.value.front.log; pending = routes_in (drop k.writer.behind k.writer.log.items ++ k.waiting.items) } };

    ghost invariant = { λ k. IsKeeper k.head k.front k.writer.desk.shown.value (drop k.writer.behind k.writer.log.items) k.waiting.items × IsRisen k.writer.desk.shown.value (vec_capacity k.rising) k.rising.items };
}

impl Keeper {
    /// How many offers were made.
    pub fn offers(&self) -> u64
        ensures { result ≡ length self.now.published + length self.now.pending }
    {
        self.front.count()
    }

    /// The published rows, rising by low.
    pub fn rows(&self) -> &[Route]
        ensures { AreRising (shelf_of self.now.room self.now.published) result.now }
    {
        &self.rising
    }

    /// The offer is pending. After want of memory nothing changed. Conditions: the image is of level 1, and fewer than
    /// 2^63 offers were made.
    pub fn offer(&mut self, image: &InnerImage) -> Result<(), AllocError>
        requires level { image.now.level ≡ 1 }
        requires few { length self.old.published + length self.old.pending < 2 ^ 63 }
        ensures { MatchResult result (λ _. self.new ≡ record self.old { pending = self.old.pending ++ route_of image.now ∷ [] }) (λ _. self.new ≡ self.old) }
    {
        let route = Route::of(image);
        self.waiting.reserve(1)?;
        let mut front = self.front.again();
        if !front.add(&self.head, route) {
            // Never: nobody else has the word.
            return Err(AllocError);
        }
        self.waiting
            .push_back_reserved(Offered::new(route, front.again()));
        self.front = front;
        Ok(())
    }

    /// All pending offers are published in order, at once. After want of memory they are still pending.
    pub fn publish<R: Wait>(&mut self, rt: &R) -> Result<(), AllocError>
        ensures { MatchResult result (λ _. self.new ≡ record self.old { published = self.old.published ++ self.old.pending; pending = [] }) (λ _. self.new ≡ self.old) }
    {
        hand_over(&mut self.writer, &mut self.waiting)?;
        let published = put_up(rt, &mut self.writer);
        rise(&mut self.rising, self.writer.published().rows());
        published
    }

    /// A copy of the published rows, and the number of published offers.
    pub fn tell(&self, alloc: Global) -> Result<Told, AllocError>
        ensures { IfOk result (λ t. t ≡ record { shelf = self.now.shelf; room = self.now.room; offers = self.now.published }) }
    {
        let rack = self.writer.published();
        let room = rack.room();
        Ok(Told {
            room,
            rows: copy_of(alloc, room, rack.rows())?,
            front: rack.front().again(),
        })
    }

    /// Waits until no looker reads. From now on the lookers keep what they have.
    pub fn end<R: Wait>(self, rt: &R) {
        let Self {
            writer,
            waiting: _waiting,
            head: _head,
            front: _front,
            rising: _rising,
        } = self;
        writer.take(rt);
    }
}

// The writer gets the offers that wait, as long as there is memory.
fn hand_over(writer: &mut Shown, waiting: &mut VecDeque<Offered>) -> Result<(), AllocError>
    ensures desk { writer.new.desk ≡ writer.old.desk }
    ensures pending { drop writer.new.behind writer.new.log.items ++ waiting.new.items ≡ drop writer.old.behind writer.old.log.items ++ waiting.old.items }
    ensures none { OnOk result (waiting.new.items ≡ []) }
{
    while waiting.len() > 0 {
        let offer = waiting.pop_front().unwrap();
        if let Err(offer) = writer.append(offer) {
            waiting.push_front_reserved(offer);
            return Err(AllocError);
        }
    }
    Ok(())
}

// Publishes what the writer has, in place.
fn put_up<R: Wait>(rt: &R, writer: &mut Shown) -> Result<(), AllocError>
    requires { IsShown writer.old.desk.shown.value × Follows writer.old.desk.shown.value.front (drop writer.old.behind writer.old.log.items) }
    ensures { IsOk result × IsAfter writer.old.desk.shown.value (drop writer.old.behind writer.old.log.items) writer.new.desk.shown.value × (drop writer.new.behind writer.new.log.items ≡ []) }
{
    replace_with(
        writer,
        rt,
        |writer, rt| -> (Shown, Result<(), AllocError>)
            requires { IsShown writer.desk.shown.value × Follows writer.desk.shown.value.front (drop writer.behind writer.log.items) }
            ensures { IsOk result.1 × IsAfter writer.desk.shown.value (drop writer.behind writer.log.items) result.0.desk.shown.value × (drop result.0.behind result.0.log.items ≡ []) }
        { put(rt, writer) },
    )
}

// Publishes what the writer has.
fn put<R: Wait>(rt: &R, writer: Shown) -> (Shown, Result<(), AllocError>)
    requires { IsShown writer.desk.shown.value × Follows writer.desk.shown.value.front (drop writer.behind writer.log.items) }
    ensures { IsOk result.1 × IsAfter writer.desk.shown.value (drop writer.behind writer.log.items) result.0.desk.shown.value × (drop result.0.behind result.0.log.items ≡ []) }
{
    writer.publish_as::<Puts, R>(rt)
}
