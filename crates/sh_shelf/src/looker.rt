// The lookers of a shelf, and what they are told.
ghost use Rattle.std.specs.{Prelude.{◌≡◌, ◌⊎◌, length}, Vec.{vec_capacity}};
ghost use mathlib.Core.List.{IsPrefix};
ghost use Rattle.sh_cache.specs.Cached.{found};
ghost use Rattle.sh_shelf.specs.{Shelf.{shelf_of}, Held.{IsCopy}};

use crate::book::Front;
use crate::kept::{find_in, replace};
use crate::rack::Rack;
use crate::route::Route;
use crate::rule::{Known, Looks, Shelved};
use left_right::reader::Reader;
use std::marker::Model;

/// A copy of the published rows, and the number of offers behind them.
#[derive(Drop)]
pub struct Told {
    pub(crate) room: usize,
    pub(crate) rows: Vec<Route>,
    pub(crate) front: Front,
}

impl Model for Told {
    ghost use Rattle.std.specs.Vec.{vec_capacity};
    ghost use Rattle.sh_shelf.specs.Held.{IsCopy, Looking};

    ghost Value = { Looking };

    ghost view = { λ t. record { shelf = t.front.book; room = t.room; offers = t.front.log } };

    ghost invariant = { λ t. IsCopy t.room (vec_capacity t.rows) t.rows.items t.front };
}

/// It finds routes. It has a copy of the rows that it last saw, or was told.
#[derive(Drop)]
pub struct Looker {
    pub(crate) reader: Option<Reader<Rack, Known, Shelved>>,
    pub(crate) room: usize,
    pub(crate) rows: Vec<Route>,
    pub(crate) front: Front,
}

impl Model for Looker {
    ghost use Rattle.std.specs.Prelude.{IfSome};
    ghost use Rattle.std.specs.Vec.{vec_capacity};
    ghost use Rattle.left_right.specs.Sides.{view as seen_by};
    ghost use Rattle.sh_shelf.specs.Held.{IsCopy, Knows, Looking};

    ghost Value = { Looking };

    ghost view = { λ l. record { shelf = l.front.book; room = l.room; offers = l.front.log } };

    ghost invariant = { λ l. IfSome l.reader (λ r. Knows l.room l.front (seen_by r.place)) × IsCopy l.room (vec_capacity l.rows) l.rows.items l.front };
}

// Takes in rows that come from at least as many offers.
fn take_in(rows: &mut Vec<Route>, front: &mut Front, room: usize, from: &[Route], seen: &Front)
    requires copy { IsCopy room (vec_capacity rows.old) rows.old.items front.old }
    requires book { seen.now.book ≡ front.old.book }
    requires rows { from.now ≡ shelf_of room seen.now.log }
    ensures copy { IsCopy room (vec_capacity rows.new) rows.new.items front.new }
    ensures book { front.new.book ≡ front.old.book }
    ensures old { IsPrefix front.old.log front.new.log }
    ensures seen { IsPrefix seen.now.log front.new.log }
    ensures one { (front.new ≡ front.old) ⊎ (front.new ≡ seen.now) }
{
    if !front.begins(seen) {
        return;
    }
    replace(rows, from);
    *front = seen.again();
}

impl Told {
    /// The published rows.
    pub fn rows(&self) -> &[Route]
        ensures { result.now ≡ shelf_of self.now.room self.now.offers }
    {
        &self.rows
    }

    /// How many offers are behind them.
    pub fn offers(&self) -> u64
        ensures { result ≡ length self.now.offers }
    {
        self.front.count()
    }
}

impl Looker {
    /// It has seen no less than what it is told, from now on. Condition: it is told of its own shelf.
    pub fn learn(&mut self, told: Told)
        requires shelf { told.shelf ≡ self.old.shelf }
        requires room { told.room ≡ self.old.room }
        ensures shelf { (self.new.shelf ≡ self.old.shelf) × (self.new.room ≡ self.old.room) }
        ensures later { IsPrefix self.old.offers self.new.offers }
        ensures told { IsPrefix told.offers self.new.offers }
        ensures one { (self.new.offers ≡ self.old.offers) ⊎ (self.new.offers ≡ told.offers) }
    {
        take_in(
            &mut self.rows,
            &mut self.front,
            self.room,
            &told.rows,
            &told.front,
        );
    }

    // Enters the shelf, where it may, and takes in what is there.
    fn look(&mut self)
        ensures shelf { (self.new.shelf ≡ self.old.shelf) × (self.new.room ≡ self.old.room) }
        ensures later { IsPrefix self.old.offers self.new.offers }
    {
        let Some(reader) = self.reader.take() else {
            return;
        };
        match reader.enter_as::<Looks>() {
            Ok(reading) => {
                let rack = reading.get();
                take_in(
                    &mut self.rows,
                    &mut self.front,
                    self.room,
                    rack.rows(),
                    rack.front(),
                );
                self.reader = Some(reading.leave());
            }
            Err(reader) => self.reader = Some(reader),
        }
    }

    /// Of the rows of the offers that it has then seen, that cover the key, the one with the greatest low. Those offers
    /// begin with all that it had seen or was told. It takes no memory.
    pub fn find(&mut self, key: u64) -> Option<Route>
        ensures shelf { (self.new.shelf ≡ self.old.shelf) × (self.new.room ≡ self.old.room) }
        ensures later { IsPrefix self.old.offers self.new.offers }
        ensures route { result ≡ found (shelf_of self.new.room self.new.offers) key }
    {
        self.look();
        find_in(&self.rows, key)
    }
}
