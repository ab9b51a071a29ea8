// A cache of inner nodes, in columns.
ghost use Rattle.std.specs.{Prelude.{◌≡◌, ◌<◌, ◌≤◌, ◌∷◌, ◌++◌, ℕ, [], length, option_map, slice_index, slice_set, IfOk, IfSome, MatchOption}, List.{remove, AllByRecursion}};
ghost use Rattle.sh_base.specs.Parts.{parts_of};
ghost use Rattle.sh_lanes.specs.Scans.{LacksWord, IsFirst};
ghost use Rattle.sh_image.specs.Inner.{Inner};
ghost use Rattle.sh_cache.specs.{Cached.{forgotten, found, kept, HaveOwnLows}, Columns.{lows_of, with_room, AreNumbers}};

use crate::places::place_of_best;
use sh_base::Config;
use sh_image::InnerImage;
use sh_lanes::first_equal;
use std::alloc::{AllocError, Global};
use std::marker::Model;

/// Inner nodes of level 1, the oldest first. No two have one low fence. The fences stand in columns, and an image never
/// moves: it is copied into a slot when it is kept.
#[derive(Debug, Drop)]
pub struct Cache {
    room: usize,
    lows: Vec<u64>,
    highs: Vec<u64>,
    // where each row's image lies, and behind them the slots that no row has
    slots: Vec<u32>,
    images: Vec<InnerImage>,
}

impl Model for Cache {
    ghost use Rattle.std.specs.{Prelude.{length}, Vec.{vec_capacity}};
    ghost use Rattle.sh_cache.specs.{Cached.{Rows}, Columns.{rows_in, IsCache}};

    ghost Value = { Rows };

    ghost view = { λ c. record { room = c.room; rows = rows_in c.images.items c.slots.items (length c.lows.items) } };

    ghost invariant = { λ c. IsCache c.room (vec_capacity c.lows) (vec_capacity c.highs) c.lows.items c.highs.items c.slots.items c.images.items };
}

impl Cache {
    /// No rows, with room for the setting's `cached`. Its memory is taken here, and no later call takes any.
    pub fn new(alloc: Global, cfg: &Config) -> Result<Cache, AllocError>
        ensures { IfOk result (λ c. c ≡ record { room = (parts_of cfg.now).cached; rows = [] }) }
    {
        let cached = cfg.parts().cached;
        let room = cached as usize;
        Ok(Cache {
            room,
            lows: Vec::with_capacity(alloc, room)?,
            highs: Vec::with_capacity(alloc, room)?,
            slots: free_slots(alloc, cached)?,
            images: blank_images(alloc, room)?,
        })
    }

    /// Of the rows that cover a key (from the low fence on, below the high fence) the one with the greatest low fence.
    /// None exactly where no row covers the key. Its level is 1.
    pub fn find(&self, key: u64) -> Option<&InnerImage>
        ensures row { option_map (λ r. r.now) result ≡ found self.now.rows key }
        ensures level { IfSome result (λ r. r.now.level ≡ 1) }
    {
        let at = place_of_best(&self.lows, &self.highs, key)?;
        Some(&self.images[self.slots[at] as usize])
    }

    /// No two rows have one low fence, there are no more than there is room for, and each is of level 1.
    pub fn rows_apart(&self)
        ensures apart { HaveOwnLows self.now.rows }
        ensures within { length self.now.rows ≤ self.now.room }
        ensures levels { AllByRecursion (λ (r : Inner). r.level ≡ 1) self.now.rows }
    {
        let _rows = &self.lows;
    }

    /// Keeps a copy of an inner node. It replaces the row with the same low fence and takes over its age. Where there
    /// is none it takes free room, and else the room of the oldest row. A cache with no room stays empty. Condition:
    /// its level is 1.
    pub fn keep(&mut self, image: &InnerImage)
        requires { image.now.level ≡ 1 }
        ensures { self.new ≡ record self.old { rows = kept self.old.room self.old.rows image.now } }
    {
        if let Some(at) = self.place(image.low()) {
            self.replace(at, image);
        } else if self.room > 0 {
            self.make_room();
            self.add(image);
        }
    }

    /// Forgets the row with this low fence, where there is one. All others stay.
    pub fn forget(&mut self, low: u64)
        ensures { self.new ≡ record self.old { rows = forgotten self.old.rows low } }
    {
        if let Some(at) = self.place(low) {
            self.remove(at);
        }
    }

    // Where the row with this low fence stands.
    fn place(&self, low: u64) -> Option<usize>
        ensures { MatchOption result (LacksWord (lows_of self.now.rows) low) (λ at. IsFirst (lows_of self.now.rows) low at) }
    {
        first_equal(&self.lows, low)
    }

    // Puts an image in the place of a row with the same low fence. Condition: its level is 1.
    fn replace(&mut self, at: usize, image: &InnerImage)
        requires level { image.now.level ≡ 1 }
        requires place { IsFirst (lows_of self.old.rows) image.now.low at }
        ensures { self.new ≡ record self.old { rows = slice_set self.old.rows at image.now } }
    {
        let slot = self.slots[at] as usize;
        self.highs[at] = image.high();
        self.images[slot].copy_from(image);
    }

    // Puts a row behind the others. Conditions: its level is 1, no row has its low fence, and there is room.
    fn add(&mut self, image: &InnerImage)
        requires level { image.now.level ≡ 1 }
        requires other { LacksWord (lows_of self.old.rows) image.now.low }
        requires room { length self.old.rows < self.old.room }
        ensures { self.new ≡ record self.old { rows = self.old.rows ++ image.now ∷ [] } }
    {
        let slot = self.slots[self.lows.len()] as usize;
        self.lows.push_reserved(image.low());
        self.highs.push_reserved(image.high());
        self.images[slot].copy_from(image);
    }

    // Takes the oldest row away where there is no room left. Condition: the cache has room for a row.
    fn make_room(&mut self)
        requires { 0 < self.old.room }
        ensures { self.new ≡ record self.old { rows = with_room self.old.room self.old.rows } }
    {
        if self.lows.len() == self.room {
            self.remove(0);
        }
    }

    // Takes a row away. Condition: there is one at this place.
    fn remove(&mut self, at: usize)
        requires { at < length self.old.rows }
        ensures { self.new ≡ record self.old { rows = remove self.old.rows at } }
    {
        self.lows.remove(at);
        self.highs.remove(at);
        let freed = self.slots.remove(at);
        self.slots.push_reserved(freed);
    }
}

// The slots, in their order.
fn free_slots(alloc: Global, room: u32) -> Result<Vec<u32>, AllocError>
    ensures { IfOk result (λ v. AreNumbers room v.items) }
{
    let mut slots = Vec::with_capacity(alloc, room as usize)?;
    for slot in 0..room {
        slots.push_reserved(slot);
    }
    Ok(slots)
}

// An image for each slot.
fn blank_images(alloc: Global, room: usize) -> Result<Vec<InnerImage>, AllocError>
    ensures { IfOk result (λ v. length v.items ≡ room) }
{
    let mut images = Vec::with_capacity(alloc, room)?;
    for _ in 0..room {
        images.push_reserved(InnerImage::new(0, 0, 0, 0, 0));
    }
    Ok(images)
}
