// The marks and afters of a sheet, as clocks.
ghost use Rattle.std.specs.{Prelude.{◌≡◌, ◌<◌, ◌≤◌, ◌+◌, ◌++◌, ◌∷◌, [], ℕ, List, All, IfOk, OnOk, length, get_or, nat_le}, List.{list_all, range_with_len, sum_by}};
ghost use Rattle.sh_map.specs.declared.call.Call.{Call};
ghost use Rattle.sh_sheet.specs.{declared.item.Item.{Item, TheVariants.{Ask, Mark, After}}, Sheet.{item_calls, item_seat}, Marks.{at_place, greater, stops_of}};
ghost use Rattle.sh_replay.specs.{Course.{ended_of, is_held_back}, Clocks.{before, no_clock, AreRows, IsFound}, Standing.{IsStand, Keeps}};
ghost use Rattle.sh_world.specs.States.{State};

use sh_sheet::Item;
use sh_world::World;
use std::alloc::{AllocError, Global};
use std::collections::BTreeMap;

// How many calls of each seat come before something.
#[derive(Clone, Copy, Debug)]
pub(crate) struct Clock {
    pub(crate) counts: [u32; 64],
}

// An after: its seat, and what comes before the seat's calls behind it.
#[derive(Clone, Copy, Debug)]
pub(crate) struct AfterRow {
    pub(crate) seat: u32,
    pub(crate) clock: Clock,
}

// What was found in a sheet so far: its afters, and what comes before each seat's next call and each mark.
#[derive(Debug, Drop)]
struct Found {
    rows: Vec<AfterRow>,
    seats: Vec<Clock>,
    marks: BTreeMap<u64, Clock>,
}

fn greater(a: u32, b: u32) -> u32
    ensures { result ≡ greater a b }
{
    if a <= b { b } else { a }
}

// One call more of the seat.
fn more(clock: &mut Clock, seat: u32)
    requires seat { seat < 64 }
    requires few { get_or clock.old.counts seat 0 < 4294967295 }
    ensures { (of : ℕ) → get_or clock.new.counts of 0 ≡ at_place (λ x. get_or clock.old.counts x 0) seat (get_or clock.old.counts seat 0 + 1) of }
{
    clock.counts[seat as usize] += 1;
}

// The greater of the two counts of each seat.
fn join(clock: &mut Clock, other: &Clock)
    ensures { (of : ℕ) → of < 64 → get_or clock.new.counts of 0 ≡ greater (get_or clock.old.counts of 0) (get_or other.now.counts of 0) }
{
    for seat in 0..64 {
        clock.counts[seat] = greater(clock.counts[seat], other.counts[seat]);
    }
}

impl Found {
    // One call more of the seat.
    fn count(&mut self, seat: u32)
        requires long { length self.old.seats.items ≡ 64 }
        requires seat { seat < 64 }
        requires few { get_or (get_or self.old.seats.items seat no_clock).counts seat 0 < 4294967295 }
        ensures { (items : List Item) (call : Call) → IsFound items self.old.rows.items self.old.seats.items self.old.marks → IsFound (items ++ Ask seat call ∷ []) self.new.rows.items self.new.seats.items self.new.marks }
    {
        let mut clock = self.seats[seat as usize];
        more(&mut clock, seat);
        self.seats[seat as usize] = clock;
    }

    // A mark of the seat.
    fn mark(&mut self, seat: u32, number: u64) -> Result<(), AllocError>
        requires long { length self.old.seats.items ≡ 64 }
        requires seat { seat < 64 }
        ensures { OnOk result ((items : List Item) → IsFound items self.old.rows.items self.old.seats.items self.old.marks → IsFound (items ++ Mark seat number ∷ []) self.new.rows.items self.new.seats.items self.new.marks) }
    {
        let clock = self.seats[seat as usize];
        self.marks.insert(number, clock)?;
        Ok(())
    }

    // What comes before the seat's calls behind an after.
    fn behind(&self, seat: u32, number: u64) -> Clock
        requires long { length self.now.seats.items ≡ 64 }
        requires seat { seat < 64 }
        ensures { (items : List Item) → IsFound items self.now.rows.items self.now.seats.items self.now.marks → (of : ℕ) → of < 64 → get_or result.counts of 0 ≡ greater ((before items).seats seat of) ((before items).marks number of) }
    {
        let mut clock = self.seats[seat as usize];
        if let Some(mark) = self.marks.get(&number) {
            join(&mut clock, mark);
        }
        clock
    }

    // An after of the seat.
    fn after(&mut self, seat: u32, number: u64) -> Result<(), AllocError>
        requires long { length self.old.seats.items ≡ 64 }
        requires seat { seat < 64 }
        ensures { OnOk result ((items : List Item) → IsFound items self.old.rows.items self.old.seats.items self.old.marks → IsFound (items ++ After seat number ∷ []) self.new.rows.items self.new.seats.items self.new.marks) }
    {
        let clock = self.behind(seat, number);
        self.rows.push(AfterRow { seat, clock })?;
        self.seats[seat as usize] = clock;
        Ok(())
    }
}

// The afters among these items, each with what comes before the calls behind it.
fn afters_in(alloc: Global, items: &[Item]) -> Result<Vec<AfterRow>, AllocError>
    requires seats { All (λ (i : Item). item_seat i < 64) items.now }
    requires few { sum_by item_calls items.now < 4294967296 }
    ensures { IfOk result (λ v. AreRows v.items (stops_of items.now)) }
{
    let mut found = Found {
        rows: Vec::new(alloc),
        seats: vec![in alloc; Clock { counts: [0; 64] }; 64]?,
        marks: BTreeMap::new(alloc),
    };
    for item in items {
        match item {
            Item::Ask { seat, .. } => found.count(*seat),
            Item::Mark { seat, number } => found.mark(*seat, *number)?,
            Item::After { seat, number } => found.after(*seat, *number)?,
            Item::Turn { .. } => {}
        }
    }
    let Found { rows, .. } = found;
    Ok(rows)
}

// The afters of a sheet, and for each seat the place of the first one that it hasn't passed, as far as is known.
#[derive(Debug, Drop)]
pub(crate) struct Marks {
    rows: Vec<AfterRow>,
    next: [usize; 64],
}

// Where a seat stands among the afters, and whether one holds it back there.
#[derive(Clone, Copy, Debug)]
struct Stand {
    at: usize,
    held: bool,
}

// Whether all calls have ended that come before.
fn has_passed(world: &World, clock: &Clock) -> bool
    requires { length world.now.seats ≤ 64 }
    ensures { result ≡ list_all (λ of. nat_le (get_or clock.now.counts of 0) (ended_of world.now of)) (range_with_len 0 (length world.now.seats)) }
{
    for seat in 0..world.seats() {
        if world.done_calls(seat) < clock.counts[seat as usize] {
            return false;
        }
    }
    true
}

impl Marks {
    /// The afters among these items, of which no seat has passed one.
    pub(crate) fn of(alloc: Global, items: &[Item]) -> Result<Marks, AllocError>
        requires seats { All (λ (i : Item). item_seat i < 64) items.now }
        requires few { sum_by item_calls items.now < 4294967296 }
        ensures { IfOk result (λ m. (s : State) → Keeps items.now s m) }
    {
        let rows = afters_in(alloc, items)?;
        Ok(Marks {
            rows,
            next: [0; 64],
        })
    }

    /// Whether the seat is held back: it stands before an after, and not all calls have ended that come before.
    #[inline]
    pub(crate) fn holds(&mut self, world: &World, seat: u32) -> bool
        requires seat { seat < 64 }
        requires few { length world.now.seats ≤ 64 }
        requires own { seat < length world.now.seats }
        ensures keeps { (items : List Item) → Keeps items world.now self.old → Keeps items world.now self.new }
        ensures held { (items : List Item) → Keeps items world.now self.old → result ≡ is_held_back items world.now seat }
    {
        if self.next[seat as usize] >= self.rows.len() {
            return false;
        }
        let stand = self.stand(world, seat);
        self.next[seat as usize] = stand.at;
        stand.held
    }

    // Where the seat stands now.
    #[inline(never)]
    fn stand(&self, world: &World, seat: u32) -> Stand
        requires seat { seat < 64 }
        requires few { length world.now.seats ≤ 64 }
        requires own { seat < length world.now.seats }
        ensures { IsStand (ended_of world.now) (length world.now.seats) seat self.now.rows.items (get_or self.now.next seat 0) result.at result.held }
    {
        for at in self.next[seat as usize]..self.rows.len() {
            let row = &self.rows[at];
            if row.seat == seat {
                if world.done_calls(seat) < row.clock.counts[seat as usize] {
                    return Stand { at, held: false };
                }
                if !has_passed(world, &row.clock) {
                    return Stand { at, held: true };
                }
            }
        }
        Stand {
            at: self.rows.len(),
            held: false,
        }
    }
}
