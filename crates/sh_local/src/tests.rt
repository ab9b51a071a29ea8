ghost use Rattle.std.specs.Prelude.{◌≡◌, ◌≢◌, ◌+◌, ◌<◌, ◌≤◌, None, Some, true, false, []};
ghost use Rattle.sh_local.specs.{Chairs.{FitsAt, HasTicketFor, SitsAt}, Steps.{FitsIf}};
ghost use Rattle.atomic_table.specs.Seated.{TableId};

use super::*;
use atomic_table::{Play, Seat, Shared, Split, Table, TableRule};
use std::alloc::AllocError;
use std::marker::Model;
use std::process::Abort;
use std::sync::Wait;
use std::sync::atomic::{AtomicU64, Ordering};
use std::test::*;
use std::thread::{Threads, join, yield_now};

// A value that is neither `Copy` nor `Drop`: each one that is made is handed on or taken apart.
struct Baton {
    worth: u64,
}

impl Carried for Baton {
    type Key = ();

    ghost fits = { λ key cell x. (cell ≡ 1) × (x.worth < 8) };
}

// A number, at most the table's key.
impl Carried for u64 {
    type Key = u64;

    ghost fits = { λ key cell x. x ≤ key };
}

// Looks until the ticket is served.
fn await_turn<T: Carried, R: Wait>(
    rt: &R,
    cells: &Cells<T>,
    chair: &mut Chair<T>,
    cell: u32,
) -> Option<T>
    requires at { SitsAt cells.now chair.old cell }
    requires waits { HasTicketFor cell false chair.old.view }
    ensures at { SitsAt cells.now chair.new cell }
    ensures turn { HasTicketFor cell true chair.new.view }
    ensures fits { FitsIf (FitsAt T.fits cells.now cell) result }
{
    for _ in rt.forever() {
        match cells.look(chair, cell) {
            Look::Wait(_) => yield_now(),
            Look::Turn(value) => return value,
        }
    }
    unreachable!()
}

// What turns have seen: the sum of the values that were left and of those that were met, and how many turns came when
// just so many tickets had been served before as their own number says.
#[derive(Clone, Copy)]
struct Tally {
    left: u64,
    met: u64,
    in_order: u64,
}

impl Tally {
    fn plus(self, other: Tally) -> Tally {
        Tally {
            left: self.left.wrapping_add(other.left),
            met: self.met.wrapping_add(other.met),
            in_order: self.in_order.wrapping_add(other.in_order),
        }
    }
}

// One turn at cell 1: a baton that was left is taken apart, and where another chair waits a new one is left.
fn take_turn<R: Wait>(
    rt: &R,
    cells: &Cells<Baton>,
    served: &AtomicU64,
    chair: &mut Chair<Baton>,
    tally: &mut Tally,
)
    requires { SitsAt cells.now chair.old 1 × (chair.old.view.ticket ≡ None) }
    ensures { SitsAt cells.now chair.new 1 × (chair.new.view.ticket ≡ None) }
{
    let ticket = cells.draw(chair, 1);
    let met = match await_turn(rt, cells, chair, 1) {
        None => 0,
        Some(Baton { worth }) => worth,
    };
    let worth = ticket % 7 + 1;
    tally.met = tally.met.wrapping_add(met);
    if served.fetch_add(1, Ordering::SeqCst) == ticket {
        tally.in_order = tally.in_order.wrapping_add(1);
    }
    if cells.waiting(chair, 1) > 0 {
        tally.left = tally.left.wrapping_add(worth);
        cells.leave(chair, 1, Some(Baton { worth }));
    } else {
        cells.leave(chair, 1, None);
    }
}

// A hundred turns of one chair.
fn take_turns<R: Wait>(
    rt: &R,
    cells: &Cells<Baton>,
    served: &AtomicU64,
    chair: Chair<Baton>,
) -> (Chair<Baton>, Tally)
    requires { SitsAt cells.now chair 1 × (chair.view.ticket ≡ None) }
    ensures { SitsAt cells.now result.0 1 × (result.0.view.ticket ≡ None) }
{
    let mut chair = chair;
    let mut tally = Tally {
        left: 0,
        met: 0,
        in_order: 0,
    };
    for _ in 0..100 {
        take_turn(rt, cells, served, &mut chair, &mut tally);
    }
    (chair, tally)
}

// Two chairs, each in a thread of its own.
fn take_turns_beside<R: Threads + Wait + Sync>(
    rt: &R,
    cells: &Cells<Baton>,
    served: &AtomicU64,
    one: Chair<Baton>,
    two: Chair<Baton>,
) -> (Chair<Baton>, Chair<Baton>, Tally)
    requires one { SitsAt cells.now one 1 × (one.view.ticket ≡ None) }
    requires two { SitsAt cells.now two 1 × (two.view.ticket ≡ None) }
    ensures one { SitsAt cells.now result.0 1 × (result.0.view.ticket ≡ None) }
    ensures two { SitsAt cells.now result.1 1 × (result.1.view.ticket ≡ None) }
{
    let ((one, first), (two, second)) = join(
        rt,
        || -> (Chair<Baton>, Tally)
            requires { SitsAt cells.now one 1 × (one.view.ticket ≡ None) }
            ensures { SitsAt cells.entry.now result.0 1 × (result.0.view.ticket ≡ None) }
        { take_turns(rt, cells, served, one) },
        || -> (Chair<Baton>, Tally)
            requires { SitsAt cells.now two 1 × (two.view.ticket ≡ None) }
            ensures { SitsAt cells.entry.now result.0 1 × (result.0.view.ticket ≡ None) }
        { take_turns(rt, cells, served, two) },
    );
    (one, two, first.plus(second))
}

#[test]
fn two_threads_serve_each_ticket_once(rt: HostRuntime) -> Result<(), AllocError> {
    let (mut cells, mut chairs) = Cells::<Baton>::new(rt.alloc(), 2, 2, ())?;
    let Some(one) = chairs.pop() else {
        unreachable!()
    };
    let Some(two) = chairs.pop() else {
        unreachable!()
    };
    let served = AtomicU64::new(0);
    let (one, two, tally) = take_turns_beside(&rt, &cells, &served, one, two);
    chairs.push_reserved(one);
    chairs.push_reserved(two);
    cells.gather(chairs);
    cells.free();
    assert_eq!(rt; tally.in_order, 200);
    assert_eq!(rt; tally.left, tally.met);
    Ok(())
}

// Four chairs, each in a thread of its own.
fn take_turns_by_four<R: Threads + Wait + Sync>(
    rt: &R,
    cells: &Cells<Baton>,
    served: &AtomicU64,
    first: (Chair<Baton>, Chair<Baton>),
    second: (Chair<Baton>, Chair<Baton>),
) -> (
    (Chair<Baton>, Chair<Baton>, Tally),
    (Chair<Baton>, Chair<Baton>, Tally),
)
    requires first { SitsAt cells.now first.0 1 × (first.0.view.ticket ≡ None) × SitsAt cells.now first.1 1 × (first.1.view.ticket ≡ None) }
    requires second { SitsAt cells.now second.0 1 × (second.0.view.ticket ≡ None) × SitsAt cells.now second.1 1 × (second.1.view.ticket ≡ None) }
    ensures first { SitsAt cells.now result.0.0 1 × (result.0.0.view.ticket ≡ None) × SitsAt cells.now result.0.1 1 × (result.0.1.view.ticket ≡ None) }
    ensures second { SitsAt cells.now result.1.0 1 × (result.1.0.view.ticket ≡ None) × SitsAt cells.now result.1.1 1 × (result.1.1.view.ticket ≡ None) }
{
    join(
        rt,
        || -> (Chair<Baton>, Chair<Baton>, Tally)
            requires { SitsAt cells.now first.0 1 × (first.0.view.ticket ≡ None) × SitsAt cells.now first.1 1 × (first.1.view.ticket ≡ None) }
            ensures { SitsAt cells.entry.now result.0 1 × (result.0.view.ticket ≡ None) × SitsAt cells.entry.now result.1 1 × (result.1.view.ticket ≡ None) }
        { take_turns_beside(rt, cells, served, first.0, first.1) },
        || -> (Chair<Baton>, Chair<Baton>, Tally)
            requires { SitsAt cells.now second.0 1 × (second.0.view.ticket ≡ None) × SitsAt cells.now second.1 1 × (second.1.view.ticket ≡ None) }
            ensures { SitsAt cells.entry.now result.0 1 × (result.0.view.ticket ≡ None) × SitsAt cells.entry.now result.1 1 × (result.1.view.ticket ≡ None) }
        { take_turns_beside(rt, cells, served, second.0, second.1) },
    )
}

#[test]
fn four_threads_serve_each_ticket_once(rt: HostRuntime) -> Result<(), AllocError> {
    let (mut cells, mut chairs) = Cells::<Baton>::new(rt.alloc(), 4, 2, ())?;
    let Some(one) = chairs.pop() else {
        unreachable!()
    };
    let Some(two) = chairs.pop() else {
        unreachable!()
    };
    let Some(three) = chairs.pop() else {
        unreachable!()
    };
    let Some(four) = chairs.pop() else {
        unreachable!()
    };
    let served = AtomicU64::new(0);
    let ((one, two, first), (three, four, second)) = take_turns_by_four(
        &rt,
        &cells,
        &served,
        (one, two),
        (three, four),
    );
    chairs.push_reserved(one);
    chairs.push_reserved(two);
    chairs.push_reserved(three);
    chairs.push_reserved(four);
    cells.gather(chairs);
    cells.free();
    let tally = first.plus(second);
    assert_eq!(rt; tally.in_order, 400);
    assert_eq!(rt; tally.left, tally.met);
    Ok(())
}

// A turn at cell 2 for which nobody else draws: its ticket, and how many wait.
fn take_turn_alone<R: Abort>(rt: &R, cells: &Cells<u64>, chair: &mut Chair<u64>) -> (u64, u64)
    requires { SitsAt cells.now chair.old 2 × (chair.old.view.ticket ≡ None) }
    ensures { SitsAt cells.now chair.new 2 × (chair.new.view.ticket ≡ None) }
{
    let ticket = cells.draw(chair, 2);
    match cells.look(chair, 2) {
        Look::Turn(None) => {}
        _ => panic!(rt; "the turn is another ticket's, or has a value"),
    }
    let waiting = cells.waiting(chair, 2);
    cells.leave(chair, 2, None);
    (ticket, waiting)
}

#[test]
fn one_chair_alone_has_each_turn(rt: HostRuntime) -> Result<(), AllocError> {
    let (mut cells, mut chairs) = Cells::<u64>::new(rt.alloc(), 1, 3, 9)?;
    let Some(mut chair) = chairs.pop() else {
        unreachable!()
    };
    assert_eq!(rt; take_turn_alone(&rt, &cells, &mut chair), (0, 0));
    assert_eq!(rt; take_turn_alone(&rt, &cells, &mut chair), (1, 0));
    assert_eq!(rt; take_turn_alone(&rt, &cells, &mut chair), (2, 0));
    chairs.push_reserved(chair);
    cells.gather(chairs);
    Ok(())
}

// A chair draws, another draws, and the first leaves a number for it.
fn leave_for_the_next<R: Abort + Wait>(
    rt: &R,
    cells: &Cells<u64>,
    one: &mut Chair<u64>,
    two: &mut Chair<u64>,
) -> (u64, u64)
    requires most { FitsAt (λ key cell x. x ≤ key) cells.now 0 7 }
    requires one { SitsAt cells.now one.old 0 × (one.old.view.ticket ≡ None) }
    requires two { SitsAt cells.now two.old 0 × (two.old.view.ticket ≡ None) }
    ensures one { (one.new.table ≡ one.old.table) × (one.new.view.ticket ≡ None) }
    ensures two { (two.new.table ≡ two.old.table) × (two.new.view.ticket ≡ None) }
{
    cells.draw(one, 0);
    cells.draw(two, 0);
    let found = match cells.look(two, 0) {
        Look::Wait(found) => found,
        Look::Turn(_) => panic!(rt; "the turn is another ticket's"),
    };
    await_turn(rt, cells, one, 0);
    if cells.waiting(one, 0) == 1 {
        cells.leave(one, 0, Some(7));
    } else {
        cells.leave(one, 0, None);
    }
    let value = await_turn(rt, cells, two, 0);
    cells.leave(two, 0, None);
    (found, value.unwrap_or(0))
}

#[test]
fn the_next_turn_has_the_number_that_was_left(rt: HostRuntime) -> Result<(), AllocError> {
    let (mut cells, mut chairs) = Cells::<u64>::new(rt.alloc(), 2, 1, 7)?;
    let Some(mut one) = chairs.pop() else {
        unreachable!()
    };
    let Some(mut two) = chairs.pop() else {
        unreachable!()
    };
    assert_eq!(rt; leave_for_the_next(&rt, &cells, &mut one, &mut two), (0, 7));
    chairs.push_reserved(one);
    chairs.push_reserved(two);
    cells.gather(chairs);
    Ok(())
}

// What a seat at another table knows: how often it has added to that table's word. No value of it is made.
struct Adds {
    count: u64,
}

// That table's rule: its word is any.
struct AnyWord;

impl TableRule<(), Adds, ()> for AnyWord {
    ghost holds = { λ key s. Unit {0} };

    ghost first = { λ key. record { count = 0 } };
}

struct Add;

impl Play<(), Adds> for Add {
    ghost then = { λ st me n now. (now.0 ≡ record { count = me.0.count + 1 }) × (now.1 ≡ me.1) };
}

// A seat that names the table and knows nothing else.
struct Naming;

impl Split<Adds> for Naming {
    ghost left = { λ v. v };

    ghost right = { λ v. record { count = 0 } };
}

type Words = Shared<(), Adds, (), AnyWord>;

// A seat of another table, as a value that is neither `Copy` nor `Drop`.
struct Loan {
    seat: Seat<(), Adds>,
}

impl Model for Loan {
    ghost use Rattle.std.specs.Prelude.{◌≡◌, []};
    ghost use Rattle.atomic_table.specs.Seated.{TableId};

    ghost Value = { TableId };

    ghost view = { λ l. l.seat.table_id };

    ghost invariant = { λ l. l.seat.me.1 ≡ [] };
}

impl Carried for Loan {
    type Key = Seat<(), Adds>;

    ghost fits = { λ key cell x. x ≡ key.table_id };
}

impl Loan {
    // Adds one to the other table's word.
    fn add(&mut self, words: &Words)
        requires { (self.old ≡ words.now.table_id) × (0 < words.now.table_id.words) }
        ensures { self.new ≡ self.old }
    {
        words.fetch_add::<Add>(&mut self.seat, 0, 1);
    }

    fn into_seat(self) -> Seat<(), Adds>
        ensures { (result.table_id ≡ self) × (result.me.1 ≡ []) }
    {
        let Loan { seat } = self;
        seat
    }
}

// The one of two loans that is there; a second one ends.
fn one_of(words: &Words, handed: Option<Loan>, mine: Option<Loan>) -> Option<Loan>
    requires { FitsIf (λ x. x ≡ words.now.table_id) handed × FitsIf (λ x. x ≡ words.now.table_id) mine }
    ensures { FitsIf (λ x. x ≡ words.now.table_id) result }
{
    match handed {
        None => mine,
        Some(loan) => {
            match mine {
                None => {}
                Some(other) => drop(other.into_seat()),
            }
            Some(loan)
        }
    }
}

// A turn of a chair that may have the loan already, or have it handed on: it adds one by it, and hands it on where
// another chair waits.
fn add_and_hand_on<R: Wait>(
    rt: &R,
    words: &Words,
    cells: &Cells<Loan>,
    chair: &mut Chair<Loan>,
    mine: Option<Loan>,
) -> Option<Loan>
    requires words { 0 < words.now.table_id.words }
    requires keyed { FitsAt (λ key cell x. x ≡ key.table_id) cells.now 0 words.now.table_id }
    requires mine { FitsIf (λ x. x ≡ words.now.table_id) mine }
    requires at { SitsAt cells.now chair.old 0 }
    requires waits { HasTicketFor 0 false chair.old.view }
    ensures at { SitsAt cells.now chair.new 0 × (chair.new.view.ticket ≡ None) }
    ensures mine { FitsIf (λ x. x ≡ words.now.table_id) result }
{
    let handed = await_turn(rt, cells, chair, 0);
    match one_of(words, handed, mine) {
        None => {
            cells.leave(chair, 0, None);
            None
        }
        Some(loan) => {
            let mut loan = loan;
            loan.add(words);
            if cells.waiting(chair, 0) > 0 {
                cells.leave(chair, 0, Some(loan));
                None
            } else {
                cells.leave(chair, 0, None);
                Some(loan)
            }
        }
    }
}

// The loan goes from the first chair to the second, and comes back.
fn hand_round<R: Abort + Wait>(
    rt: &R,
    words: &Words,
    cells: &Cells<Loan>,
    one: &mut Chair<Loan>,
    two: &mut Chair<Loan>,
    loan: Loan,
) -> Option<Loan>
    requires words { 0 < words.now.table_id.words }
    requires keyed { FitsAt (λ key cell x. x ≡ key.table_id) cells.now 0 words.now.table_id }
    requires loan { loan ≡ words.now.table_id }
    requires one { SitsAt cells.now one.old 0 × (one.old.view.ticket ≡ None) }
    requires two { SitsAt cells.now two.old 0 × (two.old.view.ticket ≡ None) }
    ensures one { SitsAt cells.now one.new 0 × (one.new.view.ticket ≡ None) }
    ensures two { SitsAt cells.now two.new 0 × (two.new.view.ticket ≡ None) }
    ensures loan { FitsIf (λ x. x ≡ words.now.table_id) result }
{
    cells.draw(one, 0);
    cells.draw(two, 0);
    let loan = add_and_hand_on(rt, words, cells, one, Some(loan));
    assert!(rt; loan.is_none());
    cells.draw(one, 0);
    let loan = add_and_hand_on(rt, words, cells, two, loan);
    assert!(rt; loan.is_none());
    add_and_hand_on(rt, words, cells, one, loan)
}

#[test]
fn a_seat_of_another_table_comes_back(rt: HostRuntime) -> Result<(), AllocError> {
    let (table, mut seat) = Table::of_words(rt.alloc(), &[0], &())?;
    let key = table.shared.split_seat::<Naming>(&mut seat);
    let (mut cells, mut chairs) = Cells::<Loan>::new(rt.alloc(), 2, 1, key)?;
    let Some(mut one) = chairs.pop() else {
        unreachable!()
    };
    let Some(mut two) = chairs.pop() else {
        unreachable!()
    };
    let back = hand_round(
        &rt,
        &table.shared,
        &cells,
        &mut one,
        &mut two,
        Loan { seat },
    );
    chairs.push_reserved(one);
    chairs.push_reserved(two);
    cells.gather(chairs);
    cells.free();
    let Some(loan) = back else {
        panic!(rt; "the loan did not come back")
    };
    let closed = table.close_with(loan.into_seat());
    assert_eq!(rt; closed.word(0), 3);
    closed.free();
    Ok(())
}

#[test]
fn a_table_has_all_its_chairs(rt: HostRuntime) -> Result<(), AllocError> {
    let (mut cells, chairs) = Cells::<Baton>::new(rt.alloc(), 5, 3, ())?;
    let count = chairs.len();
    cells.gather(chairs);
    cells.free();
    assert_eq!(rt; count, 5);
    Ok(())
}
