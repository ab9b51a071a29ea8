// The seats serve their items side by side.
ghost use Rattle.std.specs.Prelude.{◌≡◌, ◌<◌, ◌≤◌, [], All, IfOk, length, vec_capacity, vec_len};
ghost use Rattle.sh_base.specs.{Parts.{parts_of}, Setting.{all_seats}};
ghost use Rattle.sh_sheet.specs.Sheet.{IsLawfulItem};
ghost use Rattle.sh_fleet.specs.{Sharing.{AreDone, AreWorks, IsDone, IsWork}, Tasks.{AreTasks, IsTask, IsWorkOn}};

use crate::board::{Board, Naming};
use crate::sharing::item_seat;
use crate::work::{Floor, Work};
use sh_base::Config;
use sh_pool::Pool;
use sh_sheet::{Gate, Item};
use std::alloc::{AllocError, Global};
use std::marker::{Send, Sync};
use std::sync::atomic::{AtomicU64, Ordering};
use std::sync::{Mutex, Wait};
use std::thread;
use std::thread::{Promise, PromisedHandle, Scope, Threads};

/// That a thread gives back the work of its seat.
#[derive(Clone, Copy)]
pub struct Serves<'a> {
    pub(crate) floor: Floor<'a>,
    pub(crate) seat: u32,
}

impl<'a> Promise<Work> for Serves<'a> {
    ghost kept_by = { λ p w. IsWorkOn p.floor p.seat w };
}

/// A seat's work: in a thread of its own, or held by the caller.
#[derive(Drop)]
pub enum Task<'a> {
    Running(PromisedHandle<Work, Serves<'a>>),
    Held(Work),
}

// What a seat's thread does. Where no thread could be made the caller calls it, and gets the work back as it was. (A promise
// knows a closure's result only where references to plain types are given to it, and not a `Floor`.)
fn run<R: Wait, N: Naming, G: Gate>(
    rt: &R,
    cfg: &Config,
    pool: &Pool,
    items: &[Item],
    board: &Mutex<Board<N>>,
    gate: &G,
    held: &AtomicU64,
    seat: u32,
    work: Work,
) -> Work
    requires named { (pool.now.laid ≡ N.laid) × (items.now ≡ N.items) }
    requires lawful { All (IsLawfulItem (parts_of cfg.now)) items.now }
    requires seat { seat < 64 }
    requires work { IsWork (parts_of cfg.now) pool.now.laid items.now seat work }
    ensures { IsWork (parts_of cfg.now) pool.now.laid items.now seat result }
{
    let mut work = work;
    if (held.load(Ordering::SeqCst) >> seat) & 1 == 0 {
        work.finish(rt, &Floor { cfg, pool, items }, board, gate, seat);
    }
    work
}

// The work of a seat that has items goes to a thread of its own; else, and where no thread could be made, it is held.
fn start<'s, E, R: Wait + Sync, N: Naming + Send + Sync, G: Gate + Sync>(
    rt: &'s R,
    scope: &Scope<'s, E>,
    floor: Floor<'s>,
    board: &'s Mutex<Board<N>>,
    gate: &'s G,
    held: &'s AtomicU64,
    seat: u32,
    work: Work,
) -> Task<'s>
    requires named { (floor.pool.now.laid ≡ N.laid) × (floor.items.now ≡ N.items) }
    requires lawful { All (IsLawfulItem (parts_of floor.cfg.now)) floor.items.now }
    requires seat { seat < 64 }
    requires work { IsWorkOn floor seat work }
    ensures { IsTask floor.entry seat result }
{
    if work.places.is_empty() {
        return Task::Held(work);
    }
    let Floor { cfg, pool, items } = floor;
    let serves = Serves { floor, seat };
    let started = scope.spawn_with(
        serves,
        move || -> Work
            requires { (pool.now.laid ≡ N.laid) × (items.now ≡ N.items) × All (IsLawfulItem (parts_of cfg.now)) items.now × (seat < 64) × IsWork (parts_of cfg.now) pool.now.laid items.now seat work }
            ensures { IsWork (parts_of cfg.entry.now) pool.entry.now.laid items.entry.now seat result }
        { run(rt, cfg, pool, items, board, gate, held, seat, work) },
    );
    match started {
        Ok(handle) => Task::Running(handle),
        Err(refused) => {
            held.fetch_or(1 << seat, Ordering::SeqCst);
            Task::Held((refused.value)())
        }
    }
}

// Starts all seats, in rising order.
fn start_all<'s, E, R: Wait + Sync, N: Naming + Send + Sync, G: Gate + Sync>(
    rt: &'s R,
    scope: &Scope<'s, E>,
    alloc: Global,
    floor: Floor<'s>,
    board: &'s Mutex<Board<N>>,
    gate: &'s G,
    held: &'s AtomicU64,
    works: Vec<Work>,
) -> Result<Vec<Task<'s>>, AllocError>
    requires named { (floor.pool.now.laid ≡ N.laid) × (floor.items.now ≡ N.items) }
    requires lawful { All (IsLawfulItem (parts_of floor.cfg.now)) floor.items.now }
    requires few { vec_len works ≤ 64 }
    requires works { AreWorks (parts_of floor.cfg.now) floor.pool.now.laid floor.items.now 0 works.items }
    ensures long { IfOk result (λ v. vec_len v ≡ vec_len works) }
    ensures tasks { IfOk result (λ v. AreTasks floor.entry 0 v.items) }
{
    let mut tasks = Vec::with_capacity(alloc, works.len())?;
    for work in works {
        let seat = tasks.len() as u32;
        tasks.push_reserved(start(rt, scope, floor, board, gate, held, seat, work));
    }
    Ok(tasks)
}

// Serves the next item of a seat that has no thread.
fn step_held<R: Wait, N: Naming, G: Gate>(
    rt: &R,
    floor: &Floor,
    board: &Mutex<Board<N>>,
    gate: &G,
    seat: u32,
    task: &mut Task,
)
    requires named { (floor.now.pool.now.laid ≡ N.laid) × (floor.now.items.now ≡ N.items) }
    requires lawful { All (IsLawfulItem (parts_of floor.now.cfg.now)) floor.now.items.now }
    requires task { IsTask floor.now seat task.old }
    ensures { IsTask floor.now seat task.new }
{
    if let Task::Held(work) = task {
        work.step(rt, floor, board, gate, seat);
    }
}

// Serves the items of the seats that have no thread, in the sheet's order.
fn serve_held<R: Wait, N: Naming, G: Gate>(
    rt: &R,
    floor: &Floor,
    board: &Mutex<Board<N>>,
    gate: &G,
    tasks: &mut Vec<Task>,
)
    requires named { (floor.now.pool.now.laid ≡ N.laid) × (floor.now.items.now ≡ N.items) }
    requires lawful { All (IsLawfulItem (parts_of floor.now.cfg.now)) floor.now.items.now }
    requires long { vec_len tasks.old ≡ all_seats (parts_of floor.now.cfg.now) }
    requires tasks { AreTasks floor.now 0 tasks.old.items }
    ensures long { vec_len tasks.new ≡ vec_len tasks.old }
    ensures tasks { AreTasks floor.now 0 tasks.new.items }
{
    for item in floor.items {
        let seat = item_seat(item);
        step_held(rt, floor, board, gate, seat, &mut tasks[seat as usize]);
    }
}

// The work of a task, with all its items served.
fn end<R: Threads + Wait, N: Naming, G: Gate>(
    rt: &R,
    floor: &Floor,
    board: &Mutex<Board<N>>,
    gate: &G,
    seat: u32,
    task: Task,
) -> Work
    requires named { (floor.now.pool.now.laid ≡ N.laid) × (floor.now.items.now ≡ N.items) }
    requires lawful { All (IsLawfulItem (parts_of floor.now.cfg.now)) floor.now.items.now }
    requires task { IsTask floor.now seat task }
    ensures { IsDone (parts_of floor.now.cfg.now) floor.now.pool.now.laid floor.now.items.now seat result }
{
    let mut work = match task {
        Task::Running(handle) => handle.join(rt),
        Task::Held(work) => work,
    };
    work.finish(rt, floor, board, gate, seat);
    work
}

// The works of all tasks, in rising order, with all items served. Condition: there is room for them.
fn end_all<R: Threads + Wait, N: Naming, G: Gate>(
    rt: &R,
    floor: &Floor,
    board: &Mutex<Board<N>>,
    gate: &G,
    tasks: Vec<Task>,
    done: Vec<Work>,
) -> Vec<Work>
    requires named { (floor.now.pool.now.laid ≡ N.laid) × (floor.now.items.now ≡ N.items) }
    requires lawful { All (IsLawfulItem (parts_of floor.now.cfg.now)) floor.now.items.now }
    requires few { vec_len tasks ≤ 64 }
    requires tasks { AreTasks floor.now 0 tasks.items }
    requires room { (done.items ≡ []) × (vec_len tasks ≤ vec_capacity done) }
    ensures long { vec_len result ≡ vec_len tasks.entry }
    ensures done { AreDone (parts_of floor.now.cfg.now) floor.now.pool.now.laid floor.now.items.now 0 result.items }
{
    let mut done = done;
    for task in tasks {
        let seat = done.len() as u32;
        done.push_reserved(end(rt, floor, board, gate, seat, task));
    }
    done
}

// Starts all seats in a scope, serves those without a thread, and joins all. All memory is taken before the first thread
// starts.
fn serve_in<'s, E, R: Threads + Wait + Sync, N: Naming + Send + Sync, G: Gate + Sync>(
    rt: &'s R,
    scope: &Scope<'s, E>,
    alloc: Global,
    cfg: &'s Config,
    pool: &'s Pool,
    items: &'s [Item],
    board: &'s Mutex<Board<N>>,
    gate: &'s G,
    held: &'s AtomicU64,
    works: Vec<Work>,
) -> Result<Vec<Work>, AllocError>
    requires named { (pool.now.laid ≡ N.laid) × (items.now ≡ N.items) }
    requires lawful { All (IsLawfulItem (parts_of cfg.now)) items.now }
    requires few { all_seats (parts_of cfg.now) ≤ 64 }
    requires long { vec_len works ≡ all_seats (parts_of cfg.now) }
    requires works { AreWorks (parts_of cfg.now) pool.now.laid items.now 0 works.items }
    ensures { IfOk result (λ v. (vec_len v ≡ all_seats (parts_of cfg.now)) × AreDone (parts_of cfg.now) pool.now.laid items.now 0 v.items) }
{
    let floor = Floor { cfg, pool, items };
    let done = Vec::with_capacity(alloc, works.len())?;
    let mut tasks = start_all(rt, scope, alloc, floor, board, gate, held, works)?;
    serve_held(rt, &floor, board, gate, &mut tasks);
    Ok(end_all(rt, &floor, board, gate, tasks, done))
}

// Serves all items of all seats: each seat that has items in a thread of its own, and in the sheet's order those for which
// no thread could be made.
pub(crate) fn serve_all<R: Threads + Wait + Sync, N: Naming + Send + Sync, G: Gate + Sync>(
    rt: &R,
    alloc: Global,
    cfg: &Config,
    pool: &Pool,
    items: &[Item],
    board: &Mutex<Board<N>>,
    gate: &G,
    works: Vec<Work>,
) -> Result<Vec<Work>, AllocError>
    requires named { (pool.now.laid ≡ N.laid) × (items.now ≡ N.items) }
    requires lawful { All (IsLawfulItem (parts_of cfg.now)) items.now }
    requires few { all_seats (parts_of cfg.now) ≤ 64 }
    requires long { vec_len works ≡ all_seats (parts_of cfg.now) }
    requires works { AreWorks (parts_of cfg.now) pool.now.laid items.now 0 works.items }
    ensures { IfOk result (λ v. (vec_len v ≡ all_seats (parts_of cfg.now)) × AreDone (parts_of cfg.now) pool.now.laid items.now 0 v.items) }
{
    let flags = AtomicU64::new(0);
    let held = &flags;
    thread::scope(
        thread::scope_env(),
        rt,
        |scope| -> Result<Vec<Work>, AllocError>
            requires { (pool.now.laid ≡ N.laid) × (items.now ≡ N.items) × All (IsLawfulItem (parts_of cfg.now)) items.now × (all_seats (parts_of cfg.now) ≤ 64) × (vec_len works ≡ all_seats (parts_of cfg.now)) × AreWorks (parts_of cfg.now) pool.now.laid items.now 0 works.items }
            ensures { IfOk result (λ v. (vec_len v ≡ all_seats (parts_of cfg.entry.now)) × AreDone (parts_of cfg.entry.now) pool.entry.now.laid items.entry.now 0 v.items) }
        { serve_in(rt, scope, alloc, cfg, pool, items, board, gate, held, works) },
    )
}
