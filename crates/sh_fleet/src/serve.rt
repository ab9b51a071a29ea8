// A sheet is served by seats in threads.
ghost use Rattle.std.specs.Prelude.{◌≡◌, ◌≤◌, All, IfOk, OnErr, vec_len};
ghost use Rattle.sh_base.specs.{Parts.{parts_of}, Setting.{all_seats}};
ghost use Rattle.sh_sheet.specs.Sheet.{AreFew, IsLawfulItem};
ghost use Rattle.sh_pool.specs.Pools.{IsBlankPool};
ghost use Rattle.sh_fleet.specs.{Served.{HasServed, HasStopped}, Sharing.{AreDone, AreWorks}};

use crate::answers::Answers;
use crate::board::{Board, Naming};
use crate::sharing::{share_out, split};
use crate::threads::serve_all;
use crate::work::Work;
use sh_base::Config;
use sh_map::Rows;
use sh_pool::Pool;
use sh_sheet::{Gate, Item};
use sh_tree::pairs_in;
use std::alloc::{AllocError, Global};
use std::marker::{Brand, Send, Sync};
use std::sync::{Mutex, Wait};
use std::thread::Threads;

// Serves all items of all seats, with a board for their notes.
fn serve_on<N: Naming + Send + Sync, R: Threads + Wait + Sync, G: Gate + Sync>(
    rt: &R,
    alloc: Global,
    cfg: &Config,
    pool: &Pool,
    items: &[Item],
    gate: &G,
    works: Vec<Work>,
) -> Result<Vec<Work>, AllocError>
    requires named { (pool.now.laid ≡ N.laid) × (items.now ≡ N.items) }
    requires lawful { All (IsLawfulItem (parts_of cfg.now)) items.now }
    requires few { all_seats (parts_of cfg.now) ≤ 64 }
    requires long { vec_len works ≡ all_seats (parts_of cfg.now) }
    requires works { AreWorks (parts_of cfg.now) pool.now.laid items.now 0 works.items }
    ensures { IfOk result (λ v. (vec_len v ≡ all_seats (parts_of cfg.now)) × AreDone (parts_of cfg.now) pool.now.laid items.now 0 v.items) }
{
    let board: Mutex<Board<N>> = Mutex::new(Board::of(alloc, items)?);
    serve_all(rt, alloc, cfg, pool, items, &board, gate, works)
}

/// Lays the pool and serves the items' calls: each seat that has items runs in a thread of its own. The pool is then
/// gathered; the answers of the seats and the rows of its map come back. After want of memory it is blank, laid or gathered.
/// Condition: the pool is blank.
pub(crate) fn serve<R: Threads + Wait + Sync, G: Gate + Sync>(
    rt: &R,
    alloc: Global,
    cfg: &Config,
    pool: &mut Pool,
    items: &[Item],
    gate: &G,
) -> Result<(Vec<Answers>, Rows), AllocError>
    requires blank { IsBlankPool pool.old }
    requires lawful { All (IsLawfulItem (parts_of cfg.now)) items.now }
    requires few { AreFew (parts_of cfg.now) items.now }
    ensures ok { IfOk result (λ r. HasServed (parts_of cfg.now) items.now pool.new r.0.items r.1) }
    ensures err { OnErr result (HasStopped (parts_of cfg.now) pool.old pool.new) }
{
    let count = cfg.all_seats() as usize;
    let room = Vec::with_capacity(alloc, count)?;
    let told = Vec::with_capacity(alloc, count)?;
    let passes = pool.lay(alloc, cfg)?;
    let works = share_out(alloc, cfg, items, pool, passes)?;
    let works = serve_on::<Brand, _, _>(rt, alloc, cfg, pool, items, gate, works)?;
    let (passes, answers) = split(works, room, told);
    let Ok(()) = pool.gather(alloc, passes) else {
        return Err(AllocError);
    };
    let rows = pairs_in(alloc, cfg, pool.words())?;
    Ok((answers, rows))
}
