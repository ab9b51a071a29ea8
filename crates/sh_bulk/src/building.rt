// The whole memory.
ghost use Rattle.std.specs.Prelude.{◌≡◌, ◌+◌, ◌-◌, ◌*◌, ◌^◌, ◌<◌, ◌≤◌, ◌++◌, length, replicate, IfOk, IfErr};
ghost use Rattle.sh_base.specs.{Parts.{parts_of}, Setting.{node_size, nodes, pool_words}};
ghost use Rattle.sh_bulk.specs.{Fault.{AreGood, HoldRows, IsBulkFault}, Shape.{need_of, height_of}, Nodes.{HaveValues}, Words.{bulk_words, words_to}};

use crate::checked::check_rows;
use crate::front::put_front;
use crate::inner::{Level, build_above};
use crate::shape::{Shape, div_up, inner_fill, leaf_count, leaf_fill, shape_of};
use crate::workers::build_beside;
use crate::{BulkFault, Hold};
use sh_base::Config;
use sh_map::Row;
use std::alloc::{AllocError, Global};
use std::thread::Threads;

/// The words of a pool.
pub type Words = Vec<u64>;

// Writes all nodes: the leaves by the workers, and the levels above them.
fn fill_nodes<R: Threads + Sync, H: Hold + Sync>(
    rt: &R,
    cfg: &Config,
    rows: &[Row],
    top: usize,
    workers: usize,
    hold: &H,
    out: &mut [u64],
)
    requires workers { 0 < workers }
    requires few { length rows.now ≤ 2 ^ 57 }
    requires values { HaveValues (parts_of cfg.now) rows.now }
    requires top { top ≡ height_of (parts_of cfg.now) (length rows.now) }
    requires room { need_of (parts_of cfg.now) (length rows.now) ≤ nodes (parts_of cfg.now) }
    requires blank { out.old ≡ replicate (nodes (parts_of cfg.now) * node_size (parts_of cfg.now)) 0 }
    ensures { out.new ≡ words_to (parts_of cfg.now) rows.now top ++ replicate ((nodes (parts_of cfg.now) - need_of (parts_of cfg.now) (length rows.now)) * node_size (parts_of cfg.now)) 0 }
{
    let size = cfg.node_size() as usize;
    let fill = inner_fill(cfg);
    let mut count = leaf_count(cfg, rows.len());
    let mut first = 1;
    let mut span = leaf_fill(cfg);
    let mut at = count * size;
    build_beside(rt, cfg, rows, workers, hold, &mut out[..at]);
    for number in 0..top {
        let above = div_up(count, fill);
        let below = Level {
            number,
            count,
            first,
            span,
        };
        let end = at + above * size;
        build_above(cfg, rows, below, above, &mut out[at..end]);
        first += count;
        count = above;
        span *= fill;
        at = end;
    }
}

// Writes all words.
fn fill<R: Threads + Sync, H: Hold + Sync>(
    rt: &R,
    cfg: &Config,
    rows: &[Row],
    shape: Shape,
    workers: usize,
    hold: &H,
    words: &mut [u64],
)
    requires workers { 0 < workers }
    requires few { length rows.now ≤ 2 ^ 57 }
    requires values { HaveValues (parts_of cfg.now) rows.now }
    requires need { shape.need ≡ need_of (parts_of cfg.now) (length rows.now) }
    requires top { shape.top ≡ height_of (parts_of cfg.now) (length rows.now) }
    requires room { shape.need ≤ nodes (parts_of cfg.now) }
    requires blank { words.old ≡ replicate (pool_words (parts_of cfg.now)) 0 }
    ensures { words.new ≡ bulk_words (parts_of cfg.now) rows.now }
{
    let at = (2 + cfg.parts().servers + cfg.all_locks()) as usize;
    let (front, nodes) = words.split_at_mut(at);
    put_front(cfg, shape.need, front);
    fill_nodes(rt, cfg, rows, shape.top, workers, hold, nodes);
}

// So many zeros, written in blocks: one by one they would take as long as all else.
fn zeros(alloc: Global, count: usize) -> Result<Words, AllocError>
    ensures { IfOk result (λ w. w.items ≡ replicate count 0) }
{
    let block = vec![in alloc; 0; 4096]?;
    let mut words = Vec::with_capacity(alloc, count)?;
    for _ in 0..count / 4096 {
        words.extend_from_slice(&block)?;
    }
    words.extend_from_slice(&block[..count % 4096])?;
    Ok(words)
}

/// The memory of good rows.
pub(crate) fn build_good<R: Threads + Sync, H: Hold + Sync>(
    rt: &R,
    alloc: Global,
    cfg: &Config,
    rows: &[Row],
    workers: u32,
    hold: &H,
) -> Result<Words, BulkFault>
    requires workers { 1 ≤ workers }
    requires values { HaveValues (parts_of cfg.now) rows.now }
    requires good { AreGood rows.now }
    ensures built { IfOk result (λ w. w.items ≡ bulk_words (parts_of cfg.now) rows.now) }
    ensures long { IfOk result (λ w. length w.items ≡ pool_words (parts_of cfg.now)) }
    ensures room { IfOk result (λ _. need_of (parts_of cfg.now) (length rows.now) ≤ nodes (parts_of cfg.now)) }
    ensures fault { IfErr result (λ e. IsBulkFault (parts_of cfg.now) rows.now e) }
{
    let shape = shape_of(cfg, rows.len());
    if shape.need > cfg.nodes() as usize {
        return Err(BulkFault::NoRoom {
            need: shape.need as u64,
            nodes: u64::from(cfg.nodes()),
        });
    }
    let Ok(mut words) = zeros(alloc, cfg.words() as usize) else {
        return Err(BulkFault::NoMemory);
    };
    fill(rt, cfg, rows, shape, workers as usize, hold, &mut words);
    Ok(words)
}

/// The memory of a pool with one tree that holds these rows: the words of `bulk_words`, for any number of workers. Each
/// worker builds a stretch of the leaves, in a thread of its own where one can be started; what isn't started is done by
/// the caller. A worker whose stretch would be empty isn't begun. `hold` is told of each worker that is.
///
/// `BadKey` and `NotRising` come exactly at the least row that isn't good, `NotRising` where its key is one; `NoRoom` exactly
/// where all rows are good and the tree needs more nodes than the pool has. `NoMemory` is free. Conditions: there are
/// workers, and each row's value has the setting's words.
pub fn build<R: Threads + Sync, H: Hold + Sync>(
    rt: &R,
    alloc: Global,
    cfg: &Config,
    rows: &[Row],
    workers: u32,
    hold: &H,
) -> Result<Words, BulkFault>
    requires workers { 1 ≤ workers }
    requires values { HaveValues (parts_of cfg.now) rows.now }
    ensures built { IfOk result (λ w. w.items ≡ bulk_words (parts_of cfg.now) rows.now) }
    ensures tree { IfOk result (λ w. HoldRows (parts_of cfg.now) rows.now w.items) }
    ensures good { IfOk result (λ _. AreGood rows.now × (need_of (parts_of cfg.now) (length rows.now) ≤ nodes (parts_of cfg.now))) }
    ensures fault { IfErr result (λ e. IsBulkFault (parts_of cfg.now) rows.now e) }
{
    check_rows(rows)?;
    build_good(rt, alloc, cfg, rows, workers, hold)
}
