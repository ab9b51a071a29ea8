// The leaves, built by workers side by side.
ghost use Rattle.std.specs.Prelude.{◌≡◌, ℕ, ◌+◌, ◌-◌, ◌*◌, ◌%◌, ◌^◌, ◌<◌, ◌≤◌, length, min, take, drop, slice_index};
ghost use Rattle.sh_base.specs.{Parts.{parts_of}, Setting.{node_size}};
ghost use Rattle.sh_bulk.specs.{Shape.{count_in}, Levels.{IsStretch}, Nodes.{HaveValues}, Words.{level_words}};

use crate::Hold;
use crate::leaves::build_leaves;
use crate::shape::leaf_count;
use sh_base::Config;
use sh_map::Row;
use std::thread::{Threads, for_each_chunk_mut};

// Builds the stretch of the leaves that begins at this word of them, where each worker has `share` leaves.
fn work<H: Hold>(cfg: &Config, rows: &[Row], share: usize, hold: &H, start: usize, out: &mut [u64])
    requires stretch { IsStretch (parts_of cfg.now) (length rows.now) share start (length out.old) }
    requires few { length rows.now ≤ 2 ^ 57 }
    requires values { HaveValues (parts_of cfg.now) rows.now }
    ensures { out.new ≡ take (length out.old) (drop start (level_words (parts_of cfg.now) rows.now 0)) }
{
    let size = cfg.node_size() as usize;
    let from = start / size;
    let count = out.len() / size;
    let worker = u32::try_from(from / share).unwrap_or(u32::MAX);
    hold.before(worker);
    build_leaves(cfg, rows, from, count, out);
    hold.after(worker);
}

/// Builds all leaves, by at most so many workers.
pub(crate) fn build_beside<R: Threads + Sync, H: Hold + Sync>(
    rt: &R,
    cfg: &Config,
    rows: &[Row],
    workers: usize,
    hold: &H,
    out: &mut [u64],
)
    requires workers { 0 < workers }
    requires few { length rows.now ≤ 2 ^ 57 }
    requires values { HaveValues (parts_of cfg.now) rows.now }
    requires size { length out.old ≡ count_in (parts_of cfg.now) (length rows.now) 0 * node_size (parts_of cfg.now) }
    ensures { (i : ℕ) → i < length out.old → slice_index out.new i ≡ slice_index (level_words (parts_of cfg.now) rows.now 0) i }
{
    let share = leaf_count(cfg, rows.len()).div_ceil(workers);
    let size = share * cfg.node_size() as usize;
    for_each_chunk_mut(
        rt,
        out,
        size,
        &|start, part| work(cfg, rows, share, hold, start, part),
    );
}
