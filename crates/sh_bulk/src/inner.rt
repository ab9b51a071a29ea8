// The words of inner nodes.
ghost use Rattle.std.specs.Prelude.{◌≡◌, [], suc, ◌+◌, ◌*◌, ◌^◌, ◌<◌, ◌≤◌, length};
ghost use Rattle.sh_base.specs.{Parts.{parts_of}, Setting.{node_size, nodes}};
ghost use Rattle.sh_bulk.specs.{Shape.{count_in, inner_fill, need_of}, Levels.{IsLevel}, Nodes.{inner_of, low_in, taken_by}, Words.{words_from}};

use crate::leaves::key_at;
use crate::shape::inner_fill;
use sh_base::Config;
use sh_image::{InnerImage, Pair, write_inner};
use sh_map::Row;

/// A level of a tree: its number, how many nodes it has, the number of its first node, and how many rows lie between the
/// first rows of two of its nodes.
#[derive(Clone, Copy)]
pub(crate) struct Level {
    pub(crate) number: usize,
    pub(crate) count: usize,
    pub(crate) first: usize,
    pub(crate) span: usize,
}

// The low of node j of a level.
fn low_of(_cfg: &Config, rows: &[Row], level: Level, j: usize) -> u64
    requires level { IsLevel (parts_of _cfg.now) (length rows.now) level }
    requires node { j < level.count }
    ensures { result ≡ low_in (parts_of _cfg.now) rows.now level.number j }
{
    if j == 0 {
        0
    } else {
        key_at(rows, j * level.span)
    }
}

// Node j of the level above, without its pairs.
fn head_of(cfg: &Config, rows: &[Row], below: Level, j: usize, from: usize, to: usize) -> InnerImage
    requires level { IsLevel (parts_of cfg.now) (length rows.now) below }
    requires node { j < count_in (parts_of cfg.now) (length rows.now) (suc below.number) }
    requires room { need_of (parts_of cfg.now) (length rows.now) ≤ nodes (parts_of cfg.now) }
    requires from { from ≡ j * inner_fill (parts_of cfg.now) }
    requires to { to ≡ from + taken_by (parts_of cfg.now) rows.now below.number j }
    ensures { result ≡ record (inner_of (parts_of cfg.now) rows.now below.number j) { pairs = [] } }
{
    let low = low_of(cfg, rows, below, from);
    let level = below.number as u64 + 1;
    if to < below.count {
        let next = (below.first + below.count + (j + 1)) as u32;
        InnerImage::new(0, level, low, low_of(cfg, rows, below, to), next)
    } else {
        InnerImage::new(0, level, low, u64::MAX, 0)
    }
}

// Node j of the level above: it takes the next nodes of the level below.
fn image_of(cfg: &Config, rows: &[Row], below: Level, j: usize) -> InnerImage
    requires level { IsLevel (parts_of cfg.now) (length rows.now) below }
    requires node { j < count_in (parts_of cfg.now) (length rows.now) (suc below.number) }
    requires room { need_of (parts_of cfg.now) (length rows.now) ≤ nodes (parts_of cfg.now) }
    ensures { result ≡ inner_of (parts_of cfg.now) rows.now below.number j }
{
    let fill = inner_fill(cfg);
    let from = j * fill;
    let to = (from + fill).min(below.count);
    let mut image = head_of(cfg, rows, below, j, from, to);
    for i in from..to {
        image.push(Pair {
            separator: low_of(cfg, rows, below, i),
            child: (below.first + i) as u32,
        });
    }
    image
}

/// Writes the nodes of the level above this one.
pub(crate) fn build_above(cfg: &Config, rows: &[Row], below: Level, above: usize, out: &mut [u64])
    requires level { IsLevel (parts_of cfg.now) (length rows.now) below }
    requires above { above ≡ count_in (parts_of cfg.now) (length rows.now) (suc below.number) }
    requires room { need_of (parts_of cfg.now) (length rows.now) ≤ nodes (parts_of cfg.now) }
    requires size { length out.old ≡ above * node_size (parts_of cfg.now) }
    ensures { out.new ≡ words_from (parts_of cfg.now) rows.now (suc below.number) 0 above }
{
    let size = cfg.node_size() as usize;
    let mut at = 0;
    for j in 0..above {
        let image = image_of(cfg, rows, below, j);
        write_inner(cfg, &image, &mut out[at..at + size]);
        at += size;
    }
}
