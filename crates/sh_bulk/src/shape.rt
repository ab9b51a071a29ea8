// How many nodes each level has.
ghost use Rattle.std.specs.Prelude.{◌≡◌, ◌+◌, ◌*◌, ◌^◌, ◌<◌, ◌≤◌};
ghost use Rattle.sh_base.specs.Parts.{parts_of};
ghost use Rattle.sh_bulk.specs.Shape.{count_in, div_up, inner_fill, leaf_fill, need_of, height_of};

use sh_base::Config;

/// The rows of a leaf.
#[tactic(auto, unfolding(crate::specs::Shape::leaf_fill))]
pub(crate) fn leaf_fill(cfg: &Config) -> usize
    ensures fill { result ≡ leaf_fill (parts_of cfg.now) }
    ensures low { 3 ≤ result }
    ensures high { result ≤ 48 }
{
    3 * cfg.leaf() as usize / 4
}

/// The children of an inner node.
#[tactic(auto, unfolding(crate::specs::Shape::inner_fill))]
pub(crate) fn inner_fill(cfg: &Config) -> usize
    ensures fill { result ≡ inner_fill (parts_of cfg.now) }
    ensures low { 6 ≤ result }
    ensures high { result ≤ 96 }
{
    3 * cfg.leaf() as usize / 2
}

/// How many nodes of so many children stand over a level of this many nodes.
#[tactic(auto, unfolding(crate::specs::Shape::div_up))]
pub(crate) fn div_up(n: usize, d: usize) -> usize
    requires { 0 < d }
    ensures { result ≡ div_up n d }
{
    n.div_ceil(d)
}

/// The leaves of so many rows.
pub(crate) fn leaf_count(cfg: &Config, rows: usize) -> usize
    ensures { result ≡ count_in (parts_of cfg.now) rows 0 }
{
    div_up(rows, leaf_fill(cfg)).max(1)
}

/// The shape of a tree: how many nodes it needs, and the level of its root.
#[derive(Clone, Copy)]
pub(crate) struct Shape {
    pub(crate) need: usize,
    pub(crate) top: usize,
}

/// The shape of a tree of so many rows.
pub(crate) fn shape_of(cfg: &Config, rows: usize) -> Shape
    requires { rows ≤ 2 ^ 62 }
    ensures need { result.need ≡ need_of (parts_of cfg.now) rows }
    ensures top { result.top ≡ height_of (parts_of cfg.now) rows }
{
    let fill = inner_fill(cfg);
    let mut count = leaf_count(cfg, rows);
    let mut need = 1;
    let mut top = 0;
    'levels: while count > 1 {
        need += count;
        count = div_up(count, fill);
        top += 1;
    }
    Shape { need, top }
}
