// The pool: the table of its words and the cells, as the passes' threads share them.
use crate::right::Right;
use atomic_table::Table;
use sh_base::Config;
use sh_local::Cells;
use sh_pool_rule::{PassView, PoolRule};
use std::alloc::Global;
use std::marker::Model;

/// The table of words and the ticket queues, which all passes share.
#[derive(Drop)]
pub struct LaidPool {
    pub(crate) table: Table<(), PassView, Config, PoolRule, Global>,
    pub(crate) cells: Cells<Right>,
    pub(crate) cfg: Config,
}

impl Model for LaidPool {
    ghost use Rattle.std.specs.Prelude.{◌≡◌};
    ghost use Rattle.sh_base.specs.{Parts.{parts_of}, Setting.{pool_words}};
    ghost use Rattle.sh_pool.specs.Passes.{PoolTable, AreCellsOf};

    ghost Value = { PoolTable };

    ghost view = { λ p. record { table = p.table.shared.table_id; setting = parts_of p.table.shared.key; cells = p.cells } };

    ghost invariant = { λ p. (parts_of p.cfg ≡ parts_of p.table.shared.key) × (p.table.shared.table_id.words ≡ pool_words (parts_of p.table.shared.key)) × AreCellsOf p.table.shared.table_id (parts_of p.table.shared.key) p.cells × (p.table.shared.table_id.slots ≡ 0) };
}

/// A pool: it is blank, or laid, or gathered.
#[derive(Drop)]
pub struct Pool {
    pub(crate) laid: Option<LaidPool>,
    // What the words were when it was gathered.
    pub(crate) words: Vec<u64>,
}

impl Model for Pool {
    ghost use Rattle.sh_pool.specs.Pools.{PoolState};

    ghost Value = { PoolState };

    ghost view = { λ p. record { laid = p.laid; words = p.words.items } };
}
