// What the words ask for.
ghost use Rattle.std.specs.Prelude.{◌≡◌, ◌≤◌, Bool, List, map, Some, None, IfOk, IsErrOf, option_and_then, unwrap_or};
ghost use Rattle.clap.specs.Words.{found_of};
ghost use Rattle.sh_options.specs.Narrow.{narrow_parts};
ghost use Rattle.sh_bulk.specs.Order.{asked_if, asked_of, bulk_names, order_of};

use clap::ArgMatches;
use sh_base::{Config, ConfigParts};
use sh_options::{WordFault, is_used, number, setting_parts, tell};
use std::alloc::Global;

/// What the words ask for.
#[derive(Clone, Copy, Debug)]
pub struct BulkOrder {
    /// The setting of the pool.
    pub cfg: Config,
    /// So many workers: 1 to 64.
    pub workers: u32,
    /// The picture is written, in place of the one line.
    pub picture: bool,
}

// The options that take a value.
fn options() -> &'static [&'static str]
    ensures { map (λ s. s.now) result.now ≡ bulk_names.options }
{
    &[
        "servers",
        "chunks",
        "chunk-nodes",
        "locks",
        "leaf",
        "computes",
        "seats",
        "bound",
        "bits",
        "rows",
        "cached",
        "value-words",
        "workers",
    ]
}

// The options that take none.
fn flags() -> &'static [&'static str]
    ensures { map (λ s. s.now) result.now ≡ bulk_names.flags }
{
    &["picture"]
}

// The order, where what is given is sound.
fn order_from(parts: ConfigParts, workers: u64, picture: bool) -> Result<BulkOrder, WordFault>
    ensures order { IfOk result (λ o. asked_if parts workers picture ≡ Some (asked_of o)) }
    ensures usage { IsErrOf result WordFault.Usage → asked_if parts workers picture ≡ None }
    ensures low { IfOk result (λ o. 1 ≤ o.workers) }
{
    let Ok(cfg) = Config::new(parts) else {
        return Err(WordFault::Usage);
    };
    if 1 <= workers && workers <= 64 {
        Ok(BulkOrder {
            cfg,
            workers: workers as u32,
            picture,
        })
    } else {
        Err(WordFault::Usage)
    }
}

/// What the words behind the program's name ask for: the numbers of a setting, `--workers n` (1 to 64, by default 4) and
/// `--picture`, each at most once, in any order. All else is `Usage`; `NoMemory` is apart.
pub(crate) fn read_order(alloc: Global, words: &[&str]) -> Result<BulkOrder, WordFault>
    ensures order { IfOk result (λ o. order_of (map (λ w. w.now) words.now) ≡ Some (asked_of o)) }
    ensures usage { IsErrOf result WordFault.Usage → order_of (map (λ w. w.now) words.now) ≡ None }
    ensures low { IfOk result (λ o. 1 ≤ o.workers) }
{
    let matches = tell(alloc, options(), flags(), words)?;
    order_from(
        setting_parts(&matches),
        number(&matches, "workers").unwrap_or(4),
        is_used(&matches, "picture"),
    )
}
