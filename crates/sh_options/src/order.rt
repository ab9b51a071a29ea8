// What the words of a program ask for.
ghost use Rattle.std.specs.{Prelude.{◌≡◌, ◌&&◌, List, map, Some, None, IfOk, IfSome, IsErrOf, MatchOption, nat_le, option_and_then, true, unwrap_or}, Option.{option_map_or}};
ghost use Rattle.clap.specs.Words.{first_value, found_of};
ghost use Rattle.sh_sheet.specs.Number.{number_of};
ghost use Rattle.sh_options.specs.{Narrow.{narrow, narrow_parts, narrowed}, Order.{ReadsAs, asked_if, asked_of, given_in, order_of, parts_in, ReadsSetting}, Uses.{Use}};
ghost use Rattle.sh_options.specs.declared.order.WordFault.TheVariants.{NoMemory};

use crate::names::{flags_for, options_for};
use crate::told::{is_used, number, tell};
use clap::ArgMatches;
use sh_base::{Config, ConfigParts};
use sh_sheet::Mode;
use std::alloc::{AllocError, Global};

/// What the words ask for.
#[derive(Clone, Copy, Debug)]
pub struct Order {
    /// The setting.
    pub cfg: Config,
    /// The map is written behind the calls.
    pub map: bool,
    /// The events are written.
    pub events: bool,
    /// So many calls are made, and nothing is read.
    pub make: Option<u64>,
    /// The seed of the calls that are made.
    pub seed: u64,
}

/// Why words give no order.
#[derive(Clone, Copy, Debug, PartialEq, Eq)]
pub enum WordFault {
    /// The words are refused.
    Usage,
    /// Memory is wanting.
    NoMemory,
}

impl From<AllocError> for WordFault {
    ghost from_gives = { λ _ e. e ≡ NoMemory };

    fn from(_: AllocError) -> Self {
        WordFault::NoMemory
    }
}

/// What the words give, before it is put to the test.
#[derive(Clone, Copy)]
pub struct Given {
    pub parts: ConfigParts,
    pub map: bool,
    pub events: bool,
    pub make: Option<u64>,
    pub seed: Option<u64>,
}

/// What the words behind the program's name ask for. Each option is `--name value` or `--name=value`, in any order. `Usage`
/// comes exactly where a word is no option of the program and no value of one, where a value is missing, is no number or is
/// out of its range, where `--map` or `--events` has a value, where an option stands twice, where `--seed` stands without
/// `--make`, and where the setting is refused. `NoMemory` is apart.
pub fn read_words(alloc: Global, words: &[&str], mode: Mode) -> Result<Order, WordFault>
    ensures order { IfOk result (λ o. order_of mode (map (λ w. w.now) words.now) ≡ Some (asked_of o)) }
    ensures usage { IsErrOf result WordFault.Usage → order_of mode (map (λ w. w.now) words.now) ≡ None }
    ensures make { IfOk result (λ o. option_map_or (λ n. nat_le 1 n && nat_le n 1000000) o.make true ≡ true) }
{
    let matches = tell(alloc, options_for(mode), flags_for(mode), words)?;
    match order_from(read_given(&matches)) {
        Some(order) => Ok(order),
        None => Err(WordFault::Usage),
    }
}

// The order, exactly where what is given is sound.
fn order_from(given: Given) -> Option<Order>
    ensures order { MatchOption result (asked_if given ≡ None) (λ o. asked_if given ≡ Some (asked_of o)) }
    ensures make { IfSome result (λ o. option_map_or (λ n. nat_le 1 n && nat_le n 1000000) o.make true ≡ true) }
{
    let Ok(cfg) = Config::new(given.parts) else {
        return None;
    };
    if !is_count_of_calls(given.make) || given.seed.is_some() && given.make.is_none() {
        return None;
    }
    Some(Order {
        cfg,
        map: given.map,
        events: given.events,
        make: given.make,
        seed: given.seed.unwrap_or(1),
    })
}

// So many calls can be made.
fn is_count_of_calls(make: Option<u64>) -> bool
    ensures { result ≡ option_map_or (λ n. nat_le 1 n && nat_le n 1000000) make true }
{
    match make {
        Some(n) => 1 <= n && n <= 1_000_000,
        None => true,
    }
}

// What is in the matches.
fn read_given(matches: &ArgMatches) -> Given
    ensures { (us : List Use) → ReadsAs (found_of matches.now) us → result ≡ narrowed (given_in us) }
{
    Given {
        parts: setting_parts(matches),
        map: is_used(matches, "map"),
        events: is_used(matches, "events"),
        make: number(matches, "make"),
        seed: number(matches, "seed"),
    }
}

/// The numbers of the setting; each that isn't given has its default, and one that 32 bits don't hold is the last one that
/// they hold.
#[tactic(auto, unfolding(crate::specs::Narrow::narrow_parts))]
pub fn setting_parts(matches: &ArgMatches) -> ConfigParts
    ensures { (us : List Use) → ReadsSetting (found_of matches.now) us → result ≡ narrow_parts (parts_in us) }
{
    let usual = ConfigParts::default();
    ConfigParts {
        servers: number_or(matches, "servers", usual.servers),
        chunks: number_or(matches, "chunks", usual.chunks),
        chunk_nodes: number_or(matches, "chunk-nodes", usual.chunk_nodes),
        locks: number_or(matches, "locks", usual.locks),
        leaf: number_or(matches, "leaf", usual.leaf),
        computes: number_or(matches, "computes", usual.computes),
        seats: number_or(matches, "seats", usual.seats),
        bound: number_or(matches, "bound", usual.bound),
        bits: number_or(matches, "bits", usual.bits),
        rows: number_or(matches, "rows", usual.rows),
        cached: number_or(matches, "cached", usual.cached),
        value_words: number_or(matches, "value-words", usual.value_words),
    }
}

// The number that an option is given, else the usual one. A number that 32 bits don't hold is out of every range, and so is
// the last one that they hold.
fn number_or(matches: &ArgMatches, name: &str, usual: u32) -> u32
    ensures { result ≡ narrow (unwrap_or (option_and_then number_of (first_value (found_of matches.now) name.now)) usual) }
{
    match number(matches, name) {
        Some(n) => u32::try_from(n).unwrap_or(u32::MAX),
        None => usual,
    }
}
