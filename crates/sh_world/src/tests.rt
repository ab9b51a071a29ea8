// Worlds that serve sheets: the trees that they leave, what their seats count, locks and idle seats. What the calls of a
// schedule are answered is tested in `sh_replay`, line by line.
use crate::{Turn, World};
use sh_base::{Config, ConfigParts, Event};
use sh_map::Call;
use sh_sheet::{Item, Mode, read_sheet};
use std::alloc::{AllocError, Global};
use std::fmt::Write;

// One server of so many chunks of so many nodes, leaves of four entries, one compute server of three seats.
fn small(chunks: u32, chunk_nodes: u32) -> ConfigParts {
    ConfigParts {
        servers: 1,
        chunks,
        chunk_nodes,
        leaf: 4,
        computes: 1,
        seats: 3,
        cached: 0,
        ..ConfigParts::default()
    }
}

// Gives a call, where it may be given.
fn give(world: &mut World, seat: u32, call: &Call) -> Result<(), AllocError> {
    let may = seat < world.seats()
        && call.in_range(world.setting())
        && world.calls().len() < 4_294_967_295;
    if !may {
        return Ok(());
    }
    match *call {
        Call::Get { key } => world.give(seat, Call::Get { key }),
        Call::Put { key, value } => world.give(seat, Call::Put { key, value }),
        Call::Del { key } => world.give(seat, Call::Del { key }),
        Call::Range { low, high } => world.give(seat, Call::Range { low, high }),
    }
}

// Takes a turn of the seat, where there is one.
fn take(world: &mut World, seat: u32) -> Turn {
    if seat < world.seats() {
        world.turn(seat)
    } else {
        Turn::Idle
    }
}

// A world that was given the sheet's calls and then took the turns of its turn rows.
fn begun(alloc: Global, parts: ConfigParts, sheet: &[u8]) -> Result<World, AllocError> {
    let cfg = Config::new(parts).unwrap_or_default();
    let mut world = World::blank(alloc);
    world.lay(alloc, &cfg)?;
    let Ok(sheet) = read_sheet(alloc, sheet, Mode::Replay, &cfg) else {
        return Ok(world);
    };
    for item in sheet.as_slice() {
        if let Item::Ask { seat, call } = item {
            give(&mut world, *seat, call)?;
        }
    }
    for item in sheet.as_slice() {
        if let Item::Turn { seat, count } = item {
            for _ in 0..*count {
                take(&mut world, *seat);
            }
        }
    }
    Ok(world)
}

// The same, and then each seat is asked in turn until all are idle, for a million rounds at most.
fn served(alloc: Global, parts: ConfigParts, sheet: &[u8]) -> Result<World, AllocError> {
    let mut world = begun(alloc, parts, sheet)?;
    for _ in 0..1_000_000 {
        let mut idle = true;
        for seat in 0..world.seats() {
            if take(&mut world, seat) != Turn::Idle {
                idle = false;
            }
        }
        if idle {
            break;
        }
    }
    Ok(world)
}

// The word at an address, or 0 where there is none.
fn word(world: &World, at: u64) -> u64 {
    match world.words().get(usize::try_from(at).unwrap_or(usize::MAX)) {
        Some(word) => *word,
        None => 0,
    }
}

// A word of a node, or 0 where there is no such node.
fn part(world: &World, node: u64, offset: u64) -> u64 {
    let cfg = world.setting();
    match u32::try_from(node) {
        Ok(node) if 1 <= node && node <= cfg.nodes() => {
            word(world, u64::from(cfg.node_word(node)).saturating_add(offset))
        }
        _ => 0,
    }
}

// How many nodes a level has from this one on.
fn chain(world: &World, first: u64) -> u64 {
    let mut count = 0u64;
    let mut node = first;
    for _ in 0..1000 {
        if node == 0 {
            return count;
        }
        count = count.wrapping_add(1);
        node = part(world, node, 4);
    }
    count
}

// The root with its level and pairs, and how many nodes each level has from the root's down to the leaves.
fn push_tree(text: &mut String, world: &World) -> Result<(), AllocError> {
    let mut node = word(world, 1);
    let level = part(world, node, 1);
    write!(text, "root {node} level {level}")?;
    for pair in 0..part(world, node, 5) {
        let at = pair.saturating_mul(2).saturating_add(6);
        let separator = part(world, node, at);
        let child = part(world, node, at.saturating_add(1));
        write!(text, " {separator}:{child}")?;
    }
    write!(text, " nodes {}", chain(world, node))?;
    for _ in 0..level {
        node = part(world, node, 7);
        write!(text, " {}", chain(world, node))?;
    }
    Ok(())
}

// What the seat has counted.
fn push_tally(text: &mut String, world: &World, seat: u32) -> Result<(), AllocError> {
    if seat >= world.seats() {
        return Ok(());
    }
    let tally = world.tally(seat);
    let (handed, skipped) = (tally.handed, tally.skipped_spent);
    write!(text, " again {} splits {}", tally.again, tally.splits)?;
    write!(text, " handed {handed} skipped {skipped}")?;
    write!(text, " rewritten {}", tally.rewritten)
}

// Whether a world of this setting that has served the sheet is told so: its tree, its chunk counter, the length of its
// log, and what seat 0 has counted.
fn leaves(alloc: Global, parts: ConfigParts, sheet: &[u8], told: &str) -> Result<bool, AllocError> {
    let world = served(alloc, parts, sheet)?;
    let mut text = String::new(alloc);
    push_tree(&mut text, &world)?;
    let (chunks, log) = (word(&world, 2), world.log().len());
    write!(text, " chunks {chunks} log {log}")?;
    push_tally(&mut text, &world, 0)?;
    Ok(text.as_str().contains(told))
}

// The same of so many puts by seat 0 with values from 1 up, of this key or, where it is 0, of rising keys.
fn puts_leave(
    alloc: Global,
    parts: ConfigParts,
    key: u64,
    count: u64,
    told: &str,
) -> Result<bool, AllocError> {
    let mut sheet = String::new(alloc);
    for before in 0..count {
        let value = before.wrapping_add(1);
        let key = if key == 0 { value } else { key };
        write!(sheet, "put,0,{key},{value}\n")?;
    }
    leaves(alloc, parts, sheet.as_bytes(), told)
}

const FIVE: &[u8] = b"put,0,10,1\nput,0,20,2\nput,0,30,3\nput,0,40,4\nput,0,50,5\n";

#[test]
fn five_puts_split_a_leaf(rt: HostRuntime) {
    let told =
        "root 10 level 1 0:1 30:9 nodes 1 2 chunks 2 log 5 again 0 splits 1 handed 0 skipped 0 rewritten 0";
    assert!(rt; leaves(rt.alloc(), small(4, 8), FIVE, told).unwrap_or(false));
}

#[test]
fn a_post_is_skipped_where_no_node_is_left(rt: HostRuntime) {
    let told =
        "root 1 level 0 nodes 2 chunks 2 log 5 again 0 splits 1 handed 0 skipped 1 rewritten 0";
    assert!(rt; leaves(rt.alloc(), small(2, 1), FIVE, told).unwrap_or(false));
}

#[test]
fn a_full_leaf_stays_where_the_pool_is_spent(rt: HostRuntime) {
    let told =
        "root 1 level 0 nodes 1 chunks 1 log 4 again 0 splits 0 handed 0 skipped 0 rewritten 0";
    assert!(rt; leaves(rt.alloc(), small(1, 8), FIVE, told).unwrap_or(false));
}

// How many turns the seat takes until one more of its calls has ended, at most 1000.
fn count(world: &mut World, seat: u32) -> u64 {
    if seat >= world.seats() {
        return 0;
    }
    let ended = world.done_calls(seat);
    for turns in 0..1000 {
        if seat >= world.seats() || world.done_calls(seat) != ended {
            return turns;
        }
        world.turn(seat);
    }
    1000
}

// The seats of the calls that are counted.
const SEATS: [u32; 8] = [0, 0, 1, 1, 0, 0, 0, 0];

// Whether the calls of these seats, one after another, take so many turns, behind the sheet's turn rows; and how many of
// seat 0's calls began at a cached node then.
fn takes_turns(
    alloc: Global,
    cached: u32,
    sheet: &[u8],
    told: &[u64; 8],
    from_cache: u64,
) -> Result<bool, AllocError> {
    let parts = ConfigParts {
        cached,
        ..small(4, 8)
    };
    let mut world = begun(alloc, parts, sheet)?;
    for call in 0..8 {
        if count(&mut world, SEATS[call]) != told[call] {
            return Ok(false);
        }
    }
    Ok(world.seats() > 0 && world.tally(0).from_cache == from_cache)
}

const SIX_MORE: &[u8] = b"put,0,10,1\nput,0,20,2\nput,0,30,3\nput,0,40,4\nput,0,50,5\n\
    get,0,40,\nget,0,40,\nget,0,70,\nget,0,70,\nput,0,70,8\nrange,0,1,100\nput,1,60,6\nput,1,70,7\nturn,0,377,\n";

#[test]
fn cached_nodes_save_turns(rt: HostRuntime) {
    let alloc = rt.alloc();
    let cached = [47, 23, 57, 153, 46, 47, 33, 69];
    let none = [47, 47, 57, 177, 47, 47, 57, 93];
    assert!(rt; takes_turns(alloc, 4, SIX_MORE, &cached, 4) == Ok(true));
    assert!(rt; takes_turns(alloc, 0, SIX_MORE, &none, 0) == Ok(true));
}

#[test]
fn two_race_for_the_root(rt: HostRuntime) {
    let sheet =
        b"put,2,10,1\nput,2,20,2\nput,2,30,3\nput,2,40,4\nput,0,50,5\nput,1,60,6\nput,1,70,7\nturn,2,1000,\nturn,0,148,\nturn,1,1000,\n";
    let told = "root 18 level 1 0:1 30:9 50:17 nodes 1 3 chunks 3 log 7";
    assert!(rt; leaves(rt.alloc(), small(4, 8), sheet, told).unwrap_or(false));
}

#[test]
fn a_hundred_rising_keys_grow_the_tree(rt: HostRuntime) {
    let told = "nodes 1 2 12 49 chunks 9 log 100";
    assert!(rt; puts_leave(rt.alloc(), small(64, 8), 0, 100, told).unwrap_or(false));
}

#[test]
fn a_leaf_is_rewritten_until_it_is_worn(rt: HostRuntime) {
    let few_bits = ConfigParts {
        bits: 4,
        ..small(4, 8)
    };
    let told =
        "root 1 level 0 nodes 1 chunks 1 log 255 again 0 splits 0 handed 0 skipped 0 rewritten 15";
    assert!(rt; puts_leave(rt.alloc(), few_bits, 5, 256, told).unwrap_or(false));
}

// Whether these are the words that the lock of the first leaf has one after another, where seats of two compute servers
// put beneath it, and the times that the first seat of each hands it over.
fn lock_shows(alloc: Global, told: &str) -> Result<bool, AllocError> {
    let parts = ConfigParts {
        leaf: 8,
        computes: 2,
        bound: 1,
        ..small(4, 8)
    };
    let sheet = b"put,0,10,1\nput,1,11,2\nput,2,12,3\nput,3,13,4\nput,4,14,5\nput,5,15,6\n";
    let mut world = begun(alloc, parts, sheet)?;
    let mut last = 0;
    let mut text = String::new(alloc);
    for _ in 0..320 {
        for seat in 0..6 {
            take(&mut world, seat);
            let now = word(&world, 3);
            if now != last {
                write!(text, "{now} ")?;
                last = now;
            }
        }
    }
    if world.seats() == 6 {
        let (first, second) = (world.tally(0).handed, world.tally(3).handed);
        write!(text, "handed {first} {second}")?;
    }
    Ok(text.as_str() == told)
}

#[test]
fn locks_are_handed_over_up_to_the_bound(rt: HostRuntime) {
    assert!(rt; lock_shows(rt.alloc(), "1 0 2 0 1 0 2 0 handed 1 1").unwrap_or(false));
}

// Whether the seat takes so many turns until it's idle.
fn takes(world: &mut World, seat: u32, count: u64) -> bool {
    for _ in 0..count {
        if take(world, seat) == Turn::Idle {
            return false;
        }
    }
    take(world, seat) == Turn::Idle && seat < world.seats() && world.is_idle(seat)
}

// Whether a seat is idle, takes the 24 turns of a get in a leaf of 23 words, and is idle again.
fn rests_and_wakes(alloc: Global) -> Result<bool, AllocError> {
    let mut world = begun(alloc, small(4, 8), b"")?;
    let idle = world.words().len() == 803 && takes(&mut world, 0, 0);
    give(&mut world, 0, &Call::Get { key: 5 })?;
    let first = take(&mut world, 0) == Turn::Event(Event::Load { at: 1 }, 1);
    let rest = takes(&mut world, 0, 23);
    Ok(idle && first && rest && world.seats() == 3 && world.done_calls(0) == 1)
}

#[test]
fn seats_are_idle_before_and_behind_their_calls(rt: HostRuntime) {
    assert!(rt; rests_and_wakes(rt.alloc()).unwrap_or(false));
}

fn is_blank(world: &World) -> bool {
    world.seats() == 0 && world.words().is_empty()
}

#[test]
fn a_blank_world_has_no_words(rt: HostRuntime) {
    assert!(rt; is_blank(&World::blank(rt.alloc())));
}
