// A world's words as a picture, and what a replay prints as the judge reads it.
use super::*;
use sh_base::{Config, ConfigParts};
use sh_judge::{Finding, judge_text};
use sh_map::{Call, Change, Entry, PlainMap, Row};
use sh_picture::{FirstPlace, Verdict, check, paint};
use sh_port::{ListSink, ListSource};
use sh_sheet::{Item, Mode, Sheet, read_sheet};
use std::alloc::AllocError;
use std::test::Fail;

// One server of 32 nodes with leaves of four entries, one compute server of three seats.
fn small() -> Config {
    let parts = ConfigParts {
        servers: 1,
        chunks: 4,
        chunk_nodes: 8,
        leaf: 4,
        computes: 1,
        seats: 3,
        cached: 0,
        ..ConfigParts::default()
    };
    Config::new(parts).unwrap_or_default()
}

// Gives a call, where it may be given.
fn give(world: &mut World, seat: u32, call: &Call) -> Result<(), AllocError> {
    let may = seat < world.seats() && call.in_range(world.setting()) && world.calls().len() < 100;
    if !may {
        return Ok(());
    }
    match *call {
        Call::Get { key } => world.give(seat, Call::Get { key }),
        Call::Put { key, value } => world.give(seat, Call::Put { key, value }),
        Call::Del { key } => world.give(seat, Call::Del { key }),
        Call::Range { low, high } => world.give(seat, Call::Range { low, high }),
    }
}

// A small world that was given the sheet's calls.
fn given(alloc: Global, sheet: &Sheet) -> Result<World, AllocError> {
    let mut world = World::blank(alloc);
    world.lay(alloc, &small())?;
    for item in sheet.as_slice() {
        if let Item::Ask { seat, call } = item {
            give(&mut world, *seat, call)?;
        }
    }
    Ok(world)
}

// The picture of a world's words.
fn picture(alloc: Global, world: &World) -> Result<Vec<u8>, AllocError> {
    let cfg = small();
    let mut sink = ListSink::new(alloc, 10_000, 5_000, Vec::new(alloc))?;
    if world.words().len() == cfg.words() as usize {
        let _ = paint(&cfg, world.words(), &mut sink);
    }
    sink.bytes().to_vec(alloc)
}

// The map of a log.
fn map_of(alloc: Global, log: &[Entry]) -> Result<PlainMap, AllocError> {
    let mut map = PlainMap::new(alloc);
    for entry in log {
        match entry.change {
            Change::Put { key, value } => {
                map.put(key, value)?;
            }
            Change::Del { key } => {
                map.del(key);
            }
        }
    }
    Ok(map)
}

fn are_same(rows: &[Row], others: &[Row]) -> bool {
    if rows.len() != others.len() {
        return false;
    }
    for i in 0..rows.len() {
        if rows[i].key != others[i].key || rows[i].value != others[i].value {
            return false;
        }
    }
    true
}

// The world's picture is lawful, and holds the map of its log, of so many keys.
fn holds_its_map(alloc: Global, world: &World, keys: usize) -> Result<bool, AllocError> {
    let map = map_of(alloc, world.log())?;
    match check(alloc, &picture(alloc, world)?)? {
        Verdict::Lawful { pairs, .. } => {
            Ok(map.pairs().len() == keys && are_same(pairs.as_slice(), map.pairs()))
        }
        Verdict::Refused(_) => Ok(false),
    }
}

// A world that has served the sheet has a lawful picture of so many keys.
fn is_pictured(alloc: Global, sheet: &[u8], keys: usize) -> Result<bool, AllocError> {
    let Ok(sheet) = read_sheet(alloc, sheet, Mode::Replay, &small()) else {
        return Ok(false);
    };
    let mut world = given(alloc, &sheet)?;
    for _ in 0..1_000 {
        for seat in 0..3 {
            if seat < world.seats() {
                world.turn(seat);
            }
        }
    }
    holds_its_map(alloc, &world, keys)
}

#[test]
fn a_world_that_has_served_a_sheet_has_a_lawful_picture_with_its_map(
    rt: HostRuntime,
) -> Result<(), Fail> {
    let alloc = rt.alloc();
    for (sheet, keys) in [
        (b"get,0,5,\n".as_slice(), 0),
        (
            b"put,0,5,50\nput,1,4,40\ndel,0,5,\nput,2,9,90\n".as_slice(),
            2,
        ),
        (
            b"put,0,1,1\nput,1,2,2\nput,2,3,3\nput,0,4,4\nput,1,5,5\nput,2,6,6\nput,0,7,7\nput,1,8,8\nput,2,9,9\n".as_slice(),
            9,
        ),
    ] {
        assert!(rt; is_pictured(alloc, sheet, keys)?);
    }
    Ok(())
}

// What the pictures are like along the turns of one put: refused by the taken lock so often, and else lawful or not.
#[derive(Clone, Copy, Debug, PartialEq, Eq)]
struct Along {
    locked: u32,
    other: u32,
}

fn along_a_put(alloc: Global) -> Result<Along, AllocError> {
    let mut along = Along {
        locked: 0,
        other: 0,
    };
    let Ok(sheet) = read_sheet(alloc, b"put,0,5,50\n", Mode::Replay, &small()) else {
        return Ok(along);
    };
    let mut world = given(alloc, &sheet)?;
    for _ in 0..200 {
        if world.seats() == 0 {
            return Ok(along);
        }
        world.turn(0);
        match check(alloc, &picture(alloc, &world)?)? {
            Verdict::Refused(FirstPlace::Lock { .. }) => along.locked = along
                .locked
                .saturating_add(1),
            Verdict::Refused(_) => along.other = along.other.saturating_add(1),
            Verdict::Lawful { .. } => {}
        }
    }
    Ok(along)
}

#[test]
fn in_the_midst_of_a_write_a_picture_has_a_taken_lock(rt: HostRuntime) -> Result<(), Fail> {
    let along = along_a_put(rt.alloc())?;
    assert!(rt; along.locked > 0 && along.other == 0);
    Ok(())
}

// What the judge finds of the output of a replay of values of one word, or of two.
fn judged(alloc: Global, words: &[&str], sheet: &[u8], two: bool) -> Result<Finding, AllocError> {
    let mut source = ListSource::new(sheet.to_vec(alloc)?, 4096, Vec::new(alloc));
    let mut sink = ListSink::new(alloc, 10_000, 4096, Vec::new(alloc))?;
    let mut world = World::blank(alloc);
    if replay_judged(alloc, words, &mut world, &mut source, &mut sink) != Status::Ok {
        return Ok(Finding::End);
    }
    judge_text(alloc, sink.bytes(), if two { 2 } else { 1 })
}

#[test]
fn what_a_replay_prints_is_judged_lawful(rt: HostRuntime) -> Result<(), Fail> {
    let alloc = rt.alloc();
    let one =
        b"put,0,5,50\nput,1,7,70\nrange,2,1,9\nget,0,5,\ndel,1,7,\nget,2,7,\nturn,2,9,\n".as_slice();
    let pairs =
        b"put,0,5,50:51\nput,1,7,70:71\nrange,0,1,9\ndel,0,5,\nget,0,7,\nput,1,7,1:18446744073709551615\nturn,1,30,\n".as_slice();
    for (words, sheet, two, entries) in [
        ([].as_slice(), one, false, 3),
        (&["--map"], one, false, 3),
        (&["--value-words=2"], pairs, true, 4),
        (&["--value-words=2", "--map"], pairs, true, 4),
    ] {
        assert!(rt; judged(alloc, words, sheet, two)? == Finding::Lawful { calls: 6, entries });
    }
    Ok(())
}
