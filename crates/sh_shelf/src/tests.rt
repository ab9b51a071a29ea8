// A shelf's routes, by their versions.
ghost use Rattle.std.specs.Prelude.{◌≡◌, ◌+◌, ◌<◌, ◌^◌, length};

use super::*;
use sh_base::{Config, ConfigParts};
use sh_image::{InnerImage, Pair};
use std::alloc::{AllocError, Global};
use std::sync::Wait;
use std::test::Fail;
use std::thread::{Threads, join};

// A setting whose seats cache so many rows.
fn setting(cached: u32) -> Config {
    let parts = ConfigParts {
        cached,
        ..ConfigParts::default()
    };
    Config::new(parts).unwrap_or_default()
}

// An image with two pairs.
fn image(low: u64, high: u64, version: u64) -> InnerImage
    ensures { result.level ≡ 1 }
{
    let mut image = InnerImage::new(version, 1, low, high, 0);
    image.push(Pair {
        separator: low,
        child: 5,
    });
    image.push(Pair {
        separator: high,
        child: 6,
    });
    image
}

// The version that is found, and 9 for none.
fn version(looker: &mut Looker, key: u64) -> u64 {
    match looker.find(key) {
        Some(route) => route.version,
        None => 9,
    }
}

// What a looker finds for 40 after an offer, after it is published, and of how many offers it is told.
fn found<R: Wait>(
    rt: &R,
    alloc: Global,
    keeper: &mut Keeper,
    looker: &mut Looker,
) -> Result<(Option<Route>, Option<Route>, u64), AllocError>
    requires { length keeper.old.published + length keeper.old.pending < 2 ^ 63 }
{
    keeper.offer(&image(0, u64::MAX, 0))?;
    let before = looker.find(40);
    keeper.publish(rt)?;
    let after = looker.find(40);
    Ok((before, after, keeper.tell(alloc)?.offers()))
}

// The same of a new shelf with so much room.
fn found_of_new<R: Wait>(
    rt: &R,
    alloc: Global,
    cached: u32,
) -> Result<(Option<Route>, Option<Route>, u64), AllocError> {
    let (mut keeper, mut lookers) = Shelf::new(rt, alloc, &setting(cached), 1)?;
    let Some(mut looker) = lookers.pop() else {
        keeper.end(rt);
        return Err(AllocError);
    };
    let seen = found(rt, alloc, &mut keeper, &mut looker);
    keeper.end(rt);
    seen
}

#[test]
fn a_published_row_is_found(rt: HostRuntime) -> Result<(), Fail> {
    let root = Route {
        low: 0,
        high: u64::MAX,
        version: 0,
        pairs: 2,
    };
    let (before, after, offers) = found_of_new(&rt, rt.alloc(), 4)?;
    assert!(rt; before == None && after == Some(root) && offers == 1);
    let (before, after, offers) = found_of_new(&rt, rt.alloc(), 0)?;
    assert!(rt; before == None && after == None && offers == 1);
    Ok(())
}

// Three rows of which the first is offered again last, in room for two: the rows that are found and told.
fn full<R: Wait>(rt: &R, keeper: &mut Keeper, looker: &mut Looker) -> Result<[u64; 6], AllocError>
    requires { length keeper.old.published + length keeper.old.pending < 2 ^ 62 }
{
    keeper.offer(&image(20, 30, 1))?;
    keeper.offer(&image(10, 40, 2))?;
    keeper.publish(rt)?;
    keeper.offer(&image(20, 30, 3))?;
    keeper.publish(rt)?;
    let inside = version(looker, 25);
    keeper.offer(&image(5, 60, 4))?;
    keeper.publish(rt)?;
    let lows = match keeper.rows() {
        [first, last] => [first.low, last.low],
        _ => [9, 9],
    };
    let outside = [
        version(looker, 25),
        version(looker, 50),
        version(looker, 60),
    ];
    Ok([inside, lows[0], lows[1], outside[0], outside[1], outside[2]])
}

#[test]
fn the_oldest_row_makes_room(rt: HostRuntime) -> Result<(), Fail> {
    let (mut keeper, mut lookers) = Shelf::new(&rt, rt.alloc(), &setting(2), 1)?;
    let Some(mut looker) = lookers.pop() else {
        keeper.end(&rt);
        return Ok(());
    };
    let seen = full(&rt, &mut keeper, &mut looker);
    keeper.end(&rt);
    assert_eq!(rt; seen?, [3, 5, 10, 2, 4, 9]);
    Ok(())
}

// The versions that a looker finds for 40 and for 100 once it was told of an offer, which it can't see on the shelf.
fn told_of<R: Wait>(
    rt: &R,
    alloc: Global,
    mut keeper: Keeper,
    looker: &mut Looker,
) -> Result<[u64; 2], AllocError>
    requires few { length keeper.published + length keeper.pending < 2 ^ 63 }
    requires shelf { keeper.shelf ≡ looker.old.shelf }
    requires room { keeper.room ≡ looker.old.room }
{
    let offered = keeper.offer(&image(0, 100, 7));
    let published = keeper.publish(rt);
    let told = keeper.tell(alloc);
    keeper.end(rt);
    offered?;
    published?;
    looker.learn(told?);
    Ok([version(looker, 40), version(looker, 100)])
}

#[test]
fn a_looker_finds_what_it_was_told(rt: HostRuntime) -> Result<(), Fail> {
    let (keeper, mut lookers) = Shelf::new(&rt, rt.alloc(), &setting(2), 1)?;
    let Some(mut looker) = lookers.pop() else {
        keeper.end(&rt);
        return Ok(());
    };
    assert_eq!(rt; told_of(&rt, rt.alloc(), keeper, &mut looker)?, [7, 9]);
    Ok(())
}

// Offers of versions from 0 on, of eight rows in turn, each published before the next.
fn publish_all<R: Wait>(rt: &R, keeper: &mut Keeper, count: u64) -> Result<(), AllocError> {
    for i in 0..count {
        if keeper.offers() < 1_000_000 {
            let low = i % 8 * 10;
            keeper.offer(&image(low, low + 10, i))?;
            keeper.publish(rt)?;
        }
    }
    Ok(())
}

// How many answers were no offered row of the key, or older than a shelf with eight rows allows after what was found.
fn look_on(looker: &mut Looker, count: u64) -> u64 {
    let mut wrong = 0u64;
    let mut last = 0u64;
    for i in 0..count {
        let row = i % 8;
        if let Some(route) = looker.find(row * 10 + 5) {
            let offered = Route {
                low: row * 10,
                high: row * 10 + 10,
                version: route.version,
                pairs: 2,
            };
            if route != offered
                || route.version % 8 != row
                || route.version >= 10_000
                || route.version.saturating_add(8) <= last
            {
                wrong = wrong.saturating_add(1);
            }
            last = last.max(route.version);
        }
    }
    wrong
}

fn beside<R: Threads + Wait + Sync>(
    rt: &R,
    keeper: &mut Keeper,
    looker: &mut Looker,
) -> Result<u64, AllocError> {
    let (published, wrong) = join(
        rt,
        || publish_all(rt, keeper, 10_000),
        || look_on(looker, 10_000),
    );
    published?;
    Ok(wrong)
}

#[test]
fn a_looker_beside_a_keeper(rt: HostRuntime) -> Result<(), Fail> {
    let (mut keeper, mut lookers) = Shelf::new(&rt, rt.alloc(), &setting(8), 7)?;
    let Some(mut looker) = lookers.pop() else {
        keeper.end(&rt);
        return Ok(());
    };
    let wrong = beside(&rt, &mut keeper, &mut looker);
    let rows = keeper.rows().len();
    let offers = keeper.offers();
    let last = [version(&mut looker, 5), version(&mut looker, 79)];
    keeper.end(&rt);
    assert!(rt; wrong? == 0 && rows == 8 && offers == 10_000 && last == [9_992, 9_999]);
    Ok(())
}

// The sum of the versions that the lookers of so many shelves find, each of which has one row, while all of them stand.
fn stand_beside<R: Wait>(rt: &R, alloc: Global, shelves: u32) -> Result<u64, AllocError> {
    if shelves == 0 {
        return Ok(0);
    }
    let (mut keeper, mut lookers) = Shelf::new(rt, alloc, &setting(1), 1)?;
    let offered = keeper.offer(&image(0, 100, u64::from(shelves) + 100));
    let published = keeper.publish(rt);
    let others = stand_beside(rt, alloc, shelves - 1);
    let own = match lookers.pop() {
        Some(mut looker) => version(&mut looker, 40),
        None => 9,
    };
    keeper.end(rt);
    offered?;
    published?;
    Ok(others?.saturating_add(own))
}

#[test]
fn eight_compute_servers_have_shelves_of_their_own(rt: HostRuntime) -> Result<(), Fail> {
    assert_eq!(rt; stand_beside(&rt, rt.alloc(), 8)?, 836);
    Ok(())
}
