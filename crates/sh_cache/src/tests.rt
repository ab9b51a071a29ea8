// A cache's rows, by the versions that are found.
use super::*;
use sh_base::{Config, ConfigParts};
use sh_image::{InnerImage, Pair};
use std::alloc::{AllocError, Global};

// A setting whose seats cache so many rows.
fn setting(cached: u32) -> Config {
    let parts = ConfigParts {
        cached,
        ..ConfigParts::default()
    };
    Config::new(parts).unwrap_or_default()
}

// The version of the row that is found, and 0 for none.
fn version(cache: &Cache, key: u64) -> u64 {
    match cache.find(key) {
        Some(row) => row.version(),
        None => 0,
    }
}

// The versions that are found for 15, 25 and 55: after rows from 10 and from 20 on are kept as versions 1 and 2;
// after another from 10 on and one from 50 on are kept as versions 3 and 4; after the one from 20 on is forgotten.
fn versions(alloc: Global, cached: u32) -> Result<[u64; 9], AllocError> {
    let mut cache = Cache::new(alloc, &setting(cached))?;
    let mut found = [0; 9];
    cache.keep(&InnerImage::new(1, 1, 10, 40, 0));
    cache.keep(&InnerImage::new(2, 1, 20, 30, 0));
    found[0] = version(&cache, 15);
    found[1] = version(&cache, 25);
    found[2] = version(&cache, 55);
    cache.keep(&InnerImage::new(3, 1, 10, 40, 0));
    cache.keep(&InnerImage::new(4, 1, 50, 60, 0));
    found[3] = version(&cache, 15);
    found[4] = version(&cache, 25);
    found[5] = version(&cache, 55);
    cache.forget(20);
    found[6] = version(&cache, 15);
    found[7] = version(&cache, 25);
    found[8] = version(&cache, 55);
    Ok(found)
}

#[test]
fn the_oldest_row_makes_room(rt: HostRuntime) -> Result<(), AllocError> {
    let alloc = rt.alloc();
    assert_eq!(rt; versions(alloc, 0)?, [0; 9]);
    assert_eq!(rt; versions(alloc, 1)?, [0, 2, 0, 0, 0, 4, 0, 0, 4]);
    assert_eq!(rt; versions(alloc, 2)?, [1, 2, 0, 0, 2, 4, 0, 0, 4]);
    assert_eq!(rt; versions(alloc, 3)?, [1, 2, 0, 3, 2, 4, 3, 3, 4]);
    Ok(())
}

// The version that is found of a row that covers the keys from 10 on below 40, and of one from 20 on below 30.
fn version_at(alloc: Global, key: u64) -> Result<u64, AllocError> {
    let mut cache = Cache::new(alloc, &setting(2))?;
    cache.keep(&InnerImage::new(1, 1, 10, 40, 0));
    cache.keep(&InnerImage::new(2, 1, 20, 30, 0));
    Ok(version(&cache, key))
}

#[test]
fn keys_at_the_fences(rt: HostRuntime) -> Result<(), AllocError> {
    let alloc = rt.alloc();
    for (key, found) in [
        (9, 0),
        (10, 1),
        (19, 1),
        (20, 2),
        (29, 2),
        (30, 1),
        (39, 1),
        (40, 0),
        (u64::MAX, 0),
    ] {
        assert_eq!(rt; version_at(alloc, key)?, found);
    }
    Ok(())
}

// The versions that are found for 15, 25, 35, 45, 55 and 65.
fn all_versions(cache: &Cache) -> [u64; 6] {
    [
        version(cache, 15),
        version(cache, 25),
        version(cache, 35),
        version(cache, 45),
        version(cache, 55),
        version(cache, 65),
    ]
}

// Rows of ten keys each, with room for three.
#[test]
fn a_slot_is_used_again(rt: HostRuntime) -> Result<(), AllocError> {
    let mut cache = Cache::new(rt.alloc(), &setting(3))?;
    cache.keep(&InnerImage::new(1, 1, 10, 20, 0));
    cache.keep(&InnerImage::new(2, 1, 20, 30, 0));
    cache.keep(&InnerImage::new(3, 1, 30, 40, 0));
    cache.forget(10);
    cache.keep(&InnerImage::new(4, 1, 40, 50, 0));
    assert_eq!(rt; all_versions(&cache), [0, 2, 3, 4, 0, 0]);
    cache.keep(&InnerImage::new(5, 1, 50, 60, 0));
    assert_eq!(rt; all_versions(&cache), [0, 0, 3, 4, 5, 0]);
    cache.keep(&InnerImage::new(6, 1, 30, 40, 0));
    assert_eq!(rt; all_versions(&cache), [0, 0, 6, 4, 5, 0]);
    cache.keep(&InnerImage::new(7, 1, 60, 70, 0));
    assert_eq!(rt; all_versions(&cache), [0, 0, 0, 4, 5, 7]);
    Ok(())
}

// How many pairs the row has that is found for a key, and the last one's child; 0 and 0 for none.
fn last_pair(cache: &Cache, key: u64) -> (u32, u32) {
    match cache.find(key) {
        Some(row) if row.pairs() > 0 => (row.pairs(), row.pair(row.pairs() - 1).child),
        _ => (0, 0),
    }
}

#[test]
fn a_row_is_a_copy_of_the_image(rt: HostRuntime) -> Result<(), AllocError> {
    let mut cache = Cache::new(rt.alloc(), &setting(2))?;
    let mut image = InnerImage::new(1, 1, 10, 40, 0);
    image.push(Pair {
        separator: 10,
        child: 5,
    });
    image.push(Pair {
        separator: 20,
        child: 6,
    });
    cache.keep(&image);
    image.push(Pair {
        separator: 30,
        child: 7,
    });
    assert_eq!(rt; last_pair(&cache, 15), (2, 6));
    cache.keep(&image);
    assert_eq!(rt; last_pair(&cache, 15), (3, 7));
    Ok(())
}
