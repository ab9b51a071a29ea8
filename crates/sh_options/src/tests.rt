// Words that are read, and words that are refused.
use crate::{WordFault, behind_name, read_words, words_given};
use sh_sheet::Mode;
use std::alloc::Global;
use std::io;

#[test]
fn words_are_refused(rt: HostRuntime) {
    for words in [
        ["--leaf", "3"].as_slice(),
        ["--leaf", "4", "--leaf", "4"].as_slice(),
        ["--"].as_slice(),
        ["--seed", "3"].as_slice(),
        ["--bits", "+8"].as_slice(),
        ["--pages", "3"].as_slice(),
        ["--value-words", "9"].as_slice(),
        ["--servers", "8", "--chunks", "4096", "--chunk-nodes", "256"].as_slice(),
        ["--help"].as_slice(),
        ["--map=1"].as_slice(),
        ["--make", "0"].as_slice(),
        ["--make", "1000001"].as_slice(),
        ["--make=1", "--seed=18446744073709551616"].as_slice(),
        ["--computes", "9"].as_slice(),
        ["--seats=8", "--computes=8", "--leaf=65"].as_slice(),
    ] {
        let fault = read_words(rt.alloc(), words, Mode::Replay).err();
        assert_eq!(rt; fault, Some(WordFault::Usage), "{words:?}");
    }
}

#[test]
fn words_are_read(rt: HostRuntime) {
    for (words, leaf, map) in [
        ([].as_slice(), 16, false),
        (["--leaf=4"].as_slice(), 4, false),
        (["--leaf", "4"].as_slice(), 4, false),
        (["--map", "--leaf", "007"].as_slice(), 7, true),
    ] {
        let order = read_words(rt.alloc(), words, Mode::Run).expect(&rt, "an order");
        assert_eq!(rt; order.cfg.leaf(), leaf, "{words:?}");
        assert_eq!(rt; order.map, map, "{words:?}");
        assert_eq!(rt; order.seed, 1);
    }
}

#[test]
fn numbers_are_read_at_their_limits(rt: HostRuntime) {
    for (words, seats, make, seed) in [
        (["--make", "1"].as_slice(), 8, Some(1), 1),
        (["--make=1000000"].as_slice(), 8, Some(1_000_000), 1),
        (
            ["--make=100001", "--seed=18446744073709551615"].as_slice(),
            8,
            Some(100_001),
            u64::MAX,
        ),
        (["--computes", "8", "--seats", "8"].as_slice(), 64, None, 1),
    ] {
        let order = read_words(rt.alloc(), words, Mode::Replay).expect(&rt, "an order");
        assert_eq!(rt; order.cfg.all_seats(), seats, "{words:?}");
        assert_eq!(rt; order.make, make, "{words:?}");
        assert_eq!(rt; order.seed, seed, "{words:?}");
    }
}

// Whether these words are those given behind the first one.
fn are_behind(words: &[&str], given: &[&str]) -> bool {
    for at in 0..words.len() {
        if at + 1 >= given.len() || words[at] != given[at + 1] {
            return false;
        }
    }
    true
}

// How many words stand behind a program's name, if they are those that were given, with memory enough.
fn count_behind(alloc: Global, given: &[&str]) -> Option<usize> {
    let mut words = Vec::new(alloc);
    for word in given {
        words.push(String::from_str(alloc, word).ok()?).ok()?;
    }
    let words = words_given(alloc, Ok(words.into_iter())).ok()?;
    let behind = behind_name(alloc, &words).ok()?;
    if are_behind(&behind, given) {
        Some(behind.len())
    } else {
        None
    }
}

#[test]
fn words_behind_the_name_are_lent(rt: HostRuntime) {
    for (given, count) in [
        ([].as_slice(), 0),
        (["name"].as_slice(), 0),
        (["name", "--map"].as_slice(), 1),
        (["name", "--leaf", "4"].as_slice(), 2),
    ] {
        assert_eq!(rt; count_behind(rt.alloc(), given), Some(count));
    }
    let refused = Err(io::Error::from(io::ErrorKind::InvalidData));
    let fault = words_given(rt.alloc(), refused).err();
    assert_eq!(rt; fault, Some(WordFault::Usage));
}

#[test]
fn calls_are_made_in_a_replay(rt: HostRuntime) {
    let words = ["--make", "5", "--seed", "7"];
    let order = read_words(rt.alloc(), &words, Mode::Replay).expect(&rt, "an order");
    assert_eq!(rt; order.make, Some(5));
    assert_eq!(rt; order.seed, 7);
    let fault = read_words(rt.alloc(), &words, Mode::Run).err();
    assert_eq!(rt; fault, Some(WordFault::Usage));
}
