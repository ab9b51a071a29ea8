// Books in words, each with its verdict and the reason for it. A book is entries, calls and rows, set apart by bars:
//
//     SEAT put KEY VALUE OLD; SEAT del KEY OLD               entries; a dash is none
//     SEAT put KEY VALUE OLD FIRST POINT                     calls, numbered from 1
//     SEAT del KEY OLD FIRST POINT; SEAT get KEY VALUE FIRST POINT
//     SEAT range LOW HIGH UPTO FIRST POINT
//     SEAT put-full FIRST POINT                              calls of key 6 or 2..9 with a reply out of the map
//     NUMBER KEY VALUE                                       rows of a call
use crate::{Call, Change, Done, Dones, Entry, Log, Misfit, Reply, Row, Rows, judge};
use sh_base::Value;
use std::alloc::{AllocError, Global};
use std::test::Fail;

// The word at a place.
fn word(text: &str, place: usize) -> &str {
    text.split_whitespace().nth(place).unwrap_or("")
}

// The number at a place, which fits both widths, or 0.
fn number(text: &str, place: usize) -> u64 {
    word(text, place).parse::<u32>().unwrap_or(0) as u64
}

fn small(text: &str, place: usize) -> u32 {
    word(text, place).parse::<u32>().unwrap_or(0)
}

// The value of one word at a place.
fn value(text: &str, place: usize) -> Value {
    Value::of(&[number(text, place)])
}

fn found(text: &str, place: usize) -> Option<Value> {
    if word(text, place) == "-" {
        None
    } else {
        Some(value(text, place))
    }
}

fn change(text: &str) -> Change {
    let key = number(text, 2);
    match word(text, 1) {
        "put" => Change::Put {
            key,
            value: value(text, 3),
        },
        _ => Change::Del { key },
    }
}

fn push_entry(log: &mut Log, text: &str) -> Result<(), AllocError> {
    let change = change(text);
    let old = found(text, if word(text, 1) == "put" { 4 } else { 3 });
    log.push(Entry {
        seat: small(text, 0),
        change,
        old,
    })?;
    Ok(())
}

// Where the reply of a call stands; its first and its point stand behind.
fn reply_place(text: &str) -> usize {
    match word(text, 1) {
        "get" | "del" => 3,
        "put" | "range" => 4,
        _ => 1,
    }
}

fn call(text: &str) -> Call {
    let key = number(text, 2);
    match word(text, 1) {
        "get" => Call::Get { key },
        "put" => Call::Put {
            key,
            value: value(text, 3),
        },
        "del" => Call::Del { key },
        "get-full" => Call::Get { key: 6 },
        "put-full" | "put-worn" => Call::Put {
            key: 6,
            value: Value::of(&[60]),
        },
        "del-full" | "del-worn" => Call::Del { key: 6 },
        "range-none" => Call::Range { low: 2, high: 9 },
        _ => Call::Range {
            low: key,
            high: number(text, 3),
        },
    }
}

fn reply(text: &str) -> Reply {
    let place = reply_place(text);
    match word(text, 1) {
        "range" => Reply::Rows {
            upto: number(text, place),
        },
        "get-full" | "put-full" | "del-full" => Reply::Full,
        "put-worn" | "del-worn" => Reply::Worn { version: 15 },
        "range-none" => Reply::None,
        _ => match found(text, place) {
            Some(value) => Reply::Some(value),
            None => Reply::None,
        },
    }
}

// The rows of a call.
fn rows_of(alloc: Global, n: u32, text: &str) -> Result<Rows, AllocError> {
    let mut rows = Rows::new(alloc);
    for row in text.split(';') {
        if small(row, 0) == n {
            rows.push(Row {
                key: number(row, 1),
                value: value(row, 2),
            })?;
        }
    }
    Ok(rows)
}

// The part of a book at a place.
fn part(text: &str, place: usize) -> &str {
    text.split('|').nth(place).unwrap_or("")
}

fn log_of(alloc: Global, text: &str) -> Result<Log, AllocError> {
    let mut log = Vec::new(alloc);
    for told in part(text, 0).split(';') {
        if word(told, 1) != "" {
            push_entry(&mut log, told)?;
        }
    }
    Ok(log)
}

fn push_done(alloc: Global, dones: &mut Dones, told: &str, rows: &str) -> Result<(), AllocError> {
    let n = u32::try_from(dones.len()).unwrap_or(0).saturating_add(1);
    let place = reply_place(told);
    let rows = rows_of(alloc, n, rows)?;
    let call = call(told);
    let reply = reply(told);
    dones.push(Done {
        n,
        seat: small(told, 0),
        call,
        reply,
        first: number(told, place.saturating_add(1)),
        point: number(told, place.saturating_add(2)),
        rows,
    })?;
    Ok(())
}

fn dones_of(alloc: Global, text: &str) -> Result<Dones, AllocError> {
    let mut dones = Vec::new(alloc);
    for told in part(text, 1).split(';') {
        if word(told, 1) != "" {
            push_done(alloc, &mut dones, told, part(text, 2))?;
        }
    }
    Ok(dones)
}

// Whether the judge says of a book what stands behind its rows.
fn is_judged_so(alloc: Global, text: &str) -> Result<bool, AllocError> {
    let log = log_of(alloc, text)?;
    let dones = dones_of(alloc, text)?;
    let want = part(text, 3);
    let number = number(want, 1);
    Ok(match judge(alloc, &log, &dones)? {
        None => word(want, 0) == "lawful",
        Some(Misfit::Entry { at }) => word(want, 0) == "entry" && at == number,
        Some(Misfit::Reply { n }) => word(want, 0) == "reply" && n as u64 == number,
        Some(Misfit::Row { n }) => word(want, 0) == "row" && n as u64 == number,
        Some(Misfit::Order { n }) => word(want, 0) == "order" && n as u64 == number,
    })
}

#[test]
fn an_entry_has_what_the_map_had_and_an_owner(rt: HostRuntime) -> Result<(), Fail> {
    let alloc = rt.alloc();
    for book in [
        "| | | lawful | nothing breaks no rule",
        "0 put 5 50 -; 0 put 5 51 50 | 0 put 5 50 - 0 0; 0 put 5 51 50 1 1 | | lawful | each entry has what the one before left, and its call",
        "0 put 5 50 -; 0 put 5 51 - | 0 put 5 50 - 0 0; 0 put 5 51 50 1 1 | | entry 1 | the key had 50",
        "0 put 5 50 -; 0 put 5 51 49 | 0 put 5 50 - 0 0; 0 put 5 51 50 1 1 | | entry 1 | the key had 50, not 49",
        "0 del 5 - | | | entry 0 | a delete in the log removed something",
        "0 put 5 50 - | | | lawful | its call hasn't ended",
        "0 put 5 50 -; 1 put 6 60 - | | | lawful | each seat has a call under way",
        "0 put 5 50 -; 0 put 6 60 - | 0 put 6 60 - 1 1 | | entry 0 | nobody's own, and its seat has a later one",
    ] {
        assert!(rt; is_judged_so(alloc, book)?, "{book}");
    }
    Ok(())
}

#[test]
fn a_reply_is_the_maps_at_its_point(rt: HostRuntime) -> Result<(), Fail> {
    let alloc = rt.alloc();
    for book in [
        "0 put 5 50 - | 0 put 5 50 - 0 0 | | lawful | a put of a new key found none",
        "0 put 5 50 -; 0 put 5 51 50 | 0 put 5 50 - 0 0; 0 put 5 51 - 1 1 | | reply 2 | the entry says that it found 50",
        "0 put 5 50 -; 0 put 5 51 50 | 0 put 5 50 - 0 0; 0 put 5 51 50 0 0 | | reply 2 | its entry is at 1",
        "0 put 5 50 - | 1 put 5 50 - 0 0 | | reply 1 | the entry is another seat's",
        "0 put 5 50 -; 1 put 6 60 - | 0 put 5 50 - 0 0; 1 get 5 50 0 1 | | lawful | 50 stands from point 1 on",
        "0 put 5 50 - | 0 put 5 50 - 0 0; 1 get 5 50 0 0 | | reply 2 | 50 doesn't stand at point 0",
        "0 put 5 50 - | 0 put 5 50 - 0 0; 1 get 5 - 0 0 | | lawful | none stands at point 0",
        "0 put 5 50 - | 0 put 5 50 - 0 0; 1 del 5 - 0 1 | | reply 2 | a delete at point 1 finds something",
    ] {
        assert!(rt; is_judged_so(alloc, book)?, "{book}");
    }
    Ok(())
}

#[test]
fn a_reply_fits_its_call_and_the_least_number_is_told(rt: HostRuntime) -> Result<(), Fail> {
    let alloc = rt.alloc();
    for book in [
        "0 put 5 50 -; 0 put 5 51 50 | 0 put 5 50 - 0 0; 0 put 5 51 50 1 1; 1 get 5 51 2 3 | | reply 3 | the log ends at 2",
        "0 put 5 50 -; 0 put 5 51 50 | 0 put 5 50 - 0 0; 0 put 5 51 50 1 1; 1 get-full 2 2 | | reply 3 | a get needs no node",
        "0 put 5 50 -; 0 put 5 51 50 | 0 put 5 50 - 0 0; 0 put 5 51 50 1 1; 1 put-full 2 2 | | lawful | a put may find no node",
        "0 put 5 50 -; 0 put 5 51 50 | 0 put 5 50 - 0 0; 0 put 5 51 50 1 1; 1 put-full 2 3 | | reply 3 | its point is behind the log",
        "0 put 5 50 -; 0 put 5 51 50 | 0 put 5 50 - 0 0; 0 put 5 51 50 1 1; 1 del-worn 0 2 | | lawful | a leaf may be worn",
        "0 put 5 50 -; 0 put 5 51 50 | 0 put 5 50 - 0 0; 0 put 5 51 50 1 1; 1 del-full 2 2 | | reply 3 | a delete needs no node",
        "0 put 5 50 -; 0 put 5 51 50 | 0 put 5 50 - 0 0; 0 put 5 51 50 1 1; 1 range-none 2 2 | | reply 3 | a range answers rows",
        "0 put 5 50 -; 0 put 5 51 50 | 0 put 5 50 - 0 0; 0 put 5 51 50 1 1; 1 get 5 49 2 2; 2 get 5 48 2 2 | | reply 3 | both are wrong, and 3 is the lesser",
    ] {
        assert!(rt; is_judged_so(alloc, book)?, "{book}");
    }
    Ok(())
}

#[test]
fn rows_answer_key_by_key(rt: HostRuntime) -> Result<(), Fail> {
    let alloc = rt.alloc();
    for book in [
        "0 put 5 50 -; 0 put 5 51 50 | 0 put 5 50 - 0 0; 0 put 5 51 50 1 1; 1 range 2 9 9 2 2 | 3 5 51 | lawful | 51 stands at point 2",
        "0 put 5 50 -; 0 put 5 51 50 | 0 put 5 50 - 0 0; 0 put 5 51 50 1 1; 1 range 2 9 9 1 2 | 3 5 50 | lawful | 50 stands at point 1",
        "0 put 5 50 -; 0 put 5 51 50 | 0 put 5 50 - 0 0; 0 put 5 51 50 1 1; 1 range 2 9 9 2 2 | 3 5 50 | row 3 | 50 no longer stands at point 2",
        "0 put 5 50 -; 0 put 5 51 50 | 0 put 5 50 - 0 0; 0 put 5 51 50 1 1; 1 range 2 9 9 0 2 | | lawful | none stands at point 0",
        "0 put 5 50 -; 0 put 5 51 50 | 0 put 5 50 - 0 0; 0 put 5 51 50 1 1; 1 range 2 9 9 1 2 | | row 3 | the key stands all the time",
        "0 put 5 50 -; 0 put 5 51 50 | 0 put 5 50 - 0 0; 0 put 5 51 50 1 1; 1 range 2 9 10 2 2 | 3 5 51 | reply 3 | the rows end behind the range",
        "0 put 5 50 -; 0 put 5 51 50 | 0 put 5 50 - 0 0; 0 put 5 51 50 1 1; 1 range 2 9 5 2 2 | | lawful | key 5 isn't below where the rows end",
        "0 put 5 50 -; 0 put 5 51 50 | 0 put 5 50 - 0 0; 0 put 5 51 50 1 1; 1 range 2 9 5 2 2 | 3 5 51 | row 3 | the row isn't below where the rows end",
    ] {
        assert!(rt; is_judged_so(alloc, book)?, "{book}");
    }
    Ok(())
}

#[test]
fn rows_may_come_from_different_points(rt: HostRuntime) -> Result<(), Fail> {
    let alloc = rt.alloc();
    for book in [
        "0 put 5 50 -; 0 put 7 70 -; 1 put 5 51 50; 1 del 7 70; 1 put 6 60 - | 0 put 5 50 - 0 0; 0 put 7 70 - 1 1; 1 put 5 51 50 2 2; 1 del 7 70 3 3; 1 put 6 60 - 4 4; 2 range 1 9 9 2 5 | 6 5 50; 6 6 60; 6 7 70 | lawful | 5 from point 2, 7 from point 3, 6 from point 5",
        "0 put 5 50 -; 0 put 7 70 -; 1 put 5 51 50; 1 del 7 70; 1 put 6 60 - | 0 put 5 50 - 0 0; 0 put 7 70 - 1 1; 1 put 5 51 50 2 2; 1 del 7 70 3 3; 1 put 6 60 - 4 4; 2 range 1 9 9 2 5 | 6 5 51 | lawful | 5 from point 3, 6 from before, 7 from point 4",
        "0 put 5 50 -; 0 put 7 70 -; 1 put 5 51 50; 1 del 7 70; 1 put 6 60 - | 0 put 5 50 - 0 0; 0 put 7 70 - 1 1; 1 put 5 51 50 2 2; 1 del 7 70 3 3; 1 put 6 60 - 4 4; 2 range 1 9 9 4 5 | 6 5 50 | row 6 | 50 was gone before",
        "0 put 5 50 -; 0 put 7 70 -; 1 put 5 51 50; 1 del 7 70; 1 put 6 60 - | 0 put 5 50 - 0 0; 0 put 7 70 - 1 1; 1 put 5 51 50 2 2; 1 del 7 70 3 3; 1 put 6 60 - 4 4; 2 range 1 9 9 4 4 | 6 5 51; 6 6 60 | row 6 | 60 comes later",
        "0 put 5 50 -; 0 put 7 70 -; 1 put 5 51 50; 1 del 7 70; 1 put 6 60 - | 0 put 5 50 - 0 0; 0 put 7 70 - 1 1; 1 put 5 51 50 2 2; 1 del 7 70 3 3; 1 put 6 60 - 4 4; 2 range 1 9 9 2 5 | 6 6 60; 6 5 50 | row 6 | rows rise",
        "0 put 5 50 -; 0 put 7 70 -; 1 put 5 51 50; 1 del 7 70; 1 put 6 60 - | 0 put 5 50 - 0 0; 0 put 7 70 - 1 1; 1 put 5 51 50 2 2; 1 del 7 70 3 3; 1 put 6 60 - 4 4; 2 range 6 9 9 2 5 | 6 5 50; 6 7 70 | row 6 | key 5 is below the range",
        "0 put 5 50 -; 0 put 7 70 -; 1 put 5 51 50; 1 del 7 70; 1 put 6 60 - | 0 put 5 50 - 0 0; 0 put 7 70 - 1 1; 1 put 5 51 50 2 2; 1 del 7 70 3 3; 1 put 6 60 - 4 4; 2 range 7 7 7 2 5 | | lawful | an empty range has no rows",
        "0 put 5 50 -; 0 put 7 70 -; 1 put 5 51 50; 1 del 7 70; 1 put 6 60 - | 0 put 5 50 - 0 0; 0 put 7 70 - 1 1; 1 put 5 51 50 2 2; 1 del 7 70 3 3; 1 put 6 60 - 4 4; 2 range 1 9 9 2 3; 3 range 1 9 9 5 5 | 6 5 51; 6 7 70; 7 5 51 | row 7 | 6 stands at point 5",
    ] {
        assert!(rt; is_judged_so(alloc, book)?, "{book}");
    }
    Ok(())
}

#[test]
fn a_seats_calls_keep_their_order(rt: HostRuntime) -> Result<(), Fail> {
    let alloc = rt.alloc();
    for book in [
        "0 put 5 50 -; 0 put 5 51 50 | 0 put 5 50 - 0 0; 0 put 5 51 50 0 1 | | order 2 | it begins before the first one's entry",
        "0 put 5 50 -; 0 put 5 51 50 | 0 put 5 50 - 0 0; 0 put 5 51 50 1 1; 0 get 5 50 1 1 | | order 3 | it begins before the second one's entry",
        "0 put 5 50 -; 0 put 5 51 50 | 0 put 5 50 - 0 0; 0 put 5 51 50 1 1; 0 get 5 51 2 2; 0 get 5 51 2 2 | | lawful | each begins where the one before was answered",
        "0 put 5 50 -; 0 put 5 51 50 | 0 put 5 50 - 0 0; 0 put 5 51 50 1 1; 1 get 5 50 1 1; 2 get 5 51 2 2 | | lawful | seats don't wait for one another",
        "0 put 5 50 -; 0 put 5 51 50 | 0 put 5 50 - 0 0; 0 put 5 51 50 1 1; 1 get 5 51 0 2; 1 get 5 50 1 1 | | order 4 | it is answered before the one before it",
        "0 put 5 50 -; 0 put 5 51 50 | 0 put 5 50 - 0 0; 0 put 5 51 50 1 1; 1 put-full 2 1 | | order 3 | it begins behind its point",
        "0 put 5 50 -; 0 put 5 51 50 | 0 put 5 50 - 0 0; 0 put 5 51 50 1 1; 1 get 5 51 2 2; 1 get 5 50 1 1; 0 get 5 50 1 1 | | order 4 | both are early, and 4 is the lesser",
    ] {
        assert!(rt; is_judged_so(alloc, book)?, "{book}");
    }
    Ok(())
}

#[test]
fn the_kinds_are_told_in_their_order(rt: HostRuntime) -> Result<(), Fail> {
    let alloc = rt.alloc();
    for book in [
        "0 put 5 50 -; 0 put 5 51 - | 0 put 5 50 - 0 0; 0 put 5 51 50 0 1 | | entry 1 | an entry before a reply and the order",
        "0 put 5 50 -; 0 put 5 51 50 | 0 put 5 50 - 0 0; 0 put 5 51 - 0 1; 1 range 1 9 9 2 2 | | reply 2 | a reply before rows and the order",
        "0 put 5 50 -; 0 put 5 51 50 | 0 put 5 50 - 0 0; 0 put 5 51 50 0 1; 1 range 1 9 9 2 2 | | row 3 | rows before the order",
        "0 put 5 50 -; 0 put 5 51 50 | 0 put 5 50 - 0 0; 0 put 5 51 50 0 1; 1 range 1 9 9 2 2 | 3 5 51 | order 2 | the order alone",
    ] {
        assert!(rt; is_judged_so(alloc, book)?, "{book}");
    }
    Ok(())
}

#[test]
fn seats_meet_torn_reads_again(rt: HostRuntime) -> Result<(), Fail> {
    let alloc = rt.alloc();
    for book in [
        "2 put 5 50 -; 1 put 5 51 50 | 2 put 5 50 - 0 0; 0 get 5 51 1 2; 1 put 5 51 50 1 1 | | lawful | the get met a put under way and read again",
        "2 put 5 50 -; 1 put 5 51 50 | 2 put 5 50 - 0 0; 0 get 5 51 1 1; 1 put 5 51 50 1 1 | | reply 2 | 51 doesn't stand before its entry",
        "2 put 10 1 -; 2 put 20 2 -; 2 put 30 3 -; 2 put 40 4 -; 1 put 50 5 - | 2 put 10 1 - 0 0; 2 put 20 2 - 1 1; 2 put 30 3 - 2 2; 2 put 40 4 - 3 3; 0 get 40 4 4 4; 1 put 50 5 - 4 4 | | lawful | the key went to a right half during the get",
        "2 put 10 1 -; 2 put 20 2 -; 2 put 30 3 -; 2 put 40 4 -; 1 put 50 5 - | 2 put 10 1 - 0 0; 2 put 20 2 - 1 1; 2 put 30 3 - 2 2; 2 put 40 4 - 3 3; 0 range 1 100 100 4 5; 1 put 50 5 - 4 4 | 5 10 1; 5 20 2; 5 30 3; 5 40 4; 5 50 5 | lawful | the range went on to the right half that a put made",
    ] {
        assert!(rt; is_judged_so(alloc, book)?, "{book}");
    }
    Ok(())
}

#[test]
fn a_key_moves_during_a_read(rt: HostRuntime) -> Result<(), Fail> {
    let alloc = rt.alloc();
    for book in [
        "2 put 10 1 -; 2 put 20 2 -; 2 put 30 3 -; 1 del 20 2; 1 put 15 4 -; 1 put 20 5 - | 2 put 10 1 - 0 0; 2 put 20 2 - 1 1; 2 put 30 3 - 2 2; 0 get 20 - 3 4; 1 del 20 2 3 3; 1 put 15 4 - 4 4; 1 put 20 5 - 5 5 | | lawful | the key was deleted and put into another entry: none stands at point 4",
        "2 put 10 1 -; 2 put 20 2 -; 2 put 30 3 -; 1 del 20 2; 1 put 15 4 -; 1 put 20 5 - | 2 put 10 1 - 0 0; 2 put 20 2 - 1 1; 2 put 30 3 - 2 2; 0 get 20 - 3 3; 1 del 20 2 3 3; 1 put 15 4 - 4 4; 1 put 20 5 - 5 5 | | reply 4 | the key stands at point 3",
        "2 put 10 1 -; 2 put 20 2 -; 2 put 30 3 -; 1 del 20 2; 1 put 15 4 -; 1 put 20 5 - | 2 put 10 1 - 0 0; 2 put 20 2 - 1 1; 2 put 30 3 - 2 2; 0 get 20 5 3 6; 1 del 20 2 3 3; 1 put 15 4 - 4 4; 1 put 20 5 - 5 5 | | lawful | its new value stands at point 6",
        "2 put 10 1 -; 2 put 20 2 -; 2 put 30 3 -; 1 del 20 2; 1 put 15 4 -; 1 put 20 5 - | 2 put 10 1 - 0 0; 2 put 20 2 - 1 1; 2 put 30 3 - 2 2; 0 get 20 4 3 6; 1 del 20 2 3 3; 1 put 15 4 - 4 4; 1 put 20 5 - 5 5 | | reply 4 | 4 is another key's",
        "2 put 10 1 -; 2 put 20 2 -; 2 put 40 4 -; 2 del 20 2; 1 del 40 4; 1 put 40 5 - | 2 put 10 1 - 0 0; 2 put 20 2 - 1 1; 2 put 40 4 - 2 2; 2 del 20 2 3 3; 0 get 40 5 4 6; 1 del 40 4 4 4; 1 put 40 5 - 5 5 | | lawful | the key was seen twice, and the later value was taken",
    ] {
        assert!(rt; is_judged_so(alloc, book)?, "{book}");
    }
    Ok(())
}

#[test]
fn seats_race_and_hand_over(rt: HostRuntime) -> Result<(), Fail> {
    let alloc = rt.alloc();
    for book in [
        "2 put 40 4 -; 0 put 50 5 -; 1 put 60 6 -; 1 put 70 7 - | 2 put 40 4 - 0 0; 0 put 50 5 - 1 1; 1 put 60 6 - 2 2; 1 put 70 7 - 3 3 | | lawful | two made a root, and both puts stand",
        "0 put 10 1 -; 1 put 11 2 -; 3 put 13 4 -; 4 put 14 5 -; 2 put 12 3 -; 5 put 15 6 - | 0 put 10 1 - 0 0; 1 put 11 2 - 0 1; 2 put 12 3 - 0 4; 3 put 13 4 - 0 2; 4 put 14 5 - 0 3; 5 put 15 6 - 0 5 | | lawful | the other compute server's seats came between",
        "0 put 10 1 -; 1 put 11 2 -; 3 put 13 4 -; 4 put 14 5 -; 2 put 12 3 -; 5 put 15 6 - | 0 put 10 1 - 0 0; 1 put 11 2 - 0 1; 2 put 12 3 - 0 2; 3 put 13 4 - 0 4; 4 put 14 5 - 0 3; 5 put 15 6 - 0 5 | | reply 3 | seat 2 came after seat 4",
        "0 put 10 1 - | 0 put 10 1 - 0 0; 0 put-full 1 1; 0 put-worn 1 1; 0 get 10 1 1 1 | | lawful | a refused put changes nothing",
    ] {
        assert!(rt; is_judged_so(alloc, book)?, "{book}");
    }
    Ok(())
}

#[test]
fn numbers_rise(rt: HostRuntime) -> Result<(), Fail> {
    let alloc = rt.alloc();
    for (first, second, want) in [
        (1, 2, None),
        (7, 9, None),
        (2, 2, Some(Misfit::Order { n: 2 })),
        (2, 1, Some(Misfit::Order { n: 1 })),
    ] {
        let text = "0 put 5 50 - | 0 put 5 50 - 0 0; 1 get 5 50 1 1";
        let log = log_of(alloc, text)?;
        let mut dones = dones_of(alloc, text)?;
        for (at, done) in dones.iter_mut().enumerate() {
            done.n = if at == 0 { first } else { second };
        }
        assert!(rt; judge(alloc, &log, &dones)? == want, "{first}, {second}");
    }
    Ok(())
}
