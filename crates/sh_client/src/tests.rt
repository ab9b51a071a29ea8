// What clients do on laid words.
ghost use Rattle.std.specs.Prelude.{◌≡◌};
ghost use Rattle.sh_base.specs.Memory.{at_of};

use crate::{Client, Want};
use sh_base::{Config, ConfigParts, Event, Value};
use sh_map::{Call, Reply};
use std::alloc::{AllocError, Global};
use std::test::Fail;

// One server of four chunks of eight nodes, leaves of four entries, one compute server of three seats.
fn small(value_words: u32) -> Config {
    let parts = ConfigParts {
        servers: 1,
        chunks: 4,
        chunk_nodes: 8,
        leaf: 4,
        computes: 1,
        seats: 3,
        cached: 0,
        value_words,
        ..ConfigParts::default()
    };
    Config::new(parts).unwrap_or_default()
}

// The laid words of this setting: the root, the first chunk's count, and the high fence of the first leaf.
fn laid(alloc: Global, cfg: &Config) -> Result<Vec<u64>, AllocError> {
    let mut words = Vec::new(alloc);
    for at in 0..cfg.words() {
        let word = match at {
            1 | 2 => 1,
            70 => u64::MAX,
            _ => 0,
        };
        words.push(word)?;
    }
    Ok(words)
}

// The address of an event.
fn at_of(event: Event) -> u32
    ensures { result ≡ at_of event }
{
    match event {
        Event::Load { at } => at,
        Event::Store { at, .. } => at,
        Event::Exchange { at, .. } => at,
        Event::Add { at } => at,
    }
}

// Takes the wanted turn, where no other seat is.
fn take(client: &mut Client, words: &mut [u64]) {
    match client.want() {
        Want::Event(event) => {
            if (at_of(event) as usize) < words.len() {
                client.fed(event.apply(words));
            }
        }
        Want::Look { .. } => client.fed_turn(None),
        Want::Draw { .. } | Want::Waiting { .. } | Want::Leave { .. } => client.fed(0),
        Want::Done => {}
    }
}

// How many turns a new client's call takes on these words, at most 1000, and what it answers; none where it may not be
// begun.
fn ask(alloc: Global, cfg: &Config, words: &mut [u64], call: &Call) -> (u32, Option<Reply>) {
    if !call.in_range(cfg) || cfg.all_seats() == 0 {
        return (0, None);
    }
    let Ok(mut client) = Client::new(alloc, cfg, 0) else {
        return (0, None);
    };
    match *call {
        Call::Get { key } => client.begin(Call::Get { key }),
        Call::Put { key, value } => client.begin(Call::Put { key, value }),
        Call::Del { key } => client.begin(Call::Del { key }),
        Call::Range { low, high } => client.begin(Call::Range { low, high }),
    }
    let turns = run(&mut client, words);
    (turns, client.reply())
}

// Takes turns until the call has ended, and answers how many.
fn run(client: &mut Client, words: &mut [u64]) -> u32 {
    for turns in 0..1000 {
        if client.want() == Want::Done {
            return turns;
        }
        take(client, words);
    }
    1000
}

fn is_none(reply: &Option<Reply>) -> bool {
    match reply {
        Some(Reply::None) => true,
        _ => false,
    }
}

fn is_some(reply: &Option<Reply>, word: u64) -> bool {
    match reply {
        Some(Reply::Some(value)) => value.words() == [word].as_slice(),
        _ => false,
    }
}

fn is_upto(reply: &Option<Reply>, bound: u64) -> bool {
    match reply {
        Some(Reply::Rows { upto }) => *upto == bound,
        _ => false,
    }
}

#[test]
fn turns_of_calls_on_one_leaf(rt: HostRuntime) -> Result<(), Fail> {
    let cfg = small(1);
    let mut words = laid(rt.alloc(), &cfg)?;
    assert_eq!(rt; words.len(), 803);
    let (turns, reply) = ask(rt.alloc(), &cfg, &mut words, &Call::Get { key: 5 });
    assert!(rt; turns == 24 && is_none(&reply));
    let put = Call::Put {
        key: 5,
        value: Value::of(&[50]),
    };
    let (turns, reply) = ask(rt.alloc(), &cfg, &mut words, &put);
    assert!(rt; turns == 57 && is_none(&reply));
    assert!(rt; shows(&words, 73, &[1, 5, 50, 1, 0]));
    for _ in 0..14 {
        let (turns, reply) = ask(rt.alloc(), &cfg, &mut words, &put);
        assert!(rt; turns == 57 && is_some(&reply, 50));
    }
    let (turns, reply) = ask(rt.alloc(), &cfg, &mut words, &put);
    assert!(rt; turns == 76 && is_some(&reply, 50));
    assert!(rt; shows(&words, 67, &[1]) && shows(&words, 73, &[0]) && shows(&words, 89, &[1]));
    let (turns, reply) = ask(rt.alloc(), &cfg, &mut words, &Call::Get { key: 5 });
    assert!(rt; turns == 24 && is_some(&reply, 50));
    let (turns, reply) = ask(rt.alloc(), &cfg, &mut words, &Call::Del { key: 6 });
    assert!(rt; turns == 53 && is_none(&reply));
    let (turns, reply) = ask(rt.alloc(), &cfg, &mut words, &Call::Del { key: 5 });
    assert!(rt; turns == 57 && is_some(&reply, 50));
    assert!(rt; shows(&words, 73, &[1, 0, 0, 1]));
    Ok(())
}

#[test]
fn a_put_of_two_words_takes_66_turns(rt: HostRuntime) -> Result<(), Fail> {
    let cfg = small(2);
    let mut words = laid(rt.alloc(), &cfg)?;
    let put = Call::Put {
        key: 5,
        value: Value::of(&[50, 51]),
    };
    let (turns, reply) = ask(rt.alloc(), &cfg, &mut words, &put);
    assert!(rt; turns == 66 && is_none(&reply));
    Ok(())
}

// Whether these words stand from an address on.
fn shows(words: &[u64], at: usize, part: &[u64]) -> bool {
    if part.len() > words.len() || at > words.len() - part.len() {
        return false;
    }
    &words[at..at + part.len()] == part
}

// A turn as its kind and its place.
fn turn_of(want: Want) -> (u32, u32) {
    match want {
        Want::Done => (0, 0),
        Want::Event(Event::Load { at }) => (1, at),
        Want::Event(Event::Store { at, .. }) => (2, at),
        Want::Event(Event::Exchange { at, .. }) => (3, at),
        Want::Event(Event::Add { at }) => (4, at),
        Want::Draw { lock } => (5, lock),
        Want::Look { lock } => (6, lock),
        Want::Waiting { lock } => (7, lock),
        Want::Leave { lock, .. } => (8, lock),
    }
}

// The turns of a put that splits node 1 into nodes 1 and 9, and puts node 10 over them, as they are told.
fn told(turn: u32) -> (u32, u32) {
    match turn {
        1 | 102 => (1, 1),
        2..=24 => (1, 91 - turn),
        25 => (5, 0),
        26 => (6, 0),
        27 => (3, 3),
        28..=50 => (1, 117 - turn),
        51 => (1, 2),
        52 => (4, 2),
        53..=75 => (2, 198 + turn),
        76 => (7, 0),
        77..=99 => (2, turn - 10),
        100 => (2, 3),
        101 => (8, 0),
        103..=125 => (1, 192 - turn),
        126..=148 => (2, 148 + turn),
        149 => (3, 1),
        _ => (0, 0),
    }
}

#[test]
fn a_split_and_a_new_root_turn_by_turn(rt: HostRuntime) -> Result<(), Fail> {
    let cfg = small(1);
    let mut words = laid(rt.alloc(), &cfg)?;
    for key in 1..5 {
        let put = Call::Put {
            key: 10 * key,
            value: Value::of(&[key]),
        };
        let (turns, _) = ask(rt.alloc(), &cfg, &mut words, &put);
        assert_eq!(rt; turns, 57);
    }
    assert!(rt; cfg.all_seats() == 3 && cfg.value_words() == 1);
    let Ok(mut client) = Client::new(rt.alloc(), &cfg, 0) else {
        return Ok(());
    };
    client.begin(Call::Put {
        key: 50,
        value: Value::of(&[5]),
    });
    for turn in 1..151 {
        assert_eq!(rt; turn_of(client.want()), told(turn));
        take(&mut client, &mut words);
    }
    assert!(rt; is_none(&client.reply()));
    assert_eq!(rt; client.tally().splits, 1);
    assert!(rt; shows(&words, 1, &[10, 2, 0]));
    assert!(rt; shows(&words, 67, &[1, 0, 0, 30, 9, 0]));
    assert!(rt; shows(&words, 251, &[0, 0, 30, u64::MAX, 0, 0]));
    assert!(rt; shows(&words, 274, &[0, 1, 0, u64::MAX, 0, 2, 0, 1, 30, 9]));
    let (turns, reply) = ask(rt.alloc(), &cfg, &mut words, &Call::Get { key: 50 });
    assert!(rt; turns == 47 && is_some(&reply, 5));
    let all = Call::Range { low: 1, high: 100 };
    let (turns, reply) = ask(rt.alloc(), &cfg, &mut words, &all);
    assert!(rt; turns == 70 && is_upto(&reply, 100));
    let left = Call::Range { low: 1, high: 30 };
    let (turns, reply) = ask(rt.alloc(), &cfg, &mut words, &left);
    assert!(rt; turns == 47 && is_upto(&reply, 30));
    let none = Call::Range { low: 7, high: 7 };
    let (turns, reply) = ask(rt.alloc(), &cfg, &mut words, &none);
    assert!(rt; turns == 47 && is_upto(&reply, 7));
    Ok(())
}

// Words of two leaves, of which the left one has the keys 10 and 20, and the right one 30, 40 and 50.
fn two_leaves(alloc: Global, cfg: &Config) -> Result<Vec<u64>, AllocError> {
    let mut words = laid(alloc, cfg)?;
    for key in 1..6 {
        let put = Call::Put {
            key: 10 * key,
            value: Value::of(&[key]),
        };
        ask(alloc, cfg, &mut words, &put);
    }
    Ok(words)
}

#[test]
fn a_range_with_a_full_buffer_reads_no_further_leaf(rt: HostRuntime) -> Result<(), Fail> {
    let cfg = small(1);
    let mut words = two_leaves(rt.alloc(), &cfg)?;
    for (rows, told, upto) in [
        (1, 47, 11),
        (2, 47, 21),
        (3, 70, 31),
        (5, 70, 51),
        (6, 70, 100),
    ] {
        let parts = ConfigParts {
            rows,
            ..cfg.parts()
        };
        let short = Config::new(parts).unwrap_or_default();
        let range = Call::Range { low: 1, high: 100 };
        let (turns, reply) = ask(rt.alloc(), &short, &mut words, &range);
        assert!(rt; turns == told && is_upto(&reply, upto));
    }
    Ok(())
}

// A client of seat 0 that has begun a put of key 5.
fn putting(alloc: Global, cfg: &Config) -> Option<Client> {
    if cfg.all_seats() == 0 || cfg.value_words() != 1 {
        return None;
    }
    let mut client = Client::new(alloc, cfg, 0).ok()?;
    client.begin(Call::Put {
        key: 5,
        value: Value::of(&[50]),
    });
    Some(client)
}

#[test]
fn senseless_words_lead_to_the_root_word(rt: HostRuntime) {
    let root = Want::Event(Event::Load { at: 1 });
    for word in [0, u64::MAX] {
        let Some(mut client) = putting(rt.alloc(), &small(1)) else {
            assert!(rt; false, "no client");
            return;
        };
        for _ in 0..10_000 {
            assert_eq!(rt; client.want(), root);
            client.fed(word);
        }
    }
    let Some(mut client) = putting(rt.alloc(), &small(1)) else {
        assert!(rt; false, "no client");
        return;
    };
    for turn in 0..240 {
        assert_eq!(rt; client.want() == root, turn % 24 == 0);
        client.fed(1);
    }
}

#[test]
fn a_lock_is_given_back_after_words_that_are_no_node(rt: HostRuntime) -> Result<(), Fail> {
    let cfg = small(1);
    let mut words = laid(rt.alloc(), &cfg)?;
    let Some(mut client) = putting(rt.alloc(), &cfg) else {
        assert!(rt; false, "no client");
        return Ok(());
    };
    for _ in 0..27 {
        take(&mut client, &mut words);
    }
    for _ in 0..23 {
        client.fed(0);
    }
    assert_eq!(rt; client.want(), Want::Waiting { lock: 0 });
    client.fed(0);
    assert_eq!(rt; client.want(), Want::Event(Event::Store { at: 3, word: 0 }));
    client.fed(0);
    assert_eq!(rt;
        client.want(),
        Want::Leave {
            lock: 0,
            carry: None
        }
    );
    client.fed(0);
    assert_eq!(rt; client.want(), Want::Event(Event::Load { at: 1 }));
    Ok(())
}

#[test]
fn a_lock_is_handed_over_up_to_the_bound(rt: HostRuntime) -> Result<(), Fail> {
    let cfg = small(1);
    let mut words = laid(rt.alloc(), &cfg)?;
    for (depth, carry) in [(0, Some(1)), (3, Some(4)), (4, None)] {
        let Some(mut client) = putting(rt.alloc(), &cfg) else {
            assert!(rt; false, "no client");
            return Ok(());
        };
        for _ in 0..25 {
            take(&mut client, &mut words);
        }
        if depth > client.cfg.parts().bound {
            return Ok(());
        }
        client.fed_turn(Some(depth));
        for _ in 0..23 {
            take(&mut client, &mut words);
        }
        assert_eq!(rt; client.want(), Want::Waiting { lock: 0 });
        client.fed(1);
        for _ in 0..4 {
            assert_eq!(rt; turn_of(client.want()).0, 2);
            client.fed(0);
        }
        if carry.is_none() {
            assert_eq!(rt; client.want(), Want::Event(Event::Store { at: 3, word: 0 }));
            client.fed(0);
        }
        assert_eq!(rt; client.want(), Want::Leave { lock: 0, carry });
        client.fed(0);
        assert_eq!(rt; client.tally().handed, if carry.is_none() { 0 } else { 1 });
        assert!(rt; is_none(&client.reply()));
    }
    Ok(())
}
