// What passes do: in turn in one thread, and in threads of their own.
ghost use Rattle.std.specs.Prelude.{◌≡◌, IfOk, IfSome, true};
ghost use Rattle.sh_base.specs.Parts.{parts_of};
ghost use Rattle.sh_client.specs.Rests.{is_resting};
ghost use Rattle.sh_pool.specs.{Cards.{IsNoteOf}, Pools.{AreReady, IsOfPool, IsReady}};

use crate::{Note, Pass, Pool, Step};
use sh_base::{Config, ConfigParts, Value};
use sh_map::{Call, Reply};
use std::alloc::AllocError;
use std::test::Fail;
use std::thread::join;

// One server of one chunk of eight nodes, leaves of four entries, one compute server of three seats.
fn small() -> Config {
    let parts = ConfigParts {
        servers: 1,
        chunks: 1,
        chunk_nodes: 8,
        leaf: 4,
        computes: 1,
        seats: 3,
        cached: 0,
        ..ConfigParts::default()
    };
    Config::new(parts).unwrap_or_default()
}

// The last of the passes.
fn take_pass(passes: &mut Vec<Pass>, pool: &Pool, cfg: &Config) -> Result<Pass, AllocError>
    requires { AreReady (parts_of cfg.now) pool.now.laid passes.old.items }
    ensures rest { AreReady (parts_of cfg.now) pool.now.laid passes.new.items }
    ensures pass { IfOk result (λ q. IsReady (parts_of cfg.now) pool.now.laid q) }
{
    match passes.pop() {
        Some(pass) => Ok(pass),
        None => Err(AllocError),
    }
}

// Begins a call, where it is in range, and takes turns until it has ended, but no more than `limit`: how many they were,
// and the reply.
fn turns_of(
    pass: &mut Pass,
    pool: &Pool,
    cfg: &Config,
    call: Call,
    limit: u64,
) -> Option<(u64, Reply)>
    requires { IsReady (parts_of cfg.now) pool.now.laid pass.old }
    ensures { IfSome result (λ r. IsReady (parts_of cfg.now) pool.now.laid pass.new) }
{
    if !call.in_range(cfg) {
        return None;
    }
    pass.begin(call);
    for n in 0..limit {
        if let Step::Done(reply) = pass.step(pool) {
            return Some((n + 1, reply));
        }
    }
    None
}

#[test]
fn a_put_takes_57_turns_and_a_get_by_another_pass_24(rt: HostRuntime) -> Result<(), AllocError> {
    let cfg = small();
    let mut pool = Pool::blank(rt.alloc());
    let mut passes = pool.lay(rt.alloc(), &cfg)?;
    let mut one = take_pass(&mut passes, &pool, &cfg)?;
    let mut zero = take_pass(&mut passes, &pool, &cfg)?;
    let put = Call::Put {
        key: 5,
        value: Value::of(&[50]),
    };
    let Some((puts, reply)) = turns_of(&mut zero, &pool, &cfg, put, 1000) else {
        return Err(AllocError);
    };
    assert_eq!(rt; puts, 57);
    assert!(rt; matches!(reply, Reply::None));
    let Some((gets, reply)) = turns_of(&mut one, &pool, &cfg, Call::Get { key: 5 }, 1000) else {
        return Err(AllocError);
    };
    assert_eq!(rt; gets, 24);
    assert!(rt; matches!(reply, Reply::Some(_)));
    Ok(())
}

// Puts a key so often, each by no more steps than the limit: how many puts ended, and how many of them were refused.
fn put_often(pass: Pass, pool: &Pool, cfg: &Config, puts: u64, limit: u64) -> (u64, u64)
    requires { IsReady (parts_of cfg.now) pool.now.laid pass }
{
    let mut pass = pass;
    let mut refused = 0;
    for n in 0..puts {
        let put = Call::Put {
            key: 5,
            value: Value::of(&[n]),
        };
        let Some((_, reply)) = turns_of(&mut pass, pool, cfg, put, limit) else {
            return (n, refused);
        };
        if matches!(reply, Reply::Full | Reply::Worn { .. }) {
            refused = refused.saturating_add(1);
        }
    }
    (puts, refused)
}

#[test]
fn two_threads_put_a_thousand_times_each(rt: HostRuntime) -> Result<(), AllocError> {
    let cfg = small();
    let mut pool = Pool::blank(rt.alloc());
    let mut passes = pool.lay(rt.alloc(), &cfg)?;
    let one = take_pass(&mut passes, &pool, &cfg)?;
    let two = take_pass(&mut passes, &pool, &cfg)?;
    let (first, second) = join(
        &rt,
        || -> (u64, u64)
            requires { IsReady (parts_of cfg) pool.laid one }
        { put_often(one, &pool, &cfg, 1000, 50_000_000) },
        || -> (u64, u64)
            requires { IsReady (parts_of cfg) pool.laid two }
        { put_often(two, &pool, &cfg, 1000, 50_000_000) },
    );
    assert_eq!(rt; first, (1000, 0));
    assert_eq!(rt; second, (1000, 0));
    Ok(())
}

// Whether a get of key 5 finds a value.
fn finds(pass: &mut Pass, pool: &Pool, cfg: &Config) -> bool
    requires { IsReady (parts_of cfg.now) pool.now.laid pass.old }
{
    let Some((_, reply)) = turns_of(pass, pool, cfg, Call::Get { key: 5 }, 1_000_000) else {
        return false;
    };
    matches!(reply, Reply::Some(_))
}

// Learns a note, and gets key 5.
fn learn_and_get(pass: Pass, pool: &Pool, cfg: &Config, note: Note) -> bool
    requires pass { IsReady (parts_of cfg.now) pool.now.laid pass }
    requires note { IsNoteOf pool.now.laid note }
{
    let mut pass = pass;
    pass.learn(pool, note);
    finds(&mut pass, pool, cfg)
}

// Puts 50 at key 5, and makes a note of it.
fn put_and_note(pass: Pass, pool: &Pool, cfg: &Config) -> Option<(Pass, Note)>
    requires { IsReady (parts_of cfg.now) pool.now.laid pass }
    ensures pass { IfSome result (λ r. IsReady (parts_of cfg.now) pool.now.laid r.0) }
    ensures note { IfSome result (λ r. IsNoteOf pool.now.laid r.1) }
{
    let mut pass = pass;
    let put = Call::Put {
        key: 5,
        value: Value::of(&[50]),
    };
    let Some(_) = turns_of(&mut pass, pool, cfg, put, 1_000_000) else {
        return None;
    };
    let note = pass.note(pool);
    Some((pass, note))
}

#[test]
fn a_pass_that_only_reads_sees_what_it_was_told_of(rt: HostRuntime) -> Result<(), AllocError> {
    let cfg = small();
    let mut pool = Pool::blank(rt.alloc());
    let mut passes = pool.lay(rt.alloc(), &cfg)?;
    let reader = take_pass(&mut passes, &pool, &cfg)?;
    let writer = take_pass(&mut passes, &pool, &cfg)?;
    let Some((_, note)) = put_and_note(writer, &pool, &cfg) else {
        return Err(AllocError);
    };
    assert!(rt; learn_and_get(reader, &pool, &cfg, note));
    Ok(())
}

#[test]
fn a_note_goes_from_thread_to_thread(rt: HostRuntime) -> Result<(), AllocError> {
    let cfg = small();
    let mut pool = Pool::blank(rt.alloc());
    let mut passes = pool.lay(rt.alloc(), &cfg)?;
    let reader = take_pass(&mut passes, &pool, &cfg)?;
    let writer = take_pass(&mut passes, &pool, &cfg)?;
    let (noted, _) = join(
        &rt,
        || -> Option<(Pass, Note)>
            requires { IsReady (parts_of cfg) pool.laid writer }
            ensures { IfSome result (λ r. IsNoteOf pool.laid r.1) }
        { put_and_note(writer, &pool, &cfg) },
        || -> bool { true },
    );
    let Some((_, note)) = noted else {
        return Err(AllocError);
    };
    let (found, _) = join(
        &rt,
        || -> bool
            requires { IsReady (parts_of cfg) pool.laid reader × IsNoteOf pool.laid note }
        { learn_and_get(reader, &pool, &cfg, note) },
        || -> bool { true },
    );
    assert!(rt; found);
    Ok(())
}

#[test]
fn a_pass_and_a_note_that_are_dropped_hinder_nobody(rt: HostRuntime) -> Result<(), AllocError> {
    let cfg = small();
    let mut pool = Pool::blank(rt.alloc());
    let mut passes = pool.lay(rt.alloc(), &cfg)?;
    let mut reader = take_pass(&mut passes, &pool, &cfg)?;
    let writer = take_pass(&mut passes, &pool, &cfg)?;
    let Some((writer, note)) = put_and_note(writer, &pool, &cfg) else {
        return Err(AllocError);
    };
    drop(note);
    drop(writer);
    assert!(rt; finds(&mut reader, &pool, &cfg));
    Ok(())
}

#[test]
fn a_pool_is_gathered_as_it_was_laid(rt: HostRuntime) -> Result<(), AllocError> {
    let cfg = small();
    let mut pool = Pool::blank(rt.alloc());
    let passes = pool.lay(rt.alloc(), &cfg)?;
    let Ok(()) = pool.gather(rt.alloc(), passes) else {
        return Err(AllocError);
    };
    let laid = sh_laid::laid_words(rt.alloc(), &cfg)?;
    assert!(rt; pool.words() == laid.as_slice());
    Ok(())
}
