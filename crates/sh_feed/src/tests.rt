ghost use Rattle.std.specs.Prelude.{◌≡◌, ◌+◌, ◌-◌, ◌<◌, ◌≤◌, ◌^◌, ◌++◌, ◌∷◌, [], Some, length};
ghost use Rattle.sh_map.specs.declared.call.Call.TheVariants.{Get};
ghost use Rattle.sh_feed.specs.{declared.job.Job.TheVariants.{Ask, End}, Jobs.{Fits, MayFollow}};

use super::*;
use sh_base::Config;
use sh_map::Call;
use std::alloc::AllocError;
use std::sync::Wait;
use std::test::*;
use std::thread::{Threads, join, yield_now};

// Gives a job, however long the queue is full.
fn give_in_time<R: Wait>(rt: &R, desk: &Desk, giver: &mut Giver, job: Job)
    requires at { (giver.old.feed ≡ desk.now) }
    requires follows { MayFollow giver.old.setup 1 giver.old.gave job × (length giver.old.gave < 2 ^ 62 - 1) }
    ensures same { (giver.new.feed ≡ giver.old.feed) × (giver.new.setup ≡ giver.old.setup) }
    ensures gave { giver.new.gave ≡ giver.old.gave ++ job ∷ [] }
{
    let mut job = job;
    for _ in rt.forever() {
        match desk.give(rt, giver, job) {
            Ok(()) => return,
            Err(back) => {
                job = back;
                yield_now();
            }
        }
    }
    unreachable!()
}

// Gives so many gets of the key 1, and then an End for each of two takers.
fn give_all<R: Wait>(rt: &R, desk: &Desk, giver: Giver, count: u32) -> Giver
    requires at { (giver.feed ≡ desk.now) }
    requires fresh { (giver.gave ≡ []) × Fits giver.setup (Get 1) }
    ensures same { (result.feed ≡ giver.feed) × (result.setup ≡ giver.setup) }
{
    let mut giver = giver;
    for i in 0..count {
        let n = u64::from(i) + 1;
        give_in_time(
            rt,
            desk,
            &mut giver,
            Job::Ask {
                n,
                call: Call::Get { key: 1 },
            },
        );
    }
    give_in_time(rt, desk, &mut giver, Job::End);
    give_in_time(rt, desk, &mut giver, Job::End);
    giver
}

// Takes until an End comes: how many Asks there were, and their sum.
fn take_all<R: Wait>(rt: &R, desk: &Desk, taker: Taker) -> (Taker, u64, u64)
    requires at { (taker.feed ≡ desk.now) }
    ensures same { (result.0.feed ≡ taker.feed) × (result.0.setup ≡ taker.setup) }
{
    let mut taker = taker;
    let mut many = 0u64;
    let mut sum = 0u64;
    for _ in rt.forever() {
        match desk.take(rt, &mut taker) {
            Some(Job::Ask { n, call: _ }) => {
                many = many.wrapping_add(1);
                sum = sum.wrapping_add(n);
            }
            Some(Job::End) => return (taker, many, sum),
            None => yield_now(),
        }
    }
    unreachable!()
}

// The giver and two takers, each in a thread of its own.
fn by_three<R: Threads + Wait + Sync>(
    rt: &R,
    desk: &Desk,
    giver: Giver,
    one: Taker,
    two: Taker,
    count: u32,
) -> (Giver, (Taker, u64, u64), (Taker, u64, u64))
    requires at { (giver.feed ≡ desk.now) × (one.feed ≡ desk.now) × (two.feed ≡ desk.now) }
    requires fresh { (giver.gave ≡ []) × Fits giver.setup (Get 1) }
    ensures giver { (result.0.feed ≡ giver.feed) × (result.0.setup ≡ giver.setup) }
    ensures takers { (result.1.0.feed ≡ one.feed) × (result.2.0.feed ≡ two.feed) }
{
    let (giver, (one, two)) = join(
        rt,
        || -> Giver
            requires { (giver.feed ≡ desk.now) × (giver.gave ≡ []) × Fits giver.setup (Get 1) }
            ensures { (result.feed ≡ giver.feed) × (result.setup ≡ giver.setup) }
        { give_all(rt, desk, giver, count) },
        || -> ((Taker, u64, u64), (Taker, u64, u64))
            requires { (one.feed ≡ desk.now) × (two.feed ≡ desk.now) }
            ensures { (result.0.0.feed ≡ one.feed) × (result.1.0.feed ≡ two.feed) }
        { by_two(rt, desk, one, two) },
    );
    (giver, one, two)
}

fn by_two<R: Threads + Wait + Sync>(
    rt: &R,
    desk: &Desk,
    one: Taker,
    two: Taker,
) -> ((Taker, u64, u64), (Taker, u64, u64))
    requires at { (one.feed ≡ desk.now) × (two.feed ≡ desk.now) }
    ensures { (result.0.0.feed ≡ one.feed) × (result.1.0.feed ≡ two.feed) }
{
    join(
        rt,
        || -> (Taker, u64, u64)
            requires { (one.feed ≡ desk.now) }
            ensures { result.0.feed ≡ one.feed }
        { take_all(rt, desk, one) },
        || -> (Taker, u64, u64)
            requires { (two.feed ≡ desk.now) }
            ensures { result.0.feed ≡ two.feed }
        { take_all(rt, desk, two) },
    )
}

#[test]
fn three_threads_serve_each_ask_once(rt: HostRuntime) -> Result<(), AllocError> {
    let mut feed = Feed::blank();
    let (giver, mut takers) = feed.start(rt.alloc(), &Config::default(), 2)?;
    let Some(two) = takers.pop() else {
        unreachable!()
    };
    let Some(one) = takers.pop() else {
        unreachable!()
    };
    let (giver, (one, many_1, sum_1), (two, many_2, sum_2)) = by_three(
        &rt,
        feed.desk(),
        giver,
        one,
        two,
        5000,
    );
    takers.push_reserved(one);
    takers.push_reserved(two);
    feed.gather(giver, takers);
    assert_eq!(rt; many_1.wrapping_add(many_2), 5000);
    assert_eq!(rt; sum_1.wrapping_add(sum_2), 12502500);
    Ok(())
}

// How many jobs go in before the queue is full, and the number of the first that comes out then.
fn fill<R: Wait>(rt: &R, desk: &Desk, giver: &mut Giver, taker: &mut Taker) -> (u32, u64)
    requires at { (giver.old.feed ≡ desk.now) × (taker.old.feed ≡ desk.now) }
    requires fresh { (giver.old.gave ≡ []) × Fits giver.old.setup (Get 1) }
    ensures same { (giver.new.feed ≡ giver.old.feed) × (giver.new.setup ≡ giver.old.setup) × (taker.new.feed ≡ taker.old.feed) }
{
    for i in 0..2000u32 {
        let n = u64::from(i) + 1;
        let job = Job::Ask {
            n,
            call: Call::Get { key: 1 },
        };
        match desk.give(rt, giver, job) {
            Ok(()) => {}
            Err(_) => {
                let first = match desk.take(rt, taker) {
                    Some(Job::Ask { n, call: _ }) => n,
                    _ => 0,
                };
                return (i, first);
            }
        }
    }
    (2000, 0)
}

#[test]
fn one_thread_fills_the_feed(rt: HostRuntime) -> Result<(), AllocError> {
    let mut feed = Feed::blank();
    let (mut giver, mut takers) = feed.start(rt.alloc(), &Config::default(), 1)?;
    let Some(mut taker) = takers.pop() else {
        unreachable!()
    };
    assert_eq!(rt; taker.number(), 0);
    assert!(rt; feed.take(&rt, &mut taker).is_none());
    assert_eq!(rt; fill(&rt, feed.desk(), &mut giver, &mut taker), (1024, 1));
    takers.push_reserved(taker);
    feed.gather(giver, takers);
    Ok(())
}

#[test]
fn a_feed_of_sixty_four_takers_is_gathered(rt: HostRuntime) -> Result<(), AllocError> {
    let mut feed = Feed::blank();
    let (mut giver, mut takers) = feed.start(rt.alloc(), &Config::default(), 64)?;
    assert!(rt; feed.give(&rt, &mut giver, Job::End).is_ok());
    let Some(mut last) = takers.pop() else {
        unreachable!()
    };
    assert_eq!(rt; (takers.len(), last.number()), (63, 63));
    assert!(rt; matches!(feed.take(&rt, &mut last), Some(Job::End)));
    takers.push_reserved(last);
    feed.gather(giver, takers);
    kept_at_each_moment();
    books_of_a_feed();
    Ok(())
}
