ghost use Rattle.std.specs.Prelude.{◌≡◌, ◌<◌, ◌≤◌};
ghost use Rattle.turn_lock.specs.Passes.{lock_id, pass_lock, pass_parts};

use crate::{Grows, Pass, TurnLock};
use std::alloc::Global;
use std::sync::Wait;
use std::test::Fail;
use std::thread;
use std::thread::Threads;

#[derive(Drop)]
struct Log {
    numbers: Vec<u32>,
}

impl Grows for Log {
    type Item = u32;

    ghost list = { λ log. log.numbers.items };
}

// Adds 100 numbers from `first` on, each in a turn of its own.
fn add_numbers<R: Wait>(rt: &R, lock: &TurnLock<Log>, mut pass: Pass<Log>, first: u32) -> Pass<Log>
    requires { pass_lock pass ≡ lock_id lock.now }
    ensures lock { pass_lock result ≡ pass_lock pass }
    ensures parts { pass_parts result ≡ pass_parts pass }
{
    for i in 0..100 {
        let mut held = lock.turn(rt, pass);
        let _ = held.value.numbers.push(first.wrapping_add(i));
        pass = lock.give(held);
    }
    pass
}

// The same with two passes, each in a thread of its own.
fn add_in_two_threads<R: Threads + Wait + Sync>(
    rt: &R,
    lock: &TurnLock<Log>,
    one: Pass<Log>,
    two: Pass<Log>,
    first: u32,
) -> (Pass<Log>, Pass<Log>)
    requires one { pass_lock one ≡ lock_id lock.now }
    requires two { pass_lock two ≡ lock_id lock.now }
    ensures one { (pass_lock result.0 ≡ pass_lock one) × (pass_parts result.0 ≡ pass_parts one) }
    ensures two { (pass_lock result.1 ≡ pass_lock two) × (pass_parts result.1 ≡ pass_parts two) }
{
    thread::join(
        rt,
        || -> Pass<Log>
            requires { pass_lock one ≡ lock_id lock.now }
            ensures { (pass_lock result ≡ pass_lock one) × (pass_parts result ≡ pass_parts one) }
        { add_numbers(rt, lock, one, first) },
        || -> Pass<Log>
            requires { pass_lock two ≡ lock_id lock.now }
            ensures { (pass_lock result ≡ pass_lock two) × (pass_parts result ≡ pass_parts two) }
        { add_numbers(rt, lock, two, first.wrapping_add(1000)) },
    )
}

// The same with one pass, of which a part is split off for the other thread, and joined again.
fn add_with_a_part<R: Threads + Wait + Sync>(
    rt: &R,
    lock: &TurnLock<Log>,
    mut pass: Pass<Log>,
    first: u32,
) -> Pass<Log>
    requires lock { pass_lock pass ≡ lock_id lock.now }
    requires parts { 2 ≤ pass_parts pass }
    ensures lock { pass_lock result ≡ pass_lock pass }
    ensures parts { pass_parts result ≡ pass_parts pass }
{
    let part = lock.split(&mut pass);
    let (mut pass, part) = add_in_two_threads(rt, lock, pass, part, first);
    lock.join(&mut pass, part);
    pass
}

// Closes a lock with the passes as they came.
fn open_and_close(alloc: Global, log: Log, seats: usize) -> Log
    requires { 0 < seats }
{
    match TurnLock::new(alloc, log, seats) {
        Ok((lock, passes)) => lock.close(passes),
        Err(log) => log,
    }
}

// Whether the numbers are those of so many threads, 100 each, and each thread's are in its order.
fn are_in_order(numbers: &[u32], threads: usize) -> bool {
    let mut next = [0, 1000, 2000, 3000, 4000];
    for &number in numbers {
        let thread = (number / 1000) as usize;
        if thread >= 5 || next[thread] != number {
            return false;
        }
        next[thread] = next[thread].wrapping_add(1);
    }
    let last = [100, 1100, 2100, 3100, 4100];
    numbers.len() / 100 == threads && (0..5).all(|i| i >= threads || next[i] == last[i])
}

#[test]
fn new_passes_close_a_lock(rt: HostRuntime) -> Result<(), Fail> {
    let alloc = rt.alloc();
    for seats in 1..10 {
        let mut numbers = Vec::new(alloc);
        numbers.push(7)?;
        let log = open_and_close(alloc, Log { numbers }, seats);
        assert!(rt; log.numbers.as_slice() == [7].as_slice());
    }
    Ok(())
}

#[test]
fn four_threads_add_and_close(rt: HostRuntime) -> Result<(), Fail> {
    let alloc = rt.alloc();
    let log = Log {
        numbers: Vec::new(alloc),
    };
    let Ok((lock, mut passes)) = TurnLock::new(alloc, log, 4) else {
        panic!(rt; "no memory")
    };
    let one = passes.pop().unwrap();
    let two = passes.pop().unwrap();
    let three = passes.pop().unwrap();
    let four = passes.pop().unwrap();
    let (low, high) = thread::join(
        &rt,
        || -> (Pass<Log>, Pass<Log>)
            requires { (pass_lock one ≡ lock_id lock) × (pass_lock two ≡ lock_id lock) }
            ensures one { (pass_lock result.0 ≡ pass_lock one) × (pass_parts result.0 ≡ pass_parts one) }
            ensures two { (pass_lock result.1 ≡ pass_lock two) × (pass_parts result.1 ≡ pass_parts two) }
        { add_in_two_threads(&rt, &lock, one, two, 0) },
        || -> (Pass<Log>, Pass<Log>)
            requires { (pass_lock three ≡ lock_id lock) × (pass_lock four ≡ lock_id lock) }
            ensures three { (pass_lock result.0 ≡ pass_lock three) × (pass_parts result.0 ≡ pass_parts three) }
            ensures four { (pass_lock result.1 ≡ pass_lock four) × (pass_parts result.1 ≡ pass_parts four) }
        { add_in_two_threads(&rt, &lock, three, four, 2000) },
    );
    passes.push_reserved(low.0);
    passes.push_reserved(low.1);
    passes.push_reserved(high.0);
    passes.push_reserved(high.1);
    let log = lock.close(passes);
    assert!(rt; are_in_order(log.numbers.as_slice(), 4));
    Ok(())
}

#[test]
fn a_pass_is_told_what_another_has_seen(rt: HostRuntime) -> Result<(), Fail> {
    let alloc = rt.alloc();
    let log = Log {
        numbers: Vec::new(alloc),
    };
    let Ok((lock, mut passes)) = TurnLock::new(alloc, log, 2) else {
        panic!(rt; "no memory")
    };
    let one = passes.pop().unwrap();
    let mut two = add_numbers(&rt, &lock, passes.pop().unwrap(), 0);
    let seen = lock.split_seen(&mut two);
    let mut one = add_numbers(&rt, &lock, one, 1000);
    lock.join_seen(&mut one, seen);
    let held = lock.turn(&rt, one);
    assert!(rt; are_in_order(held.value.numbers.as_slice(), 2));
    passes.push_reserved(lock.give(held));
    passes.push_reserved(two);
    let log = lock.close(passes);
    assert!(rt; are_in_order(log.numbers.as_slice(), 2));
    Ok(())
}

#[test]
fn passes_are_joined_and_split_for_other_threads(rt: HostRuntime) -> Result<(), Fail> {
    let alloc = rt.alloc();
    let log = Log {
        numbers: Vec::new(alloc),
    };
    let Ok((lock, mut passes)) = TurnLock::new(alloc, log, 3) else {
        panic!(rt; "no memory")
    };
    let mut one = passes.pop().unwrap();
    lock.join(&mut one, passes.pop().unwrap());
    let two = passes.pop().unwrap();
    let (mut all, two) = thread::join(
        &rt,
        || -> Pass<Log>
            requires { (pass_lock one ≡ lock_id lock) × (pass_parts one ≡ 2) }
            ensures { (pass_lock result ≡ pass_lock one) × (pass_parts result ≡ pass_parts one) }
        { add_with_a_part(&rt, &lock, one, 0) },
        || -> Pass<Log>
            requires { pass_lock two ≡ lock_id lock }
            ensures { (pass_lock result ≡ pass_lock two) × (pass_parts result ≡ pass_parts two) }
        { add_numbers(&rt, &lock, two, 2000) },
    );
    lock.join(&mut all, two);
    let held = lock.turn(&rt, all);
    assert!(rt; are_in_order(held.value.numbers.as_slice(), 3));
    let all = add_with_a_part(&rt, &lock, lock.give(held), 3000);
    passes.push_reserved(all);
    let log = lock.close(passes);
    assert!(rt; are_in_order(log.numbers.as_slice(), 5));
    Ok(())
}
