//! Turns on one lock, taken in some threads.
//!
//! The words are `act` or `leave`, how many threads there are, 1 to 1024, how many turns each of them takes, and how many
//! steps of work each turn makes. The steps mix a number under the lock. With `act` each turn also adds one to it and
//! records something, with `leave` none does. The number is told, which is the count of such turns where no step was made.

ghost use Rattle.std.specs.Prelude.{◌≡◌, ℕ, ◌<◌, ◌≤◌, false, vec_len, slice_index_or, IfOk};
ghost use Rattle.store_bench.specs.Passes.{IsIdle};

use crate::words::number;
use anyhow::{Result, bail, ensure};
use std::alloc::{AllocError, Global};
use std::sync::Wait;
use std::thread;
use std::thread::Threads;
use store_io::OpenGate;
use turn_lock::{Opener, Pass, Story, TurnLock, Visit};

/// Any number fits any turns, since nothing is said of it.
struct Counted;

impl Story<u64, (), ()> for Counted {
    ghost use Rattle.std.specs.Prelude.{refl};

    ghost fits = { λ _ _ _. Unit {0} };

    ghost shows = { λ _ _ _ _ _ _ _ _. refl };

    ghost any_key = { tt };
}

type CountLock = TurnLock<u64, (), (), Counted>;

type CountOpener = Opener<u64, (), ()>;

type CountPass = Pass<u64, (), ()>;

/// How the turns end.
#[derive(Clone, Copy)]
enum Part {
    Act,
    Leave,
}

/// What each turn does.
#[derive(Clone, Copy)]
struct Work {
    part: Part,
    /// How many steps it makes before it ends.
    steps: u32,
}

/// The number after so many steps, each of which waits for the one before.
fn mixed(number: u64, steps: u32) -> u64 {
    let mut number = number;
    for _ in 0..steps {
        number = (number ^ (number >> 7)).wrapping_mul(0x9e37_79b9_7f4a_7c15);
    }
    number
}

/// One turn.
fn take_turn<R: Wait>(rt: &R, lock: &CountLock, pass: &mut CountPass, work: Work, call: u32)
    requires { IsIdle lock.now pass.old }
    ensures { IsIdle lock.now pass.new }
{
    let visit = Visit {
        gate: &OpenGate,
        worker: 0,
        call,
    };
    let number = mixed(lock.enter(rt, pass, &visit), work.steps);
    match work.part {
        Part::Act => lock.act(pass, number.wrapping_add(1)),
        Part::Leave => lock.leave(pass, number),
    }
}

/// So many turns of one thread.
fn take_turns<R: Wait>(
    rt: &R,
    lock: &CountLock,
    mut pass: CountPass,
    work: Work,
    turns: u32,
) -> CountPass
    requires { IsIdle lock.now pass }
    ensures { IsIdle lock.now result }
{
    for call in 0..turns {
        take_turn(rt, lock, &mut pass, work, call);
    }
    pass
}

/// The turns of all passes, each in a thread of its own.
fn take_all<R: Threads + Wait + Sync>(
    rt: &R,
    lock: &CountLock,
    passes: Vec<CountPass>,
    work: Work,
    turns: u32,
) -> Result<Vec<CountPass>, AllocError>
    requires { (i : ℕ) (d : _) → i < vec_len passes → IsIdle lock.now (slice_index_or passes.items i d) }
    ensures len { IfOk result (λ after. vec_len after ≡ vec_len passes) }
    ensures each { IfOk result (λ after. (i : ℕ) (d : _) → i < vec_len passes → IsIdle lock.now (slice_index_or after.items i d)) }
{
    thread::map_vec(
        rt,
        passes,
        &|pass| -> CountPass
            requires { IsIdle lock.now pass }
            ensures { IsIdle lock.entry.now result }
        { take_turns(rt, lock, pass, work, turns) },
    )
}

/// So many passes.
fn split_all(
    alloc: Global,
    lock: &CountLock,
    opener: &mut CountOpener,
    threads: u32,
) -> Result<Vec<CountPass>, AllocError>
    requires few { threads ≤ 1024 }
    requires lock { opener.old.lock ≡ lock.now }
    requires none { opener.old.out ≡ 0 }
    ensures lock { opener.new.lock ≡ lock.now }
    ensures out { IfOk result (λ _. opener.new.out ≡ threads) }
    ensures len { IfOk result (λ passes. vec_len passes ≡ threads) }
    ensures each { IfOk result (λ passes. (i : ℕ) (d : _) → i < vec_len passes → IsIdle lock.now (slice_index_or passes.items i d)) }
{
    let mut passes = Vec::new(alloc);
    for _ in 0..threads {
        passes.push(lock.split(opener))?;
    }
    Ok(passes)
}

/// Takes all passes back.
fn join_all(lock: &CountLock, opener: &mut CountOpener, passes: Vec<CountPass>)
    requires lock { opener.old.lock ≡ lock.now }
    requires out { opener.old.out ≡ vec_len passes }
    requires each { (i : ℕ) (d : _) → i < vec_len passes → IsIdle lock.now (slice_index_or passes.items i d) }
    ensures lock { opener.new.lock ≡ lock.now }
    ensures none { opener.new.out ≡ 0 }
{
    for pass in passes {
        lock.join(opener, pass);
    }
}

/// The number after the turns of so many threads.
fn count_turns<R: Threads + Wait + Sync>(
    rt: &R,
    alloc: Global,
    work: Work,
    threads: u32,
    turns: u32,
) -> Result<u64>
    requires { threads ≤ 1024 }
{
    let (lock, mut opener) = CountLock::create(alloc, 0, &())?;
    let passes = split_all(alloc, &lock, &mut opener, threads)?;
    let passes = take_all(rt, &lock, passes, work, turns)?;
    join_all(&lock, &mut opener, passes);
    Ok(lock.close(opener))
}

/// The number after the turns of the words.
pub fn measure<R: Threads + Wait + Sync>(rt: &R, alloc: Global, words: &[String]) -> Result<u64> {
    let [part, threads, turns, steps] = words else {
        bail!("the words are a part, and numbers of threads, turns and steps");
    };
    let part = match part.as_str() {
        "act" => Part::Act,
        "leave" => Part::Leave,
        _ => bail!("no part: {part}"),
    };
    let threads = number(threads.as_str())?;
    let turns = number(turns.as_str())?;
    let steps = number(steps.as_str())?;
    ensure!((1..=1024).contains(&threads), "threads are 1 to 1024");
    count_turns(rt, alloc, Work { part, steps }, threads, turns)
}
