//! What no clause says of a lock: that turns come, in threads too, how often the gate is passed and with which numbers, and that
//! who is inside is alone. The value under the lock is a sum, and a turn records what it adds.

ghost use Rattle.std.specs.Prelude.{◌≡◌, false};
ghost use Rattle.turn_lock.specs.Turns.{LockState, PassState};

use op_base::NoMemory;
use std::sync::Wait;
use std::sync::atomic::{AtomicU64, Ordering};
use std::test::Fail;
use std::thread;
use store_io::Gate;
use turn_lock::{Opener, Pass, Story, TurnLock, Visit};

/// The sum is that of what the turns added.
struct Sums;

impl Story<u64, u64, ()> for Sums {
    ghost use Rattle.std.specs.Prelude.{◌≡◌, ◌∷◌, [], sum_by};
    ghost use Rattle.std.proofs.Common.{arith};
    ghost use Rattle.std.proofs.lemmas.List.Sums.{sum_by-append};
    ghost use Rattle.turn_lock.specs.Turns.{turn};

    ghost fits = { λ _ turns x. x ≡ sum_by (λ t. t.what) turns };

    ghost shows = { λ key turns by a b x p q. Prim.omega (arith, p, q, sum_by-append (λ t. t.what) turns (turn by a ∷ []), sum_by-append (λ t. t.what) turns (turn by b ∷ [])) };

    ghost any_key = { tt };
}

type SumLock = TurnLock<u64, u64, (), Sums>;

type SumPass = Pass<u64, u64, ()>;

/// A turn that adds where the sum has room, and else records nothing. The sum then.
fn add<R: Wait, G: Gate>(
    rt: &R,
    lock: &SumLock,
    pass: &mut SumPass,
    visit: &Visit<'_, G>,
    x: u64,
) -> u64
    requires lock { pass.old.lock ≡ lock.now }
    requires idle { pass.old.in_turn ≡ false }
    ensures lock { pass.new.lock ≡ lock.now }
    ensures idle { pass.new.in_turn ≡ false }
{
    let sum = lock.enter(rt, pass, visit);
    match sum.checked_add(x) {
        Some(more) => {
            lock.act(pass, more);
            more
        }
        None => {
            lock.leave(pass, sum);
            sum
        }
    }
}

fn crosses<T: Send>(_value: &T) {}

fn is_shared<T: Sync>(_value: &T) {}

/// A lock, its opener and its passes cross threads wherever the value does.
fn cross<X: Send, E, K, P: Story<X, E, K>>(
    lock: &TurnLock<X, E, K, P>,
    opener: &Opener<X, E, K>,
    pass: &Pass<X, E, K>,
) {
    crosses(lock);
    is_shared(lock);
    crosses(opener);
    crosses(pass);
}

/// A gate that counts the calls that pass it, and adds up their numbers.
#[derive(Drop)]
struct CountingGate {
    before: AtomicU64,
    inside: AtomicU64,
}

impl Gate for CountingGate {
    fn before(&self, worker: u32, call: u32) {
        self.before
            .fetch_add(number_of(worker, call), Ordering::SeqCst);
    }

    fn inside(&self, worker: u32, call: u32) {
        self.inside
            .fetch_add(number_of(worker, call), Ordering::SeqCst);
    }
}

/// One number of a worker below 10 and a call below 10.
fn number_of(worker: u32, call: u32) -> u64 {
    1000 + u64::from(worker) * 10 + u64::from(call)
}

#[test]
fn one_thread_has_two_passes_and_makes_each_call(rt: HostRuntime) -> Result<(), Fail> {
    let gate = CountingGate {
        before: AtomicU64::new(0),
        inside: AtomicU64::new(0),
    };
    let (lock, mut opener) = SumLock::create(rt.alloc(), 0, &())?;
    let mut first = lock.split(&mut opener);
    let mut second = lock.split(&mut opener);
    cross(&lock, &opener, &first);
    let visit = Visit {
        gate: &gate,
        worker: 1,
        call: 3,
    };
    assert_eq!(rt; add(&rt, &lock, &mut first, &visit, 5), 5);
    let visit = Visit {
        gate: &gate,
        worker: 2,
        call: 4,
    };
    assert_eq!(rt; add(&rt, &lock, &mut second, &visit, u64::MAX), 5);
    assert_eq!(rt; add(&rt, &lock, &mut second, &visit, 2), 7);
    lock.join(&mut opener, first);
    lock.join(&mut opener, second);
    assert_eq!(rt; lock.close(opener), 7);
    assert_eq!(rt; gate.before.into_inner(), 3061);
    assert_eq!(rt; gate.inside.into_inner(), 3061);
    Ok(())
}

/// How many turns each of two workers takes.
const ROUNDS: u64 = 5;

/// How often a worker has asked for a turn, had one, and come to its end.
#[derive(Drop)]
struct Progress {
    asked: AtomicU64,
    had: AtomicU64,
    ended: AtomicU64,
}

impl Progress {
    fn none() -> Progress {
        Progress {
            asked: AtomicU64::new(0),
            had: AtomicU64::new(0),
            ended: AtomicU64::new(0),
        }
    }

    /// It has asked for a turn that it hasn't had.
    fn is_asking(&self) -> bool {
        self.had.load(Ordering::SeqCst) < self.asked.load(Ordering::SeqCst)
    }

    fn is_inside(&self) -> bool {
        self.ended.load(Ordering::SeqCst) < self.had.load(Ordering::SeqCst)
    }

    fn is_done(&self) -> bool {
        self.ended.load(Ordering::SeqCst) >= ROUNDS
    }
}

/// A gate of two workers, 0 and 1. It keeps who is inside until the other one asks, and then for a while, in
/// which that one must not come inside.
#[derive(Drop)]
struct WatchingGate {
    first: Progress,
    second: Progress,
    /// How often both were inside.
    met: AtomicU64,
    /// How often the other one never asked.
    given_up: AtomicU64,
}

impl WatchingGate {
    fn new() -> WatchingGate {
        WatchingGate {
            first: Progress::none(),
            second: Progress::none(),
            met: AtomicU64::new(0),
            given_up: AtomicU64::new(0),
        }
    }

    fn progress_of(&self, worker: u32) -> &Progress {
        if worker == 0 {
            &self.first
        } else {
            &self.second
        }
    }

    /// Waits until that worker has something to do with the lock, or is done with it.
    fn wait_for(&self, other: &Progress) {
        for _ in 0..10_000_000 {
            if other.is_asking() || other.is_inside() || other.is_done() {
                return;
            }
            thread::yield_now();
        }
        self.given_up.fetch_add(1, Ordering::SeqCst);
    }

    /// Looks for a while whether that worker comes inside.
    fn watch(&self, other: &Progress) {
        for _ in 0..20 {
            if other.is_inside() {
                self.met.fetch_add(1, Ordering::SeqCst);
                return;
            }
            thread::yield_now();
        }
    }
}

impl Gate for WatchingGate {
    fn before(&self, worker: u32, _call: u32) {
        self.progress_of(worker)
            .asked
            .fetch_add(1, Ordering::SeqCst);
    }

    fn inside(&self, worker: u32, _call: u32) {
        self.progress_of(worker).had.fetch_add(1, Ordering::SeqCst);
        let other = self.progress_of(1 - worker.min(1));
        self.wait_for(other);
        self.watch(other);
    }
}

/// The turns of one worker, which record nothing. The end of each is told before it comes.
fn take_watched<R: Wait>(
    rt: &R,
    lock: &SumLock,
    mut pass: SumPass,
    gate: &WatchingGate,
    worker: u32,
) -> SumPass
    requires lock { pass.lock ≡ lock.now }
    requires idle { pass.in_turn ≡ false }
    ensures lock { result.lock ≡ lock.now }
    ensures idle { result.in_turn ≡ false }
{
    for _ in 0..ROUNDS {
        let visit = Visit {
            gate,
            worker,
            call: 0,
        };
        let sum = lock.enter(rt, &mut pass, &visit);
        gate.progress_of(worker)
            .ended
            .fetch_add(1, Ordering::SeqCst);
        lock.leave(&mut pass, sum);
    }
    pass
}

#[test]
fn while_one_pass_is_inside_the_other_waits_and_then_has_its_turn(
    rt: HostRuntime,
) -> Result<(), Fail> {
    let gate = WatchingGate::new();
    let (lock, mut opener) = SumLock::create(rt.alloc(), 0, &())?;
    let first = lock.split(&mut opener);
    let second = lock.split(&mut opener);
    let (first, second) = thread::join(
        &rt,
        || take_watched(&rt, &lock, first, &gate, 0),
        || take_watched(&rt, &lock, second, &gate, 1),
    );
    lock.join(&mut opener, first);
    lock.join(&mut opener, second);
    assert_eq!(rt; lock.close(opener), 0);
    assert_eq!(rt; gate.met.load(Ordering::SeqCst), 0);
    assert_eq!(rt; gate.given_up.load(Ordering::SeqCst), 0);
    assert!(rt; gate.first.is_done());
    assert!(rt; gate.second.is_done());
    Ok(())
}
