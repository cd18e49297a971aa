//! Live runs over memory: texts that one client makes fixed, faults of source and sink, and workers that a gate holds.

use crate::run::{MOST_INPUT, Status};
use crate::tests::{Streams, WHOLE, outcome_at, padded};
use std::alloc::AllocError;
use std::sync::Wait;
use std::sync::atomic::{AtomicU64, Ordering};
use std::test::Fail;
use std::thread;
use std::thread::Threads;
use store_io::{Gate, OpenGate};

const WORDS: [&str; 2] = ["store_program", "live"];

const FIRST: &[u8] = b"live 1 1 1 0 0\n0: do counter:a inc 5\n0: ask counter:a\n";

const FIRST_TEXT: &[u8] =
    b"reply 0 1 1 ok 1\nreply 0 2 1 = 5\nsettled\njournal 0 1\nsent 0200010f000000000000000100016100000005\nfinal 0 counter:a = 5\n";

/// Whether a live input ends with a status, and a text begins so.
fn gives<R: Threads + Wait + Sync + AllocGlobal>(
    rt: &R,
    input: &[u8],
    status: Status,
    text: &[u8],
) -> Result<bool, AllocError> {
    let (found, written) = outcome_at(rt, &WORDS, input, WHOLE, &OpenGate)?;
    Ok(found == status && written.as_slice().starts_with(text))
}

#[test]
fn one_client_has_one_text(rt: HostRuntime) -> Result<(), Fail> {
    assert!(rt; gives(&rt, FIRST, Status::Fine, FIRST_TEXT)?);
    // Lines that are no commands, by their numbers among all lines.
    let bad =
        b"\nlive 1 4 2 10 0\nfrob\n0:\n# none\n2: ask counter:a\n0: ask counter:A\n0: do counter:a inc x";
    let told =
        b"bad line 3 2\nbad line 4 3\nbad line 6 4\nbad line 7 5\nbad line 8 8\nsettled\njournal 0 0\n";
    assert!(rt; gives(&rt, bad, Status::Fine, told)?);
    // The window is full, and no call is made again.
    let full = b"live 2 1 1 0 0\n0: do counter:a inc 5\n0: do counter:a inc 5\n";
    let busy = b"reply 0 1 1 ok 1\nreply 0 2 1 busy\nsettled\njournal 0 ";
    assert!(rt; gives(&rt, full, Status::Fine, busy)?);
    Ok(())
}

#[test]
fn a_live_input_has_a_header_and_at_most_4194304_bytes(rt: HostRuntime) -> Result<(), Fail> {
    let (status, written) = outcome_at(&rt, &WORDS, b"store 1 1\n", WHOLE, &OpenGate)?;
    assert_eq!(rt; status, Status::BadHeader);
    assert!(rt; written.is_empty());
    let most = padded(rt.alloc(), b"live 1 1 1 0 0\n", MOST_INPUT, b"")?;
    assert!(rt;
        gives(
            &rt,
            most.as_slice(),
            Status::Fine,
            b"settled\njournal 0 0\n"
        )?
    );
    let more = padded(rt.alloc(), b"live 1 1 1 0 0\n", MOST_INPUT, b"\n")?;
    let (status, written) = outcome_at(&rt, &WORDS, more.as_slice(), WHOLE, &OpenGate)?;
    assert_eq!(rt; status, Status::TooLong);
    assert!(rt; written.is_empty());
    Ok(())
}

#[test]
fn each_read_of_a_live_input_can_fail(rt: HostRuntime) -> Result<(), Fail> {
    // Pieces of 16 bytes: the fifth read is the one behind the last byte.
    for call in 1u32..6 {
        let failing = [call];
        let streams = Streams {
            read: 16,
            failing_reads: failing.as_slice(),
            write: 65536,
            failing_writes: &[],
        };
        let (status, written) = outcome_at(&rt, &WORDS, FIRST, streams, &OpenGate)?;
        assert_eq!(rt; status, Status::ReadFault, "at read {call}");
        assert!(rt; written.is_empty());
    }
    // A whole first line that is no header is told before a fault that comes after it.
    let streams = Streams {
        read: 5,
        failing_reads: &[3],
        write: 65536,
        failing_writes: &[],
    };
    let (status, _) = outcome_at(&rt, &WORDS, b"frob\nlive 1 1 1 0 0\n", streams, &OpenGate)?;
    assert_eq!(rt; status, Status::BadHeader);
    Ok(())
}

#[test]
fn each_write_of_a_live_text_can_fail(rt: HostRuntime) -> Result<(), Fail> {
    let mut before = 0;
    for call in 1u32..1000 {
        if before >= FIRST_TEXT.len() {
            break;
        }
        let failing = [call];
        let streams = Streams {
            read: 7,
            failing_reads: &[],
            write: 7,
            failing_writes: failing.as_slice(),
        };
        let (status, written) = outcome_at(&rt, &WORDS, FIRST, streams, &OpenGate)?;
        assert_eq!(rt; status, Status::WriteFault, "at write {call}");
        assert_eq!(rt;
            written.as_slice(),
            &FIRST_TEXT[..before],
            "at write {call}"
        );
        before += 7;
    }
    Ok(())
}

/// A worker, and a call of it.
#[derive(Clone, Copy, PartialEq, Eq)]
struct Point {
    worker: u32,
    call: u32,
}

/// Who is held where, until who comes to where. Its bit tells that this has come.
#[derive(Clone, Copy)]
struct Hold {
    at: Point,
    until: Point,
    bit: u64,
}

/// A gate that holds workers before their calls or inside them. A hold that lasts too long gives up, and is counted.
#[derive(Drop)]
struct HoldingGate<'a> {
    inside: bool,
    holds: &'a [Hold],
    came: AtomicU64,
    given_up: AtomicU64,
}

impl<'a> HoldingGate<'a> {
    fn new(inside: bool, holds: &'a [Hold]) -> HoldingGate<'a> {
        HoldingGate {
            inside,
            holds,
            came: AtomicU64::new(0),
            given_up: AtomicU64::new(0),
        }
    }

    /// A worker comes to a call.
    fn pass(&self, worker: u32, call: u32) {
        let here = Point { worker, call };
        for hold in self.holds {
            if hold.until == here {
                self.came.fetch_or(hold.bit, Ordering::SeqCst);
            }
        }
        for hold in self.holds {
            if hold.at == here {
                self.hold(hold.bit);
            }
        }
    }

    /// Holds the worker until the bit has come.
    fn hold(&self, bit: u64) {
        for _ in 0..10_000_000 {
            if self.came.load(Ordering::SeqCst) & bit != 0 {
                return;
            }
            thread::yield_now();
        }
        self.given_up.fetch_add(1, Ordering::SeqCst);
    }
}

impl Gate for HoldingGate<'_> {
    fn before(&self, worker: u32, call: u32) {
        if !self.inside {
            self.pass(worker, call);
        }
    }

    fn inside(&self, worker: u32, call: u32) {
        if self.inside {
            self.pass(worker, call);
        }
    }
}

/// Holds the one worker at its call until the other comes to its own.
fn hold_at(at: (u32, u32), until: (u32, u32), bit: u64) -> Hold {
    Hold {
        at: Point {
            worker: at.0,
            call: at.1,
        },
        until: Point {
            worker: until.0,
            call: until.1,
        },
        bit,
    }
}

/// Runs a live input at a gate that holds workers, and gives the status, how many gave up, and what was written.
fn held<R: Threads + Wait + Sync + AllocGlobal>(
    rt: &R,
    input: &[u8],
    gate: &HoldingGate<'_>,
) -> Result<(Status, u64, Vec<u8>), AllocError> {
    let (status, written) = outcome_at(rt, &WORDS, input, WHOLE, gate)?;
    Ok((status, gate.given_up.load(Ordering::SeqCst), written))
}

/// Three clients fill a list, and look at it, 25 times each.
fn shopping<R: AllocGlobal>(rt: &R) -> Result<String, AllocError> {
    let mut input = String::from_str(rt.alloc(), "live 3 4 3 1000 7\n")?;
    for i in 1..26 {
        for c in 0..3 {
            let lines = format!(in rt.alloc();
                "{c}: do awset:list add {c}.{i}\n{c}: ask awset:list\n"
            )?;
            input.push_str(lines.as_str())?;
        }
    }
    Ok(input)
}

#[test]
fn two_clients_are_inside_their_calls_at_once(rt: HostRuntime) -> Result<(), Fail> {
    let holds = [hold_at((0, 1), (1, 1), 1), hold_at((1, 1), (0, 1), 2)];
    let gate = HoldingGate::new(true, holds.as_slice());
    let (status, given_up, written) = held(&rt, shopping(&rt)?.as_bytes(), &gate)?;
    assert_eq!(rt; status, Status::Fine);
    assert_eq!(rt; given_up, 0);
    assert!(rt; written.as_slice().starts_with(b"reply 0 1 "));
    Ok(())
}

#[test]
fn a_letter_comes_while_clients_work(rt: HostRuntime) -> Result<(), Fail> {
    let input = b"live 2 4 2 3 0\n0: do counter:a inc 5\n0: ask counter:a\n1: ask counter:a\n";
    // Client 0 sends; then its courier posts; then the other courier takes; and then client 1 asks.
    let holds = [
        hold_at((2, 0), (0, 1), 1),
        hold_at((3, 0), (2, 2), 2),
        hold_at((1, 0), (3, 6), 4),
    ];
    let gate = HoldingGate::new(false, holds.as_slice());
    let (status, given_up, written) = held(&rt, input, &gate)?;
    assert_eq!(rt; status, Status::Fine);
    assert_eq!(rt; given_up, 0);
    let answered = written.as_slice().split(|b| *b == b'\n').any(|line| line.starts_with(
        b"reply 1 1 ",
    ) && line.ends_with(b" = 5"));
    assert!(rt; answered);
    Ok(())
}

#[test]
fn a_client_makes_its_call_again(rt: HostRuntime) -> Result<(), Fail> {
    let input = b"live 2 1 1 3 0\n0: do counter:a inc 1\n0: do counter:a inc 1\n";
    // Both couriers are held until the client has been told busy, and comes again.
    let holds = [hold_at((1, 0), (0, 2), 1), hold_at((2, 0), (0, 2), 2)];
    let gate = HoldingGate::new(false, holds.as_slice());
    let (status, given_up, written) = held(&rt, input, &gate)?;
    assert_eq!(rt; status, Status::Fine);
    assert_eq!(rt; given_up, 0);
    assert!(rt;
        written
            .as_slice()
            .starts_with(b"reply 0 1 1 ok 1\nreply 0 2 ")
    );
    Ok(())
}
