//! Runs over memory: where there is memory, each mode answers; faults of source and sink, and inputs at their limits.

ghost use Rattle.std.specs.Prelude.{◌≤◌};

use crate::run::{MOST_INPUT, Status, run};
use std::alloc::{AllocError, Global};
use std::sync::Wait;
use std::test::Fail;
use std::thread::Threads;
use store_io::{Gate, MemorySink, MemorySource, OpenGate};

const SCRIPT: [&str; 2] = ["store_program", "script"];

const FIRST: &[u8] = b"store 1 1\ndo 0 counter:a inc 5\nask 0 counter:a\n";

/// A source and a sink: how many bytes a call of each moves at most, and which calls of each fail.
#[derive(Clone, Copy)]
pub struct Streams<'a> {
    pub read: usize,
    pub failing_reads: &'a [u32],
    pub write: usize,
    pub failing_writes: &'a [u32],
    ghost read_some: { 1 ≤ read },
    ghost write_some: { 1 ≤ write },
}

pub const WHOLE: Streams<'static> = Streams {
    read: 65536,
    failing_reads: &[],
    write: 65536,
    failing_writes: &[],
};

/// Streams of which each call moves so many bytes at most, and these calls fail.
fn pieces<'a>(
    read: usize,
    failing_reads: &'a [u32],
    write: usize,
    failing_writes: &'a [u32],
) -> Streams<'a>
    requires read_some { 1 ≤ read }
    requires write_some { 1 ≤ write }
{
    Streams {
        read,
        failing_reads,
        write,
        failing_writes,
    }
}

/// Whether a run of words over an input ends with a status, and has written a text.
fn gives<R: Threads + Wait + Sync + AllocGlobal>(
    rt: &R,
    words: &[&str],
    input: &[u8],
    streams: Streams<'_>,
    status: Status,
    text: &[u8],
) -> Result<bool, AllocError> {
    let (found, written) = outcome_at(rt, words, input, streams, &OpenGate)?;
    Ok(found == status && written.as_slice() == text)
}

/// The same of a script.
fn replies<R: Threads + Wait + Sync + AllocGlobal>(
    rt: &R,
    script: &[u8],
    streams: Streams<'_>,
    status: Status,
    text: &[u8],
) -> Result<bool, AllocError> {
    gives(rt, &SCRIPT, script, streams, status, text)
}

/// Runs words over an input at a gate, and gives the status and what was written.
pub fn outcome_at<R: Threads + Wait + Sync + AllocGlobal, G: Gate + Sync>(
    rt: &R,
    words: &[&str],
    input: &[u8],
    streams: Streams<'_>,
    gate: &G,
) -> Result<(Status, Vec<u8>), AllocError> {
    let alloc = rt.alloc();
    let mut texts = Vec::new(alloc);
    for word in words {
        texts.push(String::from_str(alloc, word)?)?;
    }
    let mut source = MemorySource::new(
        Vec::from_slice(alloc, input)?,
        streams.read,
        Vec::from_slice(alloc, streams.failing_reads)?,
    );
    let Ok(mut sink) = MemorySink::create(
        alloc,
        65536,
        streams.write,
        Vec::from_slice(alloc, streams.failing_writes)?,
    ) else {
        return Err(AllocError);
    };
    let status = run(rt, alloc, texts.as_slice(), &mut source, &mut sink, gate);
    Ok((status, Vec::from_slice(alloc, sink.bytes())?))
}

#[test]
fn a_script_gives_its_transcript(rt: HostRuntime) -> Result<(), Fail> {
    assert!(rt; replies(&rt, FIRST, WHOLE, Status::Fine, b"ok 1\n= 5\n")?);
    // Blanks, tabs, carriage returns, comments, no newline at the end, leading zeros.
    let blanks =
        b" \t# first\r\n  store\t01  0001 \r\n\tdo  0\tcounter:a inc 0000000007 \r\n#ask 0 counter:a\n   \n ask 00 counter:a\r";
    assert!(rt; replies(&rt, blanks, WHOLE, Status::Fine, b"ok 1\n= 7\n")?);
    let headless = b"do 0 counter:a inc 5\nstore 1 1\n";
    assert!(rt; replies(&rt, headless, WHOLE, Status::BadHeader, b"")?);
    Ok(())
}

#[test]
fn words_have_numbers_in_their_ranges(rt: HostRuntime) -> Result<(), Fail> {
    let most = ["store_program", "script", "--members", "16"];
    assert!(rt; gives(&rt, &most, FIRST, WHOLE, Status::Fine, b"ok 1\n= 5\n")?);
    let more = ["store_program", "script", "--members", "17"];
    assert!(rt; gives(&rt, &more, FIRST, WHOLE, Status::BadWords, b"")?);
    Ok(())
}

const MADE: [&str; 10] = [
    "store",
    "make",
    "--seed",
    "1",
    "--count",
    "3",
    "--members",
    "2",
    "--window",
    "2",
];

const MADE_SUMMARY: &[u8] =
    b"lines 18\n= 14\nnone 1\nok 1\nsettled 1\ntook 1\nawset:k0 =\nawset:k1 =\nrwset:k0 = v11\nrwset:k1 =\newflag:k0 = off\newflag:k1 = off\ndwflag:k0 = off\ndwflag:k1 = off\nmvreg:k0 =\nmvreg:k1 =\ncounter:k0 = 0\ncounter:k1 = 0\nrcounter:k0 = 0\nrcounter:k1 = 0\n";

#[test]
fn a_made_script_is_summed_up(rt: HostRuntime) -> Result<(), Fail> {
    // A source that fails is never asked.
    assert!(rt;
        gives(
            &rt,
            &MADE,
            FIRST,
            pieces(1, &[1], 7, &[]),
            Status::Fine,
            MADE_SUMMARY
        )?
    );
    assert!(rt;
        gives(
            &rt,
            &MADE,
            FIRST,
            pieces(1, &[1], 7, &[3]),
            Status::WriteFault,
            b"lines 18\n= 14\n"
        )?
    );
    assert!(rt;
        gives(
            &rt,
            &MADE,
            FIRST,
            pieces(1, &[1], 65536, &[1]),
            Status::WriteFault,
            b""
        )?
    );
    Ok(())
}

#[test]
fn pieces_change_nothing_and_faults_are_told(rt: HostRuntime) -> Result<(), Fail> {
    assert!(rt;
        replies(
            &rt,
            FIRST,
            pieces(1, &[], 1, &[]),
            Status::Fine,
            b"ok 1\n= 5\n"
        )?
    );
    assert!(rt;
        replies(
            &rt,
            FIRST,
            pieces(47, &[], 2, &[]),
            Status::Fine,
            b"ok 1\n= 5\n"
        )?
    );
    // What had come whole is answered before the read that fails.
    assert!(rt;
        replies(
            &rt,
            FIRST,
            pieces(40, &[2], 65536, &[]),
            Status::ReadFault,
            b"ok 1\n"
        )?
    );
    // A fault is told even where it is the read behind the last byte.
    assert!(rt;
        replies(
            &rt,
            FIRST,
            pieces(47, &[2], 65536, &[]),
            Status::ReadFault,
            b"ok 1\n= 5\n"
        )?
    );
    assert!(rt;
        replies(
            &rt,
            FIRST,
            pieces(40, &[], 65536, &[2]),
            Status::WriteFault,
            b"ok 1\n"
        )?
    );
    assert!(rt;
        replies(
            &rt,
            FIRST,
            pieces(65536, &[], 2, &[3]),
            Status::WriteFault,
            b"ok 1"
        )?
    );
    Ok(())
}

const TWO: &[u8] = b"store 2 2\ndo 0 counter:a inc 5\ngive 1 0 1\nask 1 counter:a\ngive 1 0 1\n";

/// Whether a run of two replicas, whose reads are of 16 bytes, ends at a read that fails, and has written a text.
fn ends_at_read<R: Threads + Wait + Sync + AllocGlobal>(
    rt: &R,
    call: u32,
    text: &[u8],
) -> Result<bool, AllocError> {
    let failing = [call];
    replies(
        rt,
        TWO,
        pieces(16, failing.as_slice(), 65536, &[]),
        Status::ReadFault,
        text,
    )
}

#[test]
fn each_read_can_fail(rt: HostRuntime) -> Result<(), Fail> {
    assert!(rt; ends_at_read(&rt, 1, b"")?);
    assert!(rt; ends_at_read(&rt, 2, b"")?);
    assert!(rt; ends_at_read(&rt, 3, b"ok 1\n")?);
    assert!(rt; ends_at_read(&rt, 4, b"ok 1\ntook 0:1\n")?);
    assert!(rt; ends_at_read(&rt, 5, b"ok 1\ntook 0:1\n= 5\n")?);
    assert!(rt; ends_at_read(&rt, 6, b"ok 1\ntook 0:1\n= 5\nold\n")?);
    Ok(())
}

#[test]
fn a_bad_header_is_told_before_a_later_fault(rt: HostRuntime) -> Result<(), Fail> {
    let headless = b"frob\nstore 1 1\n";
    assert!(rt;
        replies(
            &rt,
            headless,
            pieces(5, &[3], 65536, &[]),
            Status::BadHeader,
            b""
        )?
    );
    let headed = b"store 1 1\nask 0";
    assert!(rt;
        replies(
            &rt,
            headed,
            pieces(5, &[3], 65536, &[]),
            Status::ReadFault,
            b""
        )?
    );
    Ok(())
}

/// Whether a run of two replicas, which writes after each line, ends at a write that fails, and has written a text.
fn ends_at_write<R: Threads + Wait + Sync + AllocGlobal>(
    rt: &R,
    call: u32,
    text: &[u8],
) -> Result<bool, AllocError> {
    let failing = [call];
    replies(
        rt,
        TWO,
        pieces(1, &[], 65536, failing.as_slice()),
        Status::WriteFault,
        text,
    )
}

#[test]
fn each_write_can_fail(rt: HostRuntime) -> Result<(), Fail> {
    assert!(rt; ends_at_write(&rt, 1, b"")?);
    assert!(rt; ends_at_write(&rt, 2, b"ok 1\n")?);
    assert!(rt; ends_at_write(&rt, 3, b"ok 1\ntook 0:1\n")?);
    assert!(rt; ends_at_write(&rt, 4, b"ok 1\ntook 0:1\n= 5\n")?);
    Ok(())
}

const REMOVED: &[u8] =
    b"store 2 2\ndo 0 awset:s add x\ngive 1 0 1\ndo 1 awset:s rmv x\ndo 0 awset:s add x\ngive 0 1 1\ngive 1 0 2\nask 0 awset:s\nask 1 awset:s\nlog 0\nlog 1\nsize 1\nseen 1\nstable 0\nstable 1\n";

/// The replies to the lines of it that end in its first 64 bytes, in its first 128, and in all.
const REMOVED_REPLIES: [&[u8]; 3] = [
    b"ok 1\ntook 0:1\nok 1\n",
    b"ok 1\ntook 0:1\nok 1\nok 2\ntook 1:1\ntook 0:2\n= x\n= x\n",
    b"ok 1\ntook 0:1\nok 1\nok 2\ntook 1:1\ntook 0:2\n= x\n= x\nlog 0:2\nlog\nsize 0 1\nseen 2 1\nstable 1 1\nstable 2 0\n",
];

#[test]
fn each_piece_of_a_script_on_two_can_fail(rt: HostRuntime) -> Result<(), Fail> {
    let [first, second, all] = REMOVED_REPLIES;
    // Pieces of 64 bytes, and a write before each read.
    assert!(rt;
        replies(
            &rt,
            REMOVED,
            pieces(64, &[2], 65536, &[]),
            Status::ReadFault,
            first
        )?
    );
    assert!(rt;
        replies(
            &rt,
            REMOVED,
            pieces(64, &[3], 65536, &[]),
            Status::ReadFault,
            second
        )?
    );
    assert!(rt;
        replies(
            &rt,
            REMOVED,
            pieces(64, &[4], 65536, &[]),
            Status::ReadFault,
            all
        )?
    );
    assert!(rt;
        replies(
            &rt,
            REMOVED,
            pieces(64, &[], 65536, &[2]),
            Status::WriteFault,
            first
        )?
    );
    assert!(rt;
        replies(
            &rt,
            REMOVED,
            pieces(64, &[], 65536, &[3]),
            Status::WriteFault,
            second
        )?
    );
    Ok(())
}

/// A header, newlines up to a length, and then more bytes.
pub fn padded(alloc: Global, head: &[u8], len: usize, tail: &[u8]) -> Result<Vec<u8>, AllocError> {
    let mut bytes = Vec::with_capacity(alloc, len)?;
    bytes.extend_from_slice(head)?;
    for _ in head.len()..len {
        bytes.push(b'\n')?;
    }
    bytes.extend_from_slice(tail)?;
    Ok(bytes)
}

#[test]
fn an_input_has_at_most_4194304_bytes(rt: HostRuntime) -> Result<(), Fail> {
    let most = padded(rt.alloc(), b"store 1 1\n", MOST_INPUT, b"")?;
    assert!(rt; replies(&rt, most.as_slice(), WHOLE, Status::Fine, b"")?);
    let more = padded(rt.alloc(), b"store 1 1\n", MOST_INPUT, b"\n")?;
    assert!(rt; replies(&rt, more.as_slice(), WHOLE, Status::TooLong, b"")?);
    Ok(())
}
