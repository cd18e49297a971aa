//! Made scripts, beside what another program makes; and a summary, beside one that was written by hand.

ghost use Rattle.std.specs.Prelude.{◌≤◌};

use op_base::{NoMemory, Text};
use std::alloc::Global;
use std::test::Fail;
use workload::{make, put_summary};

/// What a text adds up to, so that a change of a byte or of the order shows.
fn checksum(text: &[u8]) -> u32 {
    text.iter().fold(
        0u32,
        |sum, b| sum.wrapping_mul(31).wrapping_add(u32::from(*b)),
    )
}

/// How many lines a made script has, how many bytes, and what it adds up to.
fn made(alloc: Global, seed: u32, count: u32, n: u8, w: u8) -> Result<(usize, usize, u32), NoMemory>
    requires { 1 ≤ n }
{
    let text = make(alloc, seed, count, n, w)?;
    let lines = text.as_slice().iter().filter(|b| **b == b'\n').count();
    Ok((lines, text.len(), checksum(text.as_slice())))
}

// The lines, the bytes and a checksum of what `gen` of `bench/made.py` makes of the same numbers.
#[test]
fn a_seed_makes_what_another_program_makes_of_it(rt: HostRuntime) -> Result<(), Fail> {
    let alloc = rt.alloc();
    assert_eq!(rt;
        made(alloc, 2147483647, 500, 3, 2)?,
        (516, 8590, 1349092438)
    );
    assert_eq!(rt; made(alloc, 7, 20000, 16, 64)?, (20016, 343407, 2625274300));
    Ok(())
}

/// Whether the summary of a script and its transcript is a text.
fn sums_up(alloc: Global, script: &[u8], transcript: &[u8], wanted: &[u8]) -> bool {
    let mut out = Text::new(alloc);
    put_summary(alloc, script, transcript, &mut out).is_ok() && out.as_slice() == wanted
}

#[test]
fn words_are_whole_and_in_byte_order(rt: HostRuntime) {
    let script: &[u8] = b"ask 0 a\nask 0 b\nask 0 c\nask 0 d\n";
    let transcript: &[u8] = b"off\nbad frame 3\no\nbad 4\n";
    let wanted: &[u8] = b"lines 4\nbad 2\no 1\noff 1\na off\nb bad frame 3\nc o\nd bad 4\n";
    assert!(rt; sums_up(rt.alloc(), script, transcript, wanted));
}
