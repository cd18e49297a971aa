//! Which bytes are damage, and where: another byte at each place, and records that no call gives where they stand.

use crate::records::{ADDED, CONFIRMED, HEARD, Start, holding, records, start_of};
use std::alloc::Global;
use std::test::Fail;

/// The three records tell so many notes.
const ALL: Start = Start::Opens(4);

/// What comes of the three records where the byte at a place is another.
fn with_byte(alloc: Global, at: usize, byte: u8) -> Result<Start, Fail> {
    let mut bytes = records(alloc)?;
    let Some(changed) = bytes.get_mut(at) else {
        return Err("too few bytes".into());
    };
    *changed = byte;
    let keeper = holding(alloc, bytes.as_slice(), &[])?;
    Ok(start_of(alloc, 0, 2, 10000, keeper))
}

/// What comes of the three records where the byte at a place is 255.
fn with_255(at: usize) -> Start {
    match at {
        // There are too few bytes for the length of a record, as behind a torn end.
        3 => Start::Opens(0),
        31 => Start::Opens(1),
        59 => Start::Opens(3),
        // The amount that was added.
        24..=27 | 52..=55 => ALL,
        0..=27 => Start::Damaged(0),
        28..=55 => Start::Damaged(28),
        _ => Start::Damaged(56),
    }
}

#[test]
fn another_byte_at_any_place_is_damage_there_or_opens(rt: HostRuntime) -> Result<(), Fail> {
    let alloc = rt.alloc();
    for at in 0..77 {
        assert_eq!(rt; (at, with_byte(alloc, at, 255)?), (at, with_255(at)));
    }
    Ok(())
}

/// What comes of a byte at a place.
const CHANGED: [(usize, u8, Start); 6] = [
    // A length that no record has, and one that cuts its record short.
    (3, 0, Start::Damaged(0)),
    (3, 23, Start::Damaged(0)),
    // The code of another act of counters, and another key.
    (8, 16, ALL),
    (23, b'b', ALL),
    // What was heard has seen the own message, or is a second message: it is kept early, and no no-op is due.
    (44, 1, ALL),
    (48, 2, Start::Damaged(56)),
];

#[test]
fn a_byte_that_tells_another_call_opens_where_a_call_gives_it(rt: HostRuntime) -> Result<(), Fail> {
    let alloc = rt.alloc();
    for (at, byte, comes_to) in CHANGED {
        assert_eq!(rt; with_byte(alloc, at, byte)?, comes_to);
    }
    Ok(())
}

#[test]
fn a_length_above_8192_is_damage(rt: HostRuntime) -> Result<(), Fail> {
    let alloc = rt.alloc();
    let keeper = holding(alloc, &[0, 0, 32, 1], &[])?;
    assert_eq!(rt; start_of(alloc, 0, 2, 10000, keeper), Start::Damaged(0));
    Ok(())
}

/// That it added 5 once more: the next timestamp.
const ADDED_AGAIN: &[u8] =
    b"\0\0\0\x18\x01\x02\0\x02\x0F\0\0\0\0\0\0\0\x02\0\0\0\0\0\x01c\0\0\0\x05";

/// That it heard 7 of one who has seen two messages of its own.
const HEARD_OF_TWO: &[u8] =
    b"\0\0\0\x18\x02\x02\x01\x02\x0F\0\0\0\0\0\0\0\x02\0\0\0\x01\0\x01c\0\0\0\x07";

/// That it heard 7, in frame version 1.
const HEARD_IN_1: &[u8] = b"\0\0\0\x13\x02\x01\x01\x02\x0F\0\0\0\0\0\0\0\x01\x01c\0\0\0\x07";

#[test]
fn a_record_that_no_call_gives_there_is_damage(rt: HostRuntime) -> Result<(), Fail> {
    let alloc = rt.alloc();
    for (first, second) in [
        // The same twice.
        (ADDED, ADDED),
        (HEARD, HEARD),
        // Another timestamp than the next, a no-op that isn't due, and a message that is refused.
        (HEARD, ADDED),
        (ADDED, CONFIRMED),
        (ADDED, HEARD_OF_TWO),
        // Another version.
        (ADDED, HEARD_IN_1),
    ] {
        let keeper = holding(alloc, first, second)?;
        assert_eq!(rt; start_of(alloc, 0, 2, 10000, keeper), Start::Damaged(28));
    }
    Ok(())
}

#[test]
fn records_are_of_one_member_window_and_limit(rt: HostRuntime) -> Result<(), Fail> {
    let alloc = rt.alloc();
    for (me, w, limit, comes_to) in [
        (0, 2, 2, Start::Opens(2)),
        (1, 2, 2, Start::Damaged(0)),
        (0, 1, 2, Start::Damaged(28)),
        (0, 2, 1, Start::Damaged(28)),
    ] {
        let keeper = holding(alloc, ADDED, ADDED_AGAIN)?;
        assert_eq!(rt; start_of(alloc, me, w, limit, keeper), comes_to);
    }
    Ok(())
}
