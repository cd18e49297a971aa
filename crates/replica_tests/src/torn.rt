//! Stops after each byte of what was appended: what is left opens as the whole records of it tell.

use crate::records::{ADDED, HEARD, Start, holding, records, start_of};
use std::test::Fail;

/// How many notes the whole records among the first bytes of the three tell.
fn told(count: u64) -> Start {
    match count {
        0..=27 => Start::Opens(0),
        28..=55 => Start::Opens(1),
        56..=76 => Start::Opens(3),
        _ => Start::Opens(4),
    }
}

#[test]
fn what_a_stop_leaves_opens_as_its_whole_records_tell(rt: HostRuntime) -> Result<(), Fail> {
    let alloc = rt.alloc();
    let bytes = records(alloc)?;
    for left in 0..=77 {
        let keeper = holding(alloc, &[], bytes.as_slice())?.crash(left);
        let comes_to = start_of(alloc, 0, 2, 10000, keeper);
        assert_eq!(rt; (left, comes_to), (left, told(left)));
    }
    Ok(())
}

#[test]
fn what_was_synced_is_left(rt: HostRuntime) -> Result<(), Fail> {
    let alloc = rt.alloc();
    for more in 0..=28 {
        let keeper = holding(alloc, ADDED, HEARD)?.crash(more);
        let comes_to = start_of(alloc, 0, 2, 10000, keeper);
        assert_eq!(rt; (more, comes_to), (more, told(28 + more)));
    }
    Ok(())
}
