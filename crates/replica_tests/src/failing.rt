//! Each call of a keeper made to fail in turn.

use crate::records::{ADDED, HEARD, Start, start_of};
use causal_model::{Beat, Local, Receive};
use frame_codec::decode;
use op_base::{Act, ObjectId, Update};
use replica_keeper::{Durable, Durably, StartFault};
use std::alloc::Global;
use std::test::Fail;
use store_io::{Keeper, MemoryKeeper};

/// Member 0 of two with a window of 2, of what a keeper holds; or the fault, with the keeper.
fn start(
    alloc: Global,
    keeper: MemoryKeeper,
) -> Result<Durable<MemoryKeeper>, (StartFault, MemoryKeeper)> {
    Durable::start(alloc, 0, 2, 2, 10000, keeper)
}

/// Whether a replica adds 5 to a counter.
fn adds(alloc: Global, replica: &mut Durable<MemoryKeeper>) -> Result<bool, Fail> {
    let update = Update::new(ObjectId::read(alloc, b"counter:c")?, Act::Inc(5))?;
    Ok(matches!(replica.local(alloc, &update), Durably::Done(Local::Sent(_))))
}

/// Whether it receives a message of the other member.
fn hears(alloc: Global, replica: &mut Durable<MemoryKeeper>) -> Result<bool, Fail> {
    let Ok(message) = decode(alloc, &HEARD[5..], 2, 0, 10000) else {
        return Err("no frame".into());
    };
    if replica.n != 2 || replica.limit != 10000 {
        return Err("another store".into());
    }
    Ok(matches!(
        replica.receive(alloc, message),
        Durably::Done(Receive::Took(_))
    ))
}

/// Whether it confirms this message.
fn confirms(alloc: Global, replica: &mut Durable<MemoryKeeper>) -> bool {
    matches!(replica.beat(alloc), Durably::Done(Beat::Sent(_)))
}

/// How many steps of a script are done until one isn't: an update, a message of the other member, the no-op that confirms it,
/// and an update.
fn steps_done(alloc: Global, replica: &mut Durable<MemoryKeeper>) -> Result<u8, Fail> {
    for step in 0..4 {
        let is_done = match step {
            1 => hears(alloc, replica)?,
            2 => confirms(alloc, replica),
            _ => adds(alloc, replica)?,
        };
        if !is_done {
            return Ok(step);
        }
    }
    Ok(4)
}

/// What a replica that begins with nothing comes to, where a call of its keeper fails: how many steps it makes, whether it is
/// closed then, and how many notes are kept.
fn comes_to(alloc: Global, call: u32) -> Result<(u8, bool, Start), Fail> {
    let Ok(mut replica) = start(alloc, MemoryKeeper::new([call].to_vec(alloc)?)) else {
        return Err("not started".into());
    };
    let steps = steps_done(alloc, &mut replica)?;
    let is_closed = replica.node().is_none();
    Ok((
        steps,
        is_closed,
        start_of(alloc, 0, 2, 10000, replica.stop()),
    ))
}

/// In which step the keeper's call fails, its first two being made by the start: how many notes are then kept. A record that was
/// appended is kept whether it is synced or not, and half of one isn't.
const CALLS: [(u32, u8, u64); 8] = [
    (3, 0, 0),
    (4, 0, 1),
    (5, 1, 1),
    (6, 2, 3),
    (7, 2, 4),
    (8, 3, 4),
    (9, 3, 5),
    (99, 4, 5),
];

#[test]
fn a_failing_call_closes_the_replica_and_what_is_kept_opens(rt: HostRuntime) -> Result<(), Fail> {
    for (call, at, kept) in CALLS {
        let wanted = (at, at < 4, Start::Opens(kept));
        assert_eq!(rt; comes_to(rt.alloc(), call)?, wanted, "call {call}");
    }
    Ok(())
}

/// The message that was heard and half of an update's record, where this call of the keeper fails.
fn torn(alloc: Global, call: u32) -> Result<MemoryKeeper, Fail> {
    let mut keeper = MemoryKeeper::new([call].to_vec(alloc)?);
    keeper.reserve(42)?;
    keeper.append(HEARD)?;
    keeper.append(&ADDED[..14])?;
    Ok(keeper)
}

/// The keeper that comes back from a start in which one of its calls fails.
fn failed(alloc: Global, keeper: MemoryKeeper) -> Result<MemoryKeeper, Fail> {
    let Err((StartFault::KeeperFault, keeper)) = start(alloc, keeper) else {
        return Err("no call failed".into());
    };
    Ok(keeper)
}

#[test]
fn a_failing_start_gives_back_a_keeper_that_opens(rt: HostRuntime) -> Result<(), Fail> {
    let alloc = rt.alloc();
    // Its two reads, its cut and its sync, behind the two calls that filled it.
    for (call, left) in [(3, 42), (4, 42), (5, 42), (6, 28)] {
        let keeper = failed(alloc, torn(alloc, call)?)?;
        assert_eq!(rt; (call, keeper.len()), (call, left));
        assert_eq!(rt; start_of(alloc, 0, 2, 10000, keeper), Start::Opens(2));
    }
    Ok(())
}
