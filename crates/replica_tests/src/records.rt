//! Three records of member 0 of two, spelled by hand: it adds 5 to a counter, hears that the other added 7, and confirms it.

use replica_keeper::{Durable, StartFault};
use std::alloc::Global;
use std::test::Fail;
use store_io::{Keeper, MemoryKeeper, append_synced};

/// That it added 5: one note.
pub(crate) const ADDED: &[u8] =
    b"\0\0\0\x18\x01\x02\0\x02\x0F\0\0\0\0\0\0\0\x01\0\0\0\0\0\x01c\0\0\0\x05";

/// That it heard of the other's 7: two notes.
pub(crate) const HEARD: &[u8] =
    b"\0\0\0\x18\x02\x02\x01\x02\x0F\0\0\0\0\0\0\0\0\0\0\0\x01\0\x01c\0\0\0\x07";

/// That it confirmed this: one note.
pub(crate) const CONFIRMED: &[u8] = b"\0\0\0\x11\x01\x02\0\x02\0\0\0\0\0\0\0\0\x02\0\0\0\x01";

/// The three, one behind the other.
pub(crate) fn records(alloc: Global) -> Result<Vec<u8>, Fail> {
    let mut bytes = ADDED.to_vec(alloc)?;
    bytes.extend_from_slice(HEARD)?;
    bytes.extend_from_slice(CONFIRMED)?;
    Ok(bytes)
}

/// A keeper that holds bytes of which the first are synced.
pub(crate) fn holding(alloc: Global, synced: &[u8], more: &[u8]) -> Result<MemoryKeeper, Fail> {
    let mut keeper = MemoryKeeper::new(Vec::new(alloc));
    keeper.reserve(synced.len())?;
    append_synced(&mut keeper, synced)?;
    keeper.reserve(more.len())?;
    keeper.append(more)?;
    Ok(keeper)
}

/// What a start comes to: so many notes, damage at a byte, or neither.
#[derive(Clone, Copy, Debug, PartialEq, Eq)]
pub(crate) enum Start {
    Opens(u64),
    Damaged(u64),
    Fails,
}

/// What a start as a member of two comes to.
pub(crate) fn start_of(alloc: Global, me: u8, w: u8, limit: u32, keeper: MemoryKeeper) -> Start {
    match Durable::start(alloc, me, 2, w, limit, keeper) {
        Ok(it) => it
            .node()
            .map_or(Start::Fails, |node| Start::Opens(node.places())),
        Err((StartFault::Damaged { at }, _)) => Start::Damaged(at),
        Err(_) => Start::Fails,
    }
}
