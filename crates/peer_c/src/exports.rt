//! What C calls. `examples/embed/munsikap_peer.h` declares it, and says what a caller owes.

use crate::calls::{ask, beat, create, frame_at, hear, number_at, update};
use crate::handle::Handle;
use crate::outcome::Outcome;
use std::alloc::Global;

/// Makes member `me` of a store of `n`, with a window of `w` and a limit of messages a member, and puts it into an empty
/// handle. Else nothing changes.
#[unsafe(no_mangle)]
pub extern "C" fn munsikap_create(
    alloc: Global,
    handle: &mut Handle,
    me: u8,
    n: u8,
    w: u8,
    limit: u32,
) -> i32 {
    if let Some(peer) = handle.take(alloc) {
        handle.put(peer);
        return Outcome::HasPeer.code();
    }
    match create(alloc, me, n, w, limit) {
        Ok(peer) => {
            handle.put(peer);
            Outcome::Done.code()
        }
        Err(outcome) => outcome.code(),
    }
}

/// Ends a peer, and leaves the handle empty. An empty handle stays as it is.
#[unsafe(no_mangle)]
pub extern "C" fn munsikap_free(alloc: Global, handle: &mut Handle) {
    drop(handle.take(alloc));
}

/// Sends an update: an object, an operation and its arguments, as behind `do r` in a script. The length of its frame
/// goes to `count`, and the frame to `frame` where there is room for it.
#[unsafe(no_mangle)]
pub extern "C" fn munsikap_update(
    alloc: Global,
    handle: &mut Handle,
    text: &[u8],
    frame: &mut [u8],
    count: &mut usize,
) -> i32 {
    let Some(mut peer) = handle.take(alloc) else {
        return Outcome::NoPeer.code();
    };
    let outcome = update(alloc, &mut peer, text, frame, count);
    handle.put(peer);
    outcome.code()
}

/// Sends a no-op where one is due. The length of its frame goes to `count`, and the frame to `frame` where there is room
/// for it.
#[unsafe(no_mangle)]
pub extern "C" fn munsikap_beat(
    alloc: Global,
    handle: &mut Handle,
    frame: &mut [u8],
    count: &mut usize,
) -> i32 {
    let Some(mut peer) = handle.take(alloc) else {
        return Outcome::NoPeer.code();
    };
    let outcome = beat(alloc, &mut peer, frame, count);
    handle.put(peer);
    outcome.code()
}

/// Takes in bytes, which may come from anywhere. Where messages were taken, `delivered` gets how many were delivered, and
/// `steps` how many were delivered or dropped.
#[unsafe(no_mangle)]
pub extern "C" fn munsikap_hear(
    alloc: Global,
    handle: &mut Handle,
    bytes: &[u8],
    delivered: &mut usize,
    steps: &mut usize,
) -> i32 {
    let Some(mut peer) = handle.take(alloc) else {
        return Outcome::NoPeer.code();
    };
    let outcome = hear(alloc, &mut peer, bytes, delivered, steps);
    handle.put(peer);
    outcome.code()
}

/// Hands out the frame at a place, from 0, of those to send again, oldest first. Its length goes to `count`.
#[unsafe(no_mangle)]
pub extern "C" fn munsikap_frame(
    alloc: Global,
    handle: &mut Handle,
    place: usize,
    frame: &mut [u8],
    count: &mut usize,
) -> i32 {
    let Some(peer) = handle.take(alloc) else {
        return Outcome::NoPeer.code();
    };
    let outcome = frame_at(alloc, &peer, place, frame, count);
    handle.put(peer);
    outcome.code()
}

/// Hands out what an object is, as the line that a script's `ask` replies. Its length goes to `count`.
#[unsafe(no_mangle)]
pub extern "C" fn munsikap_ask(
    alloc: Global,
    handle: &mut Handle,
    object: &[u8],
    line: &mut [u8],
    count: &mut usize,
) -> i32 {
    let Some(peer) = handle.take(alloc) else {
        return Outcome::NoPeer.code();
    };
    let outcome = ask(alloc, &peer, object, line, count);
    handle.put(peer);
    outcome.code()
}

/// Tells how many messages of a member were delivered here.
#[unsafe(no_mangle)]
pub extern "C" fn munsikap_seen(
    alloc: Global,
    handle: &mut Handle,
    member: u8,
    number: &mut u32,
) -> i32 {
    let Some(peer) = handle.take(alloc) else {
        return Outcome::NoPeer.code();
    };
    let outcome = number_at(&peer.seen(), member, number);
    handle.put(peer);
    outcome.code()
}

/// Tells how many messages of a member every member is known to have.
#[unsafe(no_mangle)]
pub extern "C" fn munsikap_stable(
    alloc: Global,
    handle: &mut Handle,
    member: u8,
    number: &mut u32,
) -> i32 {
    let Some(peer) = handle.take(alloc) else {
        return Outcome::NoPeer.code();
    };
    let outcome = number_at(&peer.stable(), member, number);
    handle.put(peer);
    outcome.code()
}
