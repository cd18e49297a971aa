//! What a C program holds of a peer.

ghost use Rattle.peer_c.specs.Handle.{handle_owns};

use crate::loose::Loose;
use peer::Peer;
use std::alloc::Global;
use std::marker::Model;
use std::mem::replace;
use std::ptr::null_mut;

/// A peer's place, or none.
#[repr(C)]
#[derive(Drop)]
pub struct Handle {
    at: *mut u8,
    full: bool,
}

impl Model for Handle {
    ghost also_owns = { λ h. handle_owns h.full h.at };
}

impl Handle {
    /// The handle of no peer.
    fn empty() -> Handle {
        Handle {
            at: null_mut(),
            full: false,
        }
    }

    /// The handle of a peer.
    fn of_loose(peer: Loose<Peer, Global>) -> Handle {
        let Loose { at, alloc: _ } = peer;
        Handle {
            at: at.cast(),
            full: true,
        }
    }

    /// The peer, where there is one.
    fn into_loose(self, alloc: Global) -> Option<Loose<Peer, Global>> {
        let Handle { at, full } = self;
        if full {
            Some(Loose {
                at: at.cast(),
                alloc,
            })
        } else {
            None
        }
    }

    /// The peer in its box, where there is one.
    fn into_peer(self, alloc: Global) -> Option<Box<Peer>> {
        Some(self.into_loose(alloc)?.into_box())
    }

    /// Takes the peer out, and leaves none.
    pub fn take(&mut self, alloc: Global) -> Option<Box<Peer>> {
        replace(self, Handle::empty()).into_peer(alloc)
    }

    /// Puts a peer in. What was there is forgotten, so it has to have been taken before.
    pub fn put(&mut self, peer: Box<Peer>) {
        *self = Handle::of_loose(Loose::of(peer));
    }
}
