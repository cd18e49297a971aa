//! A C library over a peer: a replica that speaks frames, for programs that aren't written in Rattle.
//!
//! Each exported function takes the peer out of the caller's handle, calls it, and puts it back. Nothing here checks what
//! a caller hands over: `examples/embed/munsikap_peer.h` says what it owes.
#![tactic(auto)]

mod calls;
mod exports;
mod handle;
mod loose;
mod outcome;
mod text;
