//! What threads have of a lock: its opener, its passes, and the gate of a call. A lock's opener and
//! its passes can be put in lists, lent and handed to other threads.

ghost use Rattle.std.specs.Prelude.{◌≡◌};

use crate::view::View;
use atomic_table::Seat;
use std::marker::Model;
use store_io::Gate;

/// The opener of a lock, of which there is one. Passes are split from it and joined to it, and it
/// closes the lock.
#[derive(Drop)]
pub struct Opener<X, E, K> {
    pub(crate) seat: Seat<Option<X>, View<E, K>>,
    pub(crate) out: u32,
}

impl<X, E, K> Model for Opener<X, E, K> {
    ghost use Rattle.turn_lock.specs.Turns.{OpenerState};

    ghost Value = { OpenerState E K };

    ghost use Rattle.turn_lock.specs.Tokens.{opener_shown, IsOpener};

    ghost view = { opener_shown };

    ghost invariant = { IsOpener };
}

impl<X, E, K> Opener<X, E, K> {
    /// How many passes are split and not joined, 0 to 1024.
    pub fn out(&self) -> u32
        ensures { result ≡ self.now.out }
    {
        self.out
    }
}

/// A pass of a lock, by which a thread takes turns. A pass that is dropped stays out.
#[derive(Drop)]
pub struct Pass<X, E, K> {
    pub(crate) seat: Seat<Option<X>, View<E, K>>,
    /// The ticket that it drew last, modulo 2^64.
    pub(crate) ticket: u64,
}

impl<X, E, K> Model for Pass<X, E, K> {
    ghost use Rattle.turn_lock.specs.Turns.{PassState};

    ghost Value = { PassState E K };

    ghost use Rattle.turn_lock.specs.Tokens.{pass_shown, IsPass};

    ghost view = { pass_shown };

    ghost invariant = { IsPass };
}

/// A worker's call at a gate, for its call of this number.
#[derive(Drop)]
pub struct Visit<'a, G: Gate> {
    pub gate: &'a G,
    pub worker: u32,
    pub call: u32,
}
