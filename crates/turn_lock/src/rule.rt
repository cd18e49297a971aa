//! The rule of the lock's table, and what each kind of its atomic steps tells: make the table,
//! split a seat, join a seat, draw a ticket, load the serving word, take the value, put it back,
//! end the turn. Taking the value and putting it back change no view.

use crate::view::View;
use atomic_table::{Join, Play, Split, TableRule};
use std::marker::PhantomData;

/// Which value fits which list of turns, under a key that the lock is told when it is made.
pub trait Story<X, E, K> {
    ghost use Rattle.std.specs.Prelude.{◌≡◌, ℕ, List, [], ◌∷◌, ◌++◌};
    ghost use Rattle.turn_lock.specs.declared.view.TurnEntry.{TurnEntry};
    ghost use Rattle.turn_lock.specs.Turns.{turn};

    // A value fits a list of turns, the oldest first.
    ghost fits: { K → List (TurnEntry E) → X → Type 0 };

    // The value shows what the last turn recorded.
    ghost shows: { (key : K) (turns : List (TurnEntry E)) (by : ℕ) (a b : E) (x : X) → fits key (turns ++ turn by a ∷ []) x → fits key (turns ++ turn by b ∷ []) x → a ≡ b };

    // Some key. It stands where a joined pass had the lock's, and nobody reads it.
    ghost any_key: { K };
}

/// The rule of a lock with this story.
pub(crate) struct Ticketing<P> {
    story: PhantomData<P>,
}

impl<X, E, K, P: Story<X, E, K>> TableRule<Option<X>, View<E, K>, K> for Ticketing<P> {
    ghost use Rattle.turn_lock.specs.Rule.{Ticketed, opening_view};

    ghost holds = { λ key. Ticketed (P.fits key) key };

    ghost first = { opening_view };
}

/// A pass draws a ticket.
pub(crate) struct Draw;

impl<X, E, K> Play<Option<X>, View<E, K>> for Draw {
    ghost use Rattle.turn_lock.specs.Steps.{Drew};

    ghost then = { Drew };
}

/// A pass loads the serving word. Where it finds its ticket, the value is in its hands.
pub(crate) struct Look<P> {
    story: PhantomData<P>,
}

impl<X, E, K, P: Story<X, E, K>> Play<Option<X>, View<E, K>> for Look<P> {
    ghost use Rattle.turn_lock.specs.Steps.{Looked};

    ghost then = { Looked P.fits };
}

/// A pass ends a turn that recorded something.
pub(crate) struct End<P> {
    story: PhantomData<P>,
}

impl<X, E, K, P: Story<X, E, K>> Play<Option<X>, View<E, K>> for End<P> {
    ghost use Rattle.turn_lock.specs.Steps.{Recorded};

    ghost then = { Recorded P.fits };
}

/// A pass ends a turn that recorded nothing.
pub(crate) struct EndBare;

impl<X, E, K> Play<Option<X>, View<E, K>> for EndBare {
    ghost use Rattle.turn_lock.specs.Steps.{Passed};

    ghost then = { Passed };
}

/// A pass is split from the opener.
pub(crate) struct Cut;

impl<E, K> Split<View<E, K>> for Cut {
    ghost use Rattle.turn_lock.specs.Rule.{splitting, newcomer};

    ghost left = { splitting };

    ghost right = { newcomer };
}

/// A pass is joined to the opener.
pub(crate) struct Glue<X, P> {
    story: PhantomData<(X, P)>,
}

impl<X, E, K, P: Story<X, E, K>> Join<View<E, K>> for Glue<X, P> {
    ghost use Rattle.turn_lock.specs.Rule.{joining, spent};

    ghost both = { joining };

    ghost spent = { spent P.any_key };
}
