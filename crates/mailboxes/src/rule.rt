//! The mailbox's rule, and what each step makes of what its pass has seen. These types are for the proofs alone.

use crate::seen::View;
use crossbeam_queue::protocol::{Join, Lesson, Outcome, Protocol, Split};

/// There is one list of posted items.
pub struct InOneLine;

impl<T> Protocol<T, View<T>> for InOneLine {
    ghost use Rattle.mailboxes.specs.Rule.{Kept, first_view};

    ghost holds = { Kept };

    ghost first = { first_view };
}

/// A pass is forked from the first one.
pub struct Fork;

impl<T> Split<View<T>> for Fork {
    ghost use Rattle.mailboxes.specs.Rule.{forking, newcomer_view};

    ghost left = { forking };

    ghost right = { newcomer_view };
}

/// A pass is joined to the first one.
pub struct Merge;

impl<T> Join<View<T>> for Merge {
    ghost use Rattle.mailboxes.specs.Rule.{joining, spent};

    ghost both = { joining };

    ghost spent = { spent };
}

impl<T> Lesson<T, View<T>> for Merge {
    ghost use Rattle.mailboxes.specs.Rule.{Joined};

    ghost fact = { λ v items. Joined v };
}

/// An item is posted, or the mailbox is full.
pub struct Post;

impl<T> Outcome<T, View<T>> for Post {
    ghost use Rattle.mailboxes.specs.Rule.{Posting};

    ghost then = { Posting };
}

impl<T> Lesson<T, View<T>> for Post {
    ghost use Rattle.mailboxes.specs.Rule.{Holds};

    ghost fact = { Holds };
}

/// An item is taken, or the mailbox is empty.
pub struct Take;

impl<T> Outcome<T, View<T>> for Take {
    ghost use Rattle.mailboxes.specs.Rule.{Taking};

    ghost then = { Taking };
}

impl<T> Lesson<T, View<T>> for Take {
    ghost use Rattle.mailboxes.specs.Rule.{Holds};

    ghost fact = { Holds };
}
