//! Worked stores: that the definitions mean what was meant. Each is the contract of a function that does nothing.

ghost use Rattle.worked_stores.specs.Worked.{DroppedMovesNothing, EachKeepsItsOwn, EndsOnceStable, EpochsAreApart, FirstIsKept, GivenByNumber};

/// A message is given by its number: the second, and none where there is none.
pub fn a_message_is_given_by_its_number()
    ensures { GivenByNumber }
{}

/// An outbox of which the first message is kept replies kept, though the last was kept before.
pub fn an_outbox_is_kept_by_its_first_message()
    ensures { FirstIsKept }
{}

/// A round in which a message is dropped, and no more comes, moves nothing.
pub fn a_dropped_message_moves_no_round()
    ensures { DroppedMovesNothing }
{}

/// An epoch ends once operations are stable, and not where all counts are equal alone.
pub fn an_epoch_ends_once_all_is_stable()
    ensures { EndsOnceStable }
{}

/// A member begins an epoch with what it has itself, also where a forged message made that something else.
pub fn a_member_keeps_what_it_has()
    ensures { EachKeepsItsOwn }
{}

/// What was done in epochs that are over stays, each after those before it, until an operation of the present one undoes it.
pub fn epochs_are_apart()
    ensures { EpochsAreApart }
{}
