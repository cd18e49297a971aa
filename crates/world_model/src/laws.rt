//! Laws of the plain world. Each is the contract of a function that does nothing.

ghost use Rattle.world_model.specs.Laws.{OpeningIsWorld, OpeningHasSize, SentAreOwn, SentIsNumbered, SendingKeepsWorld, BeatingKeepsWorld, OfferingKeepsWorld, GivingKeepsWorld, ResendingKeepsWorld, RawingKeepsWorld, RegroupingKeepsStore, NextEpochBegins, NextEpochShowsTheSame, RefusedChangesNothing, ChangesAreRefused, SettlingKeepsWorld, SettlingEnds, MoreRoundsAreNone, SettledIsStill, SettledIsEqualCounts, SameEventsAnswerAlike, NoneLagsIsAllStable, LaggingIsAnother, GrowingGoesOn, GrownAreJournals};

/// A store begins in a world of its members.
pub fn an_opening_is_a_world()
    ensures world { OpeningIsWorld }
    ensures size { OpeningHasSize }
{}

/// What a member sent are its own messages, numbered from 1; each fits the store and can be carried there.
pub fn sent_messages_are_numbered()
    ensures own { SentAreOwn }
    ensures numbered { SentIsNumbered }
{}

/// Each command leaves a world of the same members in the same epoch: a valid update is sent, a beat is made, and messages,
/// outboxes and bytes are offered.
pub fn commands_keep_worlds()
    ensures sending { SendingKeepsWorld }
    ensures beating { BeatingKeepsWorld }
    ensures offering { OfferingKeepsWorld }
    ensures giving { GivingKeepsWorld }
    ensures resending { ResendingKeepsWorld }
    ensures rawing { RawingKeepsWorld }
{}

/// A change of members leaves a world of the same store. Where an epoch begins, it has those members, and each shows what it
/// had, or what replica 0 had.
pub fn members_change_at_rest()
    ensures store { RegroupingKeepsStore }
    ensures begins { NextEpochBegins }
    ensures shows { NextEpochShowsTheSame }
{}

/// A change of members that is refused leaves the world as it is. It is refused in the last epoch, in any other where the store
/// isn't at rest, and nowhere else.
pub fn refused_changes_leave_the_world()
    ensures stays { RefusedChangesNothing }
    ensures causes { ChangesAreRefused }
{}

/// Settling ends in a world of the same store, after a round that moves nothing, and more rounds would not be made. Where
/// all counts are equal then, one more would move nothing.
pub fn settling_ends()
    ensures world { SettlingKeepsWorld }
    ensures ends { SettlingEnds }
    ensures enough { MoreRoundsAreNone }
    ensures still { SettledIsStill }
{}

/// A world is settled where all replicas show equal counts, and replicas of the same events answer every object alike.
pub fn replicas_show_what_they_have()
    ensures settled { SettledIsEqualCounts }
    ensures answers { SameEventsAnswerAlike }
{}

/// A member lags exactly where an own message of the replica is unstable, and it is another member.
pub fn a_member_lags_where_a_message_is_unstable()
    ensures none { NoneLagsIsAllStable }
    ensures another { LaggingIsAnother }
{}

/// Journals that grow, and then grow again, have grown; and they are still such as those of one store can be.
pub fn journals_grow_on()
    ensures twice { GrowingGoesOn }
    ensures journals { GrownAreJournals }
{}
