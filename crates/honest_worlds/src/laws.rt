//! Laws of honest worlds. Each is the contract of a function that does nothing.

ghost use Rattle.honest_worlds.specs.Laws.{OpeningIsHonest, CommandsKeepHonest, OfferingSentKeepsHonest, SentIsNear, DeliverableIsAdmissible, StepsDeliver, ResentStepsDeliver, HappenedBeforeIsEventOrder, StableIsCausallyStable, StableIsEverywhere, StillRoundSettles, SettlingSettles, SettledLogsAreEmpty, RegroupingIsPossible, RegroupingKeepsHonest, EqualCountsAreEqualEvents, NoBeatIsHeld, NoopsAreFew, SentNotesAreOwn, SentAreNumbered, OthersWereKept, LegalKeepsRule, JournalsAreHonest, JournalsHaveNoCrook};
ghost use Rattle.honest_worlds.specs.Stops.{KeptIsHonest, OpeningIsKept, LocalIsKept, BeatIsKept, GiveIsKept, StopIsKept};

/// A store begins honest, and every command but one of bytes keeps it so.
pub fn worlds_stay_honest()
    ensures opening { OpeningIsHonest }
    ensures commands { CommandsKeepHonest }
    ensures regrouping { RegroupingKeepsHonest }
    ensures offering { OfferingSentKeepsHonest }
{}

/// No message that was sent is far or crooked, at any front of any history; so each step delivers.
pub fn what_was_sent_is_delivered()
    ensures near { SentIsNear }
    ensures admissible { DeliverableIsAdmissible }
    ensures steps { StepsDeliver }
    ensures resent { ResentStepsDeliver }
{}

/// What timestamps tell of which event happened before which is the order of events, which reads no timestamp.
pub fn the_order_of_timestamps_is_that_of_events()
    ensures { HappenedBeforeIsEventOrder }
{}

/// What is stable at a replica is causally stable there, in a world with forged frames too; in an honest one it is in every
/// history.
pub fn stable_is_causally_stable()
    ensures later { StableIsCausallyStable }
    ensures everywhere { StableIsEverywhere }
{}

/// Settling brings every message everywhere. Where no member has then reached the limit, every operation is stable and every
/// log empty.
pub fn settling_settles()
    ensures still { StillRoundSettles }
    ensures settles { SettlingSettles }
    ensures logs { SettledLogsAreEmpty }
    ensures regroups { RegroupingIsPossible }
    ensures equal { EqualCountsAreEqualEvents }
{}

/// No more own no-ops are unstable than two windows for each other member, less one window; so no beat is held.
pub fn no_beat_is_held()
    ensures noops { NoopsAreFew }
    ensures held { NoBeatIsHeld }
{}

/// What a legal journal's notes tell of its replay.
pub fn journals_tell_what_was_sent()
    ensures own { SentNotesAreOwn }
    ensures numbered { SentAreNumbered }
    ensures others { OthersWereKept }
    ensures rule { LegalKeepsRule }
{}

/// Journals whose kept messages stand as sent in those of their origins give an honest world, and none has a crook.
pub fn closed_journals_are_honest()
    ensures honest { JournalsAreHonest }
    ensures straight { JournalsHaveNoCrook }
{}

/// What each command keeps of a plain keep world, a stop among them: it is honest, and the world that the notes kept give.
pub fn stops_keep_worlds_honest()
    ensures honest { KeptIsHonest }
    ensures opening { OpeningIsKept }
    ensures local { LocalIsKept }
    ensures beat { BeatIsKept }
    ensures give { GiveIsKept }
    ensures stop { StopIsKept }
{}
