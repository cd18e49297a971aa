//! Laws of the messages that a member delivers in an epoch.

ghost use Rattle.causal_model.specs.Laws.Delivery.{NothingYet, ChapterGrows, OwnMessageIsNext, OwnMessageIsCarried, NumbersAreCounted, CountsAreWithin, CountsAlone, NoneUnstableAlone, IdsAreApart, ChapterIsBounded, NeverBeforeItself, OrderIsTransitive, OrderIsAsymmetric, OrderGoesForward, StableStays, NextIsAfterStable, FewAreUnstable, LogIsBounded};
ghost use Rattle.causal_model.specs.Laws.Delivery.{WindowTellsUnclosed, SeenBeforeIsClosed, UnstableOfOneMore, UnstableAreNumbered, StableIsCounted, FoundByNumber, RoomForNext, NextFollowsUnstable, LogHasRoom, CountsOfOneMore, LastOfOneMore, KnownOfOneMore, StableOfOneMore, UncoveredOfOneMore, LogOfOneMore, OutboxOfOneMore, DueOfOneMore, CoversOneObject, CoversKeptAlone, CoversTransitively};

/// Before anything was delivered, what is computed of the messages is zeros or nothing.
pub fn nothing_was_delivered_yet()
    ensures { NothingYet }
{}

/// A chapter grows by its next message.
pub fn a_chapter_grows()
    ensures { ChapterGrows }
{}

/// Where there is room, a member's own message is the next that it delivers, and can be carried.
pub fn own_messages_are_next()
    ensures next { OwnMessageIsNext }
    ensures carried { OwnMessageIsCarried }
{}

/// No number of a message is above the count of its origin, no count above the limit, and a chapter is no longer than the
/// limit for each member.
pub fn a_chapter_is_bounded()
    ensures numbers { NumbersAreCounted }
    ensures counts { CountsAreWithin }
    ensures length { ChapterIsBounded }
{}

/// In a store of one member the count is the number of messages, and no operation is unstable.
pub fn one_member_alone()
    ensures counts { CountsAlone }
    ensures unstable { NoneUnstableAlone }
{}

/// No two messages of a chapter have one id.
pub fn ids_are_apart()
    ensures { IdsAreApart }
{}

/// The order of messages is strict, transitive and forward in every chapter, whatever bytes came.
pub fn messages_are_ordered()
    ensures irreflexive { NeverBeforeItself }
    ensures transitive { OrderIsTransitive }
    ensures asymmetric { OrderIsAsymmetric }
    ensures forward { OrderGoesForward }
{}

/// What is stable stays stable, and what comes next happened after it.
pub fn stable_messages_stay_behind()
    ensures stays { StableStays }
    ensures behind { NextIsAfterStable }
{}

/// No member has more unstable messages than its windows have, so a log is bounded; and each has room for the next one.
pub fn windows_bound_what_is_kept()
    ensures unstable { FewAreUnstable }
    ensures log { LogIsBounded }
    ensures next { RoomForNext }
    ensures log_of_next { LogHasRoom }
{}

/// The unstable messages tell why a message is crooked, as all messages do.
pub fn unstable_messages_tell_a_crook()
    ensures unclosed { WindowTellsUnclosed }
    ensures seen { SeenBeforeIsClosed }
    ensures unstable { UnstableOfOneMore }
{}

/// The unstable messages of a member are numbered one after the other, and so are found by their numbers; the next
/// message follows them.
pub fn unstable_messages_are_numbered()
    ensures numbered { UnstableAreNumbered }
    ensures counted { StableIsCounted }
    ensures found { FoundByNumber }
    ensures next { NextFollowsUnstable }
{}

/// What each definition that a replica keeps step by step becomes by one message more.
pub fn one_message_more()
    ensures counts { CountsOfOneMore }
    ensures last { LastOfOneMore }
    ensures known { KnownOfOneMore }
    ensures stable { StableOfOneMore }
    ensures uncovered { UncoveredOfOneMore }
    ensures log { LogOfOneMore }
    ensures outbox { OutboxOfOneMore }
    ensures due { DueOfOneMore }
{}

/// The table of what is logged and covered meets the laws of a rule.
pub fn the_table_meets_the_laws_of_rules()
    ensures one_object { CoversOneObject }
    ensures kept_alone { CoversKeptAlone }
    ensures transitive { CoversTransitively }
{}
