//! Laws of the events of a history, of their order, and of the queries that are asked of them.

ghost use Rattle.causal_model.specs.Laws.Events.{EventNeverBeforeItself, EventsAreTransitive, EventsAreAsymmetric, EventsGoForward, EventsAreApart, SomeIsMaximal, LiveGoesUp, SameEventsAnswerAlike, HasByUncovered, RCounterByUncovered, AnswersAreOfUncovered, EventsOfOneMore, UncoveredEventsOfOneMore, SettledOfOneMore, PendingOfOneMore, CounterOfOneMore, RCounterOfOneMore, PresentIsCoveredInPresent, PastIsBeforePresent, HistoryIsBounded};

/// The order of events is strict, transitive and forward in every history, and no two events are of one epoch and id.
pub fn events_are_ordered()
    ensures irreflexive { EventNeverBeforeItself }
    ensures transitive { EventsAreTransitive }
    ensures asymmetric { EventsAreAsymmetric }
    ensures forward { EventsGoForward }
    ensures apart { EventsAreApart }
    ensures past { PastIsBeforePresent }
    ensures bounded { HistoryIsBounded }
{}

/// Of each event with a property a maximal one is it or happened after it; what happened after a live event is live.
pub fn maximal_events_are_there()
    ensures maximal { SomeIsMaximal }
    ensures live { LiveGoesUp }
{}

/// Two histories of the same events answer every object alike.
pub fn equal_events_answer_alike()
    ensures { SameEventsAnswerAlike }
{}

/// Answers are those of the events that nothing covers.
pub fn answers_are_of_uncovered_events()
    ensures has { HasByUncovered }
    ensures sum { RCounterByUncovered }
    ensures answer { AnswersAreOfUncovered }
{}

/// What one message more makes of the events, of those that are uncovered, settled or pending, and of counters.
pub fn one_event_more()
    ensures events { EventsOfOneMore }
    ensures uncovered { UncoveredEventsOfOneMore }
    ensures settled { SettledOfOneMore }
    ensures pending { PendingOfOneMore }
    ensures counter { CounterOfOneMore }
    ensures rcounter { RCounterOfOneMore }
    ensures present { PresentIsCoveredInPresent }
{}
