//! Laws of answers: how they come from settled cells and the log, and how large they are.

ghost use Rattle.causal_model.specs.Laws.Answers.{UncoveredIsSettledOrPending, PendingIsLogged, HasByParts, RCounterByParts, HasFromParts, SumFromParts, ValuesRise, ValuesAreExact, OnlyNamedAreIn, OneRisingList, SumsAreBounded};
ghost use Rattle.causal_model.specs.Laws.Cells.{MovedSumsAreBounded};

/// What an object is comes from its settled cells and the entries of the log, and so from its part of a history.
pub fn answers_come_from_parts()
    ensures uncovered { UncoveredIsSettledOrPending }
    ensures logged { PendingIsLogged }
    ensures has { HasByParts }
    ensures sum { RCounterByParts }
    ensures from_parts { HasFromParts }
    ensures sum_from_parts { SumFromParts }
{}

/// The values of an answer rise, and are exactly those that pass.
pub fn values_are_exactly_those_that_pass()
    ensures rise { ValuesRise }
    ensures exact { ValuesAreExact }
    ensures named { OnlyNamedAreIn }
    ensures one_list { OneRisingList }
{}

/// Sums over the events of a history, and those of a cell on the way to the next message, fit their type by far.
pub fn sums_are_bounded()
    ensures events { SumsAreBounded }
    ensures bounded { MovedSumsAreBounded }
{}
