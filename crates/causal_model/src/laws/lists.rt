//! Laws of the elements of lists, and of what is kept of them.

ghost use Rattle.causal_model.specs.Laws.Lists.{LowerRankBefore, RanksDiffer, ElementsOfOneMore, KeptOfOneMore, KeptMovesByEntry, KeptIsPruned, PrunedInFront, PrunedBehind, KeptIdsDiffer, OthersMoveNothing, NewIdIsFresh, NoListsYet, RegroupKeepsLists, ValuesFromKept, IdsFromKept, OwnEntriesTell, TombsFromKept};

/// Of two events one of which happened before the other, that has the lower rank; no two events of a history have one rank.
pub fn ranks_rise()
    ensures lower { LowerRankBefore }
    ensures apart { RanksDiffer }
{}

/// What one message more makes of the elements of a list and of the kept ones, from these and the log alone.
pub fn elements_of_one_message_more()
    ensures elements { ElementsOfOneMore }
    ensures kept { KeptOfOneMore }
    ensures by_entry { KeptMovesByEntry }
    ensures pruned { KeptIsPruned }
    ensures in_front { PrunedInFront }
    ensures behind { PrunedBehind }
    ensures differ { KeptIdsDiffer }
    ensures others { OthersMoveNothing }
    ensures fresh { NewIdIsFresh }
{}

/// Nothing is kept of a list before the first message, and the end of an epoch leaves what is kept.
pub fn lists_stay_over_epochs()
    ensures none { NoListsYet }
    ensures regroup { RegroupKeepsLists }
{}

/// What is asked of a list comes from its kept elements and the log.
pub fn lists_come_from_kept_elements()
    ensures values { ValuesFromKept }
    ensures ids { IdsFromKept }
    ensures tombs { TombsFromKept }
    ensures own { OwnEntriesTell }
{}
