//! Laws of the states that a replica can be in, of the steps of receiving, of journals and of the end of an epoch.

ghost use Rattle.causal_model.specs.Laws.States.{StepsOfNone, StepsOfOneMore, NoneIsNextAfterSteps, StepsTakeMessagesOut, NextIsOfTheLowest, EqualSetsAreEqualLists, EarlyIsBounded, AllEarlyIsBounded, StartIsState, StepKeepsState, AcceptKeepsState, OwnKeepsState, RegroupKeepsState, SendingReplays, BeatingReplays, ReceivingReplays, GroupKeepsState, GroupsGrow};
ghost use Rattle.causal_model.specs.Laws.States.{LegalIsState, LegalGrows, SendingNotesOneGroup, BeatingNotesOneGroup, ReceivingNotesOneGroup, RegroupKeepsEvents, RegroupKeepsItems};

/// The steps of receiving go on, one after the other, until no early message can be delivered, and each takes one out.
pub fn steps_end()
    ensures none { StepsOfNone }
    ensures one_more { StepsOfOneMore }
    ensures end { NoneIsNextAfterSteps }
    ensures fewer { StepsTakeMessagesOut }
{}

/// Early messages are one list, bounded by the windows, of which the lowest member's is taken first.
pub fn early_messages_are_one_list()
    ensures lowest { NextIsOfTheLowest }
    ensures equal { EqualSetsAreEqualLists }
    ensures bounded { EarlyIsBounded }
    ensures all_bounded { AllEarlyIsBounded }
{}

/// A replica begins in a state, and what its calls do leaves it in one.
pub fn calls_keep_states()
    ensures start { StartIsState }
    ensures step { StepKeepsState }
    ensures accept { AcceptKeepsState }
    ensures own { OwnKeepsState }
    ensures regroup { RegroupKeepsState }
{}

/// What calls note replays to the state that they leave, groups of notes can be put after each other, and legal notes
/// give a state.
pub fn journals_are_of_groups()
    ensures sending { SendingReplays }
    ensures beating { BeatingReplays }
    ensures receiving { ReceivingReplays }
    ensures keeps { GroupKeepsState }
    ensures grow { GroupsGrow }
    ensures legal { LegalIsState }
    ensures legal_grows { LegalGrows }
{}

/// What a call notes is empty or one group.
pub fn calls_note_one_group()
    ensures sending { SendingNotesOneGroup }
    ensures beating { BeatingNotesOneGroup }
    ensures receiving { ReceivingNotesOneGroup }
{}

/// The end of an epoch keeps events and answers, and where every operation is stable the settled items; it leaves an
/// empty log.
pub fn the_end_of_an_epoch_keeps_events()
    ensures events { RegroupKeepsEvents }
    ensures items { RegroupKeepsItems }
{}
