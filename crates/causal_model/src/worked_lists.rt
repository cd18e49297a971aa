//! Worked lists: that the definitions mean what was meant. Each is the contract of a function that does nothing.

ghost use Rattle.causal_model.specs.WorkedLists.{PutBehindOne, DeletedAndCleared, AllSettled, MarkedWhileNeeded, Tree, ListsOverEpochs};

/// What was put behind one element later comes first, at both members.
pub fn later_elements_come_first()
    ensures { PutBehindOne }
{}

/// An element that is deleted while another is put behind it is a tomb; a clear takes all out.
pub fn deleted_elements_are_tombs()
    ensures { DeletedAndCleared }
{}

/// Once all that was deleted is stable, nothing is kept.
pub fn nothing_is_kept_of_what_is_settled()
    ensures { AllSettled }
{}

/// A deleted element stays while others stand behind it.
pub fn an_element_stays_for_those_behind_it()
    ensures { MarkedWhileNeeded }
{}

/// Of those that were put behind one element, a later one stands first, with all that was put behind it.
pub fn an_order_walks_the_tree()
    ensures { Tree }
{}

/// Elements of earlier epochs stand, under their ids.
pub fn elements_outlive_their_epoch()
    ensures { ListsOverEpochs }
{}
