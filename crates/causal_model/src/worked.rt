//! Worked histories: that the definitions mean what was meant. Each is the contract of a function that does nothing.

ghost use Rattle.causal_model.specs.Table.{CoveringTable};
ghost use Rattle.causal_model.specs.Worked.{BeforeAndConcurrent, AddWins, StableAndLog, RemoveWins, AddAfterBothRemoves, StableRemoveIsVoided, BothMarks, ConcurrentFlags, ConcurrentWrites, ConcurrentClear, SettledCounters, LoggedByKind, TakenWithItsCause, JournalReplays, KeptUpToTheWindows, LowestMemberFirst, Crooks, BusyUntilStable, NoOpsDue, HeldAfterThree, LegalJournals, RemovedInTheNextEpoch, ConcurrentInThePast, ClearedInTheNextEpoch, EpochsReplay};

/// A message happened before those whose senders had it, and not before itself.
pub fn messages_are_seen_or_concurrent()
    ensures { BeforeAndConcurrent }
{}

/// An add that is concurrent with a remove wins in an add-wins set.
pub fn an_add_wins_over_a_concurrent_remove()
    ensures { AddWins }
{}

/// What is stable, logged, settled and sent again at two members that differ in what they know.
pub fn a_log_has_what_is_not_known_everywhere()
    ensures { StableAndLog }
{}

/// A remove that is concurrent with an add wins in a remove-wins set.
pub fn a_remove_wins_over_a_concurrent_add()
    ensures { RemoveWins }
{}

/// A value is in a remove-wins set where each remove has an add after it.
pub fn an_add_after_each_remove_puts_back()
    ensures { AddAfterBothRemoves }
{}

/// A clear voids a remove that is stable, and not an add that the clear hasn't seen.
pub fn a_clear_voids_a_stable_remove()
    ensures { StableRemoveIsVoided }
{}

/// An item can have both marks, of an add and a remove that are settled while an add is pending.
pub fn an_item_can_have_both_marks()
    ensures { BothMarks }
{}

/// Of a concurrent enable and disable the enable wins in one kind of flag, the disable in the other.
pub fn a_kind_of_flag_says_what_wins()
    ensures { ConcurrentFlags }
{}

/// A register has the values of concurrent writes, in byte order and each once.
pub fn a_register_has_each_concurrent_value_once()
    ensures { ConcurrentWrites }
{}

/// A clear leaves what it hasn't seen.
pub fn a_clear_leaves_a_concurrent_amount()
    ensures { ConcurrentClear }
{}

/// The item of a counter has its sum, and there is none where that is 0.
pub fn a_sum_of_nothing_is_no_item()
    ensures { SettledCounters }
{}

/// A log has what its kind keeps, until a later operation covers it.
pub fn a_log_has_what_its_kind_keeps()
    ensures { LoggedByKind }
{}

/// The table of which act covers which, for all acts of each kind.
pub fn an_act_covers_what_its_kind_says()
    ensures { CoveringTable }
{}

/// A message that comes before its cause is early, and is taken with it.
pub fn an_early_message_is_taken_with_its_cause()
    ensures { TakenWithItsCause }
{}

/// What receiving leaves in a journal replays to the state that it left.
pub fn a_journal_replays_to_its_state()
    ensures { JournalReplays }
{}

/// A message that is ahead by the two windows is kept, and the one after it is far.
pub fn a_message_is_kept_up_to_the_windows()
    ensures { KeptUpToTheWindows }
{}

/// Of early messages that can be delivered at once that of the lowest member is taken first.
pub fn the_lowest_member_is_taken_first()
    ensures { LowestMemberFirst }
{}

/// The four causes of a crook, with the numbers that they carry; a crooked message is dropped.
pub fn crooked_messages_are_told_with_their_numbers()
    ensures { Crooks }
{}

/// An operation is sent where the window has room and the limit is not reached.
pub fn operations_wait_for_their_window()
    ensures { BusyUntilStable }
{}

/// A no-op is due after another member's operation, until an own message is sent.
pub fn a_no_op_is_due_after_an_operation()
    ensures { NoOpsDue }
{}

/// A member whose no-ops are never acknowledged sends no more than their window has.
pub fn no_ops_are_held_at_their_window()
    ensures { HeldAfterThree }
{}

/// A journal is legal where it is made of whole groups of notes, and so begins with a send or an accepted message.
pub fn a_journal_is_made_of_whole_groups()
    ensures { LegalJournals }
{}

/// What was added in an epoch that is over is in, and is removed by a remove of the next epoch, whoever sends it.
pub fn a_remove_of_the_next_epoch_is_after_all()
    ensures { RemovedInTheNextEpoch }
{}

/// What was concurrent in an epoch that is over stays so in the next one.
pub fn what_was_concurrent_stays_so()
    ensures { ConcurrentInThePast }
{}

/// A counter goes on over the end of an epoch, until a clear.
pub fn a_counter_goes_on_in_the_next_epoch()
    ensures { ClearedInTheNextEpoch }
{}

/// A journal replays over the end of an epoch.
pub fn a_journal_replays_over_epochs()
    ensures { EpochsReplay }
{}
