//! The definitions that the store is measured by, and the laws that hold of them.
//!
//! They speak of whole histories: nothing is pruned, and no matrix, mark or log is kept. Causal delivery and
//! stability are those of Baquero, Almeida and Shoker (arXiv 1710.04469) with textbook vector timestamps; the
//! sending rule, its window and the kinds' queries are this project's own profile.
#![tactic(auto)]

mod items;
mod laws;
mod note;
mod outcome;
mod room;
mod rule;
mod worked;
mod worked_lists;

pub use items::ItemView;
pub use laws::{
    a_chapter_grows, a_chapter_is_bounded, answers_are_of_uncovered_events,
    answers_come_from_parts, calls_keep_states, calls_note_one_group, cells_of_one_message_more,
    early_messages_are_one_list, elements_of_one_message_more, equal_events_answer_alike,
    events_are_ordered, ids_are_apart, items_are_the_cells, items_with_equal_cells_are_equal,
    journals_are_of_groups, lists_come_from_kept_elements, lists_stay_over_epochs,
    maximal_events_are_there, messages_are_ordered, nothing_was_delivered_yet, one_event_more,
    one_member_alone, one_message_more, own_messages_are_next, ranks_rise,
    stable_messages_stay_behind, steps_end, sums_are_bounded, the_end_of_an_epoch_keeps_events,
    the_table_meets_the_laws_of_rules, unstable_messages_are_numbered,
    unstable_messages_tell_a_crook, values_are_exactly_those_that_pass, windows_bound_what_is_kept,
};
pub use note::Note;
pub use outcome::{Beat, Local, Receive, Refusal};
pub use room::{MOST_LIMIT, MOST_WINDOW, most_noops, most_unstable};
pub use rule::TypeRule;
pub use worked::{
    a_clear_leaves_a_concurrent_amount, a_clear_voids_a_stable_remove,
    a_counter_goes_on_in_the_next_epoch, a_journal_is_made_of_whole_groups,
    a_journal_replays_over_epochs, a_journal_replays_to_its_state, a_kind_of_flag_says_what_wins,
    a_log_has_what_is_not_known_everywhere, a_log_has_what_its_kind_keeps,
    a_message_is_kept_up_to_the_windows, a_no_op_is_due_after_an_operation,
    a_register_has_each_concurrent_value_once, a_remove_of_the_next_epoch_is_after_all,
    a_remove_wins_over_a_concurrent_add, a_sum_of_nothing_is_no_item,
    an_act_covers_what_its_kind_says, an_add_after_each_remove_puts_back,
    an_add_wins_over_a_concurrent_remove, an_early_message_is_taken_with_its_cause,
    an_item_can_have_both_marks, crooked_messages_are_told_with_their_numbers,
    messages_are_seen_or_concurrent, no_ops_are_held_at_their_window,
    operations_wait_for_their_window, the_lowest_member_is_taken_first,
    what_was_concurrent_stays_so,
};
pub use worked_lists::{
    an_element_stays_for_those_behind_it, an_order_walks_the_tree, deleted_elements_are_tombs,
    elements_outlive_their_epoch, later_elements_come_first, nothing_is_kept_of_what_is_settled,
};
