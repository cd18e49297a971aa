//! Laws of the definitions, each the contract of a function that does nothing: what holds of every chapter, state, history,
//! cell and answer. The parts of a replica stand on them.

mod answers;
mod cells;
mod delivery;
mod events;
mod lists;
mod states;

pub use answers::{answers_come_from_parts, sums_are_bounded, values_are_exactly_those_that_pass};
pub use cells::{cells_of_one_message_more, items_are_the_cells, items_with_equal_cells_are_equal};
pub use delivery::{
    a_chapter_grows, a_chapter_is_bounded, ids_are_apart, messages_are_ordered,
    nothing_was_delivered_yet, one_member_alone, one_message_more, own_messages_are_next,
    stable_messages_stay_behind, the_table_meets_the_laws_of_rules, unstable_messages_are_numbered,
    unstable_messages_tell_a_crook, windows_bound_what_is_kept,
};
pub use events::{
    answers_are_of_uncovered_events, equal_events_answer_alike, events_are_ordered,
    maximal_events_are_there, one_event_more,
};
pub use lists::{
    elements_of_one_message_more, lists_come_from_kept_elements, lists_stay_over_epochs, ranks_rise,
};
pub use states::{
    calls_keep_states, calls_note_one_group, early_messages_are_one_list, journals_are_of_groups,
    steps_end, the_end_of_an_epoch_keeps_events,
};
