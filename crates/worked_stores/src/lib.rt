//! Further worked stores and histories, each for what the others leave open: a definition that said something else would give
//! another result here. The definitions are those of `causal_model` and `world_model`.
#![tactic(auto)]

mod worked;

pub use worked::{
    a_dropped_message_moves_no_round, a_member_keeps_what_it_has, a_message_is_given_by_its_number,
    an_epoch_ends_once_all_is_stable, an_outbox_is_kept_by_its_first_message, epochs_are_apart,
};
