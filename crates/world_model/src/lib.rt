//! The plain world: what a store is whose replicas keep every message that they deliver. Definitions alone, and their laws.
//!
//! Each command's effect and reply is a function of a plain world. The rules of a replica are those of `causal_model`; the
//! commands, and settling by rounds, are this project's own profile.
#![tactic(auto)]

mod laws;
mod outcome;
mod worked;
mod worked_epochs;
mod worked_stops;

pub use laws::{
    a_member_lags_where_a_message_is_unstable, an_opening_is_a_world, commands_keep_worlds,
    members_change_at_rest, replicas_show_what_they_have, sent_messages_are_numbered,
    settling_ends,
};
pub use outcome::{Given, RawGot, Regroup, Resent, Settle};
pub use worked::{
    a_remove_waits_for_its_add, an_add_is_given_and_asked_for, an_add_settles, bytes_are_offered,
    each_waits_for_the_other,
};
pub use worked_epochs::{
    frames_of_an_epoch_that_is_over_are_none, members_change_at_a_settled_moment,
};
pub use worked_stops::{records_are_read_up_to_the_first_fault, stops_lose_what_is_not_synced};
