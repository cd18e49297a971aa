//! Replicated lists.
#![tactic(auto)]

mod asking;
mod chain;
mod deletions;
mod head;
mod laws;
mod lists;
mod putting;
mod removals;
mod taking;
mod tree;
mod walk;

pub use chain::Chains;
pub use laws::{
    depths_tell_what_is_kept, kept_is_told_from_the_end, nodes_are_put_past_higher_ones,
    nodes_leave_once,
};
pub use lists::Lists;
pub use tree::{Node, mark_gone, trim};
pub use walk::past;
