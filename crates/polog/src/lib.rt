//! The log of a replica: what is neither stable nor covered, grouped by object.
//!
//! That a log is pruned by what makes its entries redundant, and stripped of what is stable, is the partially ordered log
//! of Baquero, Almeida and Shoker (arXiv 1710.04469).
#![tactic(auto)]

mod guesses;
mod idle;
mod ids;
mod laws;
mod leaving;
mod marks;
mod placing;
mod polog;
mod reach;
mod rows;
mod search;
mod sweep;

pub use laws::{
    a_pruned_log_has_room, what_is_logged_can_be_stripped, what_is_not_kept_changes_nothing,
};
pub use polog::Polog;
pub use reach::Reach;
