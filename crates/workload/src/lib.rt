//! Made scripts, and the summary of what comes of one.
//!
//! A script is drawn from a seed by a linear congruential generator, as textbooks have it, so that the same numbers give
//! the same script on every machine. What is drawn and how it is summed up is this project's own profile.
#![tactic(auto)]

mod draws;
mod kind;
mod laws;
mod script;
mod summary;

pub use laws::made_scripts_begin_with_a_header;
pub use script::make;
pub use summary::put_summary;
