//! What a counter is: the sum of what its settled item and its entries of the log add.
//!
//! That an answer is read from the log and the plain state together is the idea of Baquero, Almeida and Shoker
//! (arXiv 1710.04469); the counters and their cells are this project's own profile.
#![tactic(auto)]

mod laws;
mod sum;

pub use laws::sums_of_histories_are_in_range;
pub use sum::count_sum;
