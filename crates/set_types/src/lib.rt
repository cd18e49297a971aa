//! What a set is: from its settled items and its entries of the log.
//!
//! That an answer is read from the log and the plain state together is the idea of Baquero, Almeida and Shoker
//! (arXiv 1710.04469); the two sets are this project's own profile.
#![tactic(auto)]

mod set;

pub use set::{set_contains, set_values};
