//! What the queries of the store's kinds share: whether a value is in an object, and which values are, from the entries of
//! one object and its settled items alone.
//!
//! That an answer is read from the log and the plain state together is the idea of Baquero, Almeida and Shoker
//! (arXiv 1710.04469); the kinds' queries are this project's own profile.
#![tactic(auto)]

mod found;
mod grouping;
mod heads;
mod listing;
mod marks;
mod membership;
mod piles;

pub use listing::values;
pub use membership::has;
