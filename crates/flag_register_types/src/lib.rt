//! What a flag or a register is: from its settled items and its entries of the log.
//!
//! That an answer is read from the log and the plain state together is the idea of Baquero, Almeida and Shoker
//! (arXiv 1710.04469); the flags and the register are this project's own profile.
#![tactic(auto)]

mod flag;
mod register;

pub use flag::flag_on;
pub use register::mvreg_values;
