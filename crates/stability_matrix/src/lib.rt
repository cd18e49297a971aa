//! What a replica knows that each member has: a matrix of timestamps, and the least of each of its columns.
//!
//! Matrices of timestamps are the textbook's; that messages are stable where every row has them is as in Baquero, Almeida
//! and Shoker (arXiv 1710.04469).
#![tactic(auto)]

mod columns;
mod matrix;

pub use matrix::Matrix;
