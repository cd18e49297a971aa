//! A script, run line by line on a world: what is replied is the reply of the plain world, which keeps every message. Its bytes
//! may come in pieces.
//!
//! Scripts are this project's own profile.
#![tactic(auto)]

mod feed;
mod keep;
pub mod laws;
mod line;
mod reply;
mod runner;
pub mod worked;

pub use feed::{Feed, Stage, Stop, transcript};
pub use line::{split_line, without_return};
pub use runner::{AnyWorld, Runner};
