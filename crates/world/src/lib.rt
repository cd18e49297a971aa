//! A world: the nodes of all members of a store, and the frames of all that they sent. It shows the plain world, whose replicas
//! keep every message: each call's answer and effect are those of the plain world that it shows.
//!
//! What calls there are, and settling by rounds, is this project's own profile.
#![tactic(auto)]

mod brief;
mod closed;
mod frames;
mod giving;
mod lagging;
mod offering;
mod regrouping;
mod sending;
mod settling;
mod world;

pub use brief::{Brief, brief_of};
pub use frames::FrameRow;
pub use world::{FrameTable, NodeList, World, empty_rows};
pub use world_model::{Given, RawGot, Regroup, Resent, Settle};
