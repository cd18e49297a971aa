//! Settled items: what remains of stable operations, as a finite map in one order.
//!
//! That a stable operation loses its timestamp and becomes plain state is the idea of Baquero, Almeida and Shoker
//! (arXiv 1710.04469); the cells, and how they are moved, are this project's own profile.
#![tactic(auto)]

mod cell;
mod chunks;
mod items;
mod laws;
mod memo;
mod order;
mod rank;
mod recent;
mod shelf;
mod view;

pub use items::Items;
pub use laws::{other_messages_leave_items, sums_fit};
pub use view::ItemSpan;
