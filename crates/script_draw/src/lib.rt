//! Pictures and tables of a script's run.
//!
//! A picture is a space-time diagram as SVG: a line a replica, time to the right, operations and no-ops, deliveries as
//! arrows from where a message was sent, and answers and refusals below. The script runs line by line on the store's own
//! runner. First all marks of the picture are listed, and then they are written as text.
#![tactic(auto)]

mod drawing;
mod escape;
mod event;
mod label;
mod plan;
mod play;
mod replies;
mod rows;
mod script;
mod shapes;

pub use drawing::picture;
pub use escape::put_escaped;
pub use plan::MOST_MARKS;
pub use rows::{MOST_ROWS, table};
pub use script::DrawFault;
