//! The live mode: clients and couriers of a store at work in threads, and the text of what came of it.
#![tactic(auto)]

mod boxes;
mod client;
mod closed;
mod courier;
mod input;
mod jobs;
mod joining;
mod laws;
mod letter;
mod mode;
mod objects;
mod opening;
mod posting;
mod returned;
mod run;
mod text;
mod told;
mod workers;

pub use client::{Client, make_commands};
pub use closed::close_joined;
pub use courier::{Courier, carry_letters};
pub use input::NumberedLine;
pub use joining::Back;
pub use laws::{a_run_is_worked, what_was_posted_was_sent, what_workers_did_is_a_run};
pub use letter::Letter;
pub use mode::live;
pub use posting::{post_at, take_at};
pub use text::put_live_text;
pub use told::{ClientDone, ClientStopped, CourierDone, Told};
pub use workers::{Done, Job, Plan, work_all};
