//! The language of scripts and of live inputs: what a line means, and the lines that replies and notes are printed as.
//!
//! The words, their order and the numbers of their faults are this project's own profile. Hexadecimal is read and
//! written by `hex`, and numbers are printed by `itoa`.
//!
//! A line is read in one pass over its bytes for its words, which are slices of it. Nothing is allocated but what the
//! command keeps. The line of a reply or of a note is put at the end of a text, which is as before where memory runs
//! out.
#![tactic(auto)]

mod act;
mod command;
mod fault;
mod header;
mod laws;
mod line;
mod listed;
mod live;
mod name;
mod note;
mod number;
mod reply;
mod word;

pub use act::read_update;
pub use command::{Command, Keyword, Line, read_keep_line, read_line};
pub use fault::{Fault, MOST_LINE_BYTES};
pub use header::{Header, Mode, USUAL_LIMIT, read_header};
pub use laws::replies_can_be_read_back;
pub use line::LineOf;
pub use listed::put_number;
pub use live::{LiveCommand, LiveLine, read_live_line};
pub use note::put_note;
pub use number::read_number;
pub use reply::{Reply, put_reply};
pub use word::{Words, is_passed_over, split};
