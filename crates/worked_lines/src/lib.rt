//! Further worked transcripts, each for what those of `script_net` leave open: a definition that said something else would give
//! another text here.
#![tactic(auto)]

mod worked;

pub use worked::{
    a_resend_is_kept, an_element_is_taken_out, lines_are_read, lines_end_by_newlines,
    stable_counts_are_shown, the_higher_member_is_first,
};
