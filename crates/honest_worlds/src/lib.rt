//! Honest worlds: what stable, settled and held mean in a store where no frame was forged.
//!
//! What an honest world is, the order of events and causal stability are defined in `world_model`. Here are their laws, over
//! every world that is honest, however it came to be.
#![tactic(auto)]

mod laws;

pub use laws::{
    closed_journals_are_honest, journals_tell_what_was_sent, no_beat_is_held, settling_settles,
    stable_is_causally_stable, stops_keep_worlds_honest, the_order_of_timestamps_is_that_of_events,
    what_was_sent_is_delivered, worlds_stay_honest,
};
