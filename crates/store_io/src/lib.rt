//! Where bytes come from and go to: sources, sinks and gates, in memory and at the standard
//! streams; and keepers, whose bytes outlive a stop.
#![tactic(auto)]

mod counts;
mod gates;
mod keeper;
mod memory;
mod memory_keeper;
mod past;
mod standard;
mod steady;
mod steady_keeper;
mod traits;

pub use gates::{Gate, OpenGate};
pub use keeper::{Keeper, append_synced};
pub use memory::{MemorySink, MemorySource};
pub use memory_keeper::MemoryKeeper;
pub use standard::{StdinSource, StdoutSink};
pub use steady::SteadySource;
pub use steady_keeper::SteadyKeeper;
pub use traits::{Failed, Sink, Source, write_whole};
