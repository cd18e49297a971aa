//! A replica with a journal: what each of its calls leaves behind is noted, and the replica stands for the replay of the
//! notes.
//!
//! A replica forgets what its history was; its journal, which it never reads, tells it. Journals and their groups are this
//! project's own profile.
#![tactic(auto)]

mod count;
mod epochs;
mod journal;
mod node;
mod noting;
mod recorder;

pub use count::AskCount;
pub use journal::Journal;
pub use node::Node;
pub use recorder::Recorder;
