//! Passes are joined.

ghost use Rattle.std.specs.Prelude.{◌≡◌, ◌<◌, ℕ, [], ◌∷◌, length, All, slice_index_or};
ghost use Rattle.live_run.specs.Joining.{AreOut, IsBack, take_back, taken_back};

use replica_lock::{Opener, Pass, SharedNode};

/// A pass that came back, and the place of its node.
#[derive(Drop)]
pub struct Back {
    pub at: usize,
    pub pass: Pass,
}

/// Joins a pass to its opener.
fn join_one(nodes: &[SharedNode], openers: &mut [Opener], back: Back)
    requires back { IsBack nodes.now back }
    requires out { (rest : _) × AreOut nodes.now openers.old (back ∷ rest) }
    ensures out { (rest : _) → AreOut nodes.now openers.old (back ∷ rest) → AreOut nodes.now openers.new rest }
    ensures taken { (r : ℕ) (e : _) → r < length nodes.now → slice_index_or openers.new r e ≡ take_back r back (slice_index_or openers.old r e) }
{
    let Back { at, pass } = back;
    nodes[at].join(&mut openers[at], pass);
}

/// Joins all passes.
pub(crate) fn join_all(nodes: &[SharedNode], openers: &mut [Opener], backs: Vec<Back>)
    requires backs { All (IsBack nodes.now) backs.items }
    requires out { AreOut nodes.now openers.old backs.items }
    ensures out { AreOut nodes.now openers.new [] }
    ensures taken { (r : ℕ) (e : _) → r < length nodes.now → slice_index_or openers.new r e ≡ taken_back r backs.items (slice_index_or openers.old r e) }
{
    for back in backs {
        join_one(nodes, openers, back);
    }
}
