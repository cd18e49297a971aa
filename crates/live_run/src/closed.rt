//! Locks are closed.

ghost use Rattle.std.specs.Prelude.{◌≡◌, ◌<◌, ℕ, [], length, All, IfOk, slice_index_or};
ghost use Rattle.live_run.specs.Joining.{AreOut, IsBack, IsClosed, HaveNoted};

use crate::joining::{Back, join_all};
use op_base::NoMemory;
use replica_lock::{Opener, SharedNode};
use replica_node::{Journal, Node};
use std::alloc::Global;

/// Joins all passes and closes all nodes.
pub fn close_joined(
    alloc: Global,
    nodes: Vec<SharedNode>,
    mut openers: Vec<Opener>,
    backs: Vec<Back>,
) -> Result<Vec<Node<Journal>>, NoMemory>
    requires backs { All (IsBack nodes.items) backs.items }
    requires out { AreOut nodes.items openers.items backs.items }
    requires fresh { (r : ℕ) (e : _) → r < length nodes.items → (slice_index_or openers.items r e).own ≡ [] }
    ensures { IfOk result (λ list. HaveNoted nodes.items backs.items list.items) }
{
    join_all(&nodes, &mut openers, backs);
    close_all(alloc, nodes, openers)
}

/// Closes all nodes, of which no pass is out.
fn close_all(
    alloc: Global,
    nodes: Vec<SharedNode>,
    openers: Vec<Opener>,
) -> Result<Vec<Node<Journal>>, NoMemory>
    requires { AreOut nodes.items openers.items [] }
    ensures of_each { IfOk result (λ list. length list.items ≡ length nodes.items) }
    ensures each { IfOk result (λ list. (r : ℕ) (d : _) (e : _) (f : _) → r < length nodes.items → IsClosed (slice_index_or nodes.items r d) (slice_index_or openers.items r e) (slice_index_or list.items r f)) }
{
    let mut list = Vec::with_capacity(alloc, nodes.len())?;
    let mut rest = openers.into_iter();
    for node in nodes {
        match rest.next() {
            Some(opener) => list.push(node.close(opener))?,
            None => unreachable!(),
        }
    }
    Ok(list)
}
