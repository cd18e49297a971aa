//! Nodes under locks, from which passes are split.

ghost use Rattle.std.specs.Prelude.{◌≡◌, ◌++◌, ◌∷◌, [], ◌<◌, ◌≤◌, List, true, length, IfOk};
ghost use Rattle.op_base.specs.declared.tag.TheConstants.{MOST_MEMBERS};
ghost use Rattle.causal_model.specs.declared.room.TheConstants.{MOST_WINDOW};
ghost use Rattle.replica_core.specs.Numbers.{are_numbers};
ghost use Rattle.turn_lock.specs.Turns.{opened};
ghost use Rattle.live_run.specs.Ended.{AreLocks};
ghost use Rattle.live_run.specs.Limits.{live_limit};
ghost use Rattle.live_run.specs.Opening.{AreOpened, IsSplitAt, job_at};
ghost use Rattle.live_run.specs.Workers.{settings_of};
ghost use Rattle.live_run.specs.declared.workers.Job.{Job as AJob};

use op_base::NoMemory;
use replica_core::CreateFault;
use replica_lock::{Opener, Pass, SharedNode};
use std::alloc::Global;

/// How many messages a member may send in a live run.
const LIMIT: u32 = 65535;

/// A node of each of `n` members, 1 to 16, with a window of 1 to 64, and their openers.
pub(crate) fn open_nodes(
    alloc: Global,
    n: u8,
    w: u8,
) -> Result<(Vec<SharedNode>, Vec<Opener>), NoMemory>
    requires few { n ≤ MOST_MEMBERS }
    requires window { 1 ≤ w }
    requires narrow { w ≤ MOST_WINDOW }
    ensures locks { IfOk result (λ made. AreLocks n w made.0.items) }
    ensures opened { IfOk result (λ made. AreOpened made.0.items made.1.items []) }
{
    let mut nodes = Vec::with_capacity(alloc, n as usize)?;
    let mut openers = Vec::with_capacity(alloc, n as usize)?;
    for me in 0..n {
        let (node, opener) = open_node(alloc, me, n, w)?;
        nodes.push(node)?;
        openers.push(opener)?;
    }
    Ok((nodes, openers))
}

/// The node of a member, and its opener.
fn open_node(alloc: Global, me: u8, n: u8, w: u8) -> Result<(SharedNode, Opener), NoMemory>
    requires numbers { are_numbers me n w live_limit ≡ true }
    ensures settings { IfOk result (λ made. made.0.key ≡ settings_of n w me) }
    ensures opener { IfOk result (λ made. made.1 ≡ opened made.0) }
{
    match SharedNode::create(alloc, me, n, w, LIMIT) {
        Ok(made) => Ok(made),
        Err(CreateFault::NoMemory) => Err(NoMemory),
        Err(CreateFault::BadNumbers) => unreachable!(),
    }
}

/// A new pass of the node at a place.
pub(crate) fn split_at(nodes: &[SharedNode], openers: &mut [Opener], at: usize) -> Pass
    requires inside { at < length nodes.now }
    requires opened { (jobs : List AJob) × AreOpened nodes.now openers.old jobs × (length jobs < 1024) }
    ensures opened { (jobs : List AJob) (job : AJob) → AreOpened nodes.now openers.old jobs → job_at job ≡ at → AreOpened nodes.now openers.new (jobs ++ job ∷ []) }
    ensures pass { IsSplitAt nodes.now at result }
{
    nodes[at].split(&mut openers[at])
}
