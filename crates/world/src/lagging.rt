//! What delays a replica.

ghost use Rattle.std.specs.Prelude.{◌≡◌, ◌<◌, length, nat_lt};
ghost use Rattle.std.specs.List.{find};
ghost use Rattle.op_base.specs.Timestamp.{entry};
ghost use Rattle.causal_model.specs.Counts.{members};
ghost use Rattle.stability_matrix.specs.Rows.{row_of};
ghost use Rattle.world_model.specs.Offering.{outbox_in};
ghost use Rattle.world_model.specs.Showing.{lagging};
ghost use Rattle.world.specs.Shows.{state_of};

use replica_node::{Journal, Node};
use stability_matrix::Matrix;

/// The least member that isn't known at a node to have its oldest unstable own message, and none where all its own are
/// stable.
pub fn lagging_at(node: &Node<Journal>) -> Option<u8>
    ensures { let p = (state_of node.now).history.present in result ≡ lagging p.n p.me p.messages (outbox_in (state_of node.now)) }
{
    let replica = node.replica();
    let oldest = replica.outbox.messages().first()?;
    first_behind(&replica.matrix, replica.n, replica.me, oldest.id().seq)
}

/// The least of `n` members whose row has less than `seq` at member `me`.
fn first_behind(matrix: &Matrix, n: u8, me: u8, seq: u32) -> Option<u8>
    requires rows { length matrix.now.rows ≡ n }
    requires member { me < n }
    ensures { result ≡ find (λ q. nat_lt (entry (row_of matrix.now.rows q) me) seq) (members n) }
{
    (0..n).find(|q| matrix.row(*q).at(me) < seq)
}
