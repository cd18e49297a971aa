//! That a replica, a node and a world have the fields that are named here and no others: each pattern names all.

use replica_core::Replica;
use replica_node::{Journal, Node};
use world::World;

/// The numbers of a replica. What stands for its parts is named and passed over.
fn numbers(replica: &Replica) -> (u8, u8, u8, u32, u32, bool) {
    let Replica {
        me,
        n,
        w,
        limit,
        epoch,
        counts: _,
        matrix: _,
        window: _,
        buffer: _,
        log: _,
        items: _,
        lists: _,
        outbox: _,
        due,
    } = replica;
    (*me, *n, *w, *limit, *epoch, *due)
}

/// The numbers of a node.
fn node_numbers(node: &Node<Journal>) -> (u64, (u8, u8)) {
    let Node {
        inner: _,
        journal: _,
        length,
        first,
    } = node;
    (*length, *first)
}

/// How many nodes a world has, and lists of what they sent.
fn sizes(world: &World) -> (usize, usize) {
    let World { nodes, sent } = world;
    (nodes.len(), sent.len())
}
