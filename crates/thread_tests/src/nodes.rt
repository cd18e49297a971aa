//! What no clause says of a node under a lock: that the turns of two threads come.

ghost use Rattle.std.specs.Prelude.{◌≡◌, IfOk};

use op_base::{Act, Key, Kind, ObjectId, Update};
use replica_lock::{Pass, SharedNode};
use std::alloc::Global;
use std::sync::Wait;
use std::test::Fail;
use std::thread;
use store_io::OpenGate;
use turn_lock::Visit;

fn counter_a(alloc: Global) -> Result<ObjectId, Fail>
    ensures { IfOk result (λ object. object.kind ≡ Kind.Counter) }
{
    Ok(ObjectId {
        kind: Kind::Counter,
        key: Key::read(alloc, b"a")?,
    })
}

fn inc(alloc: Global, amount: u32) -> Result<Update, Fail> {
    Ok(Update::new(counter_a(alloc)?, Act::Inc(amount))?)
}

/// So many increments of one thread, by one at a time.
fn add_often<R: Wait>(
    rt: &R,
    alloc: Global,
    node: &SharedNode,
    mut pass: Pass,
    update: &Update,
) -> Pass
    requires lock { pass.lock ≡ node.now }
    ensures lock { result.lock ≡ node.now }
{
    for call in 0..100 {
        let visit = Visit {
            gate: &OpenGate,
            worker: 0,
            call,
        };
        node.local(rt, alloc, &mut pass, update, &visit);
    }
    pass
}

#[test]
fn two_threads_send_a_hundred_updates_each(rt: HostRuntime) -> Result<(), Fail> {
    let alloc = rt.alloc();
    let one = inc(alloc, 1)?;
    let many = inc(alloc, 1000)?;
    let object = counter_a(alloc)?;
    let (node, mut opener) = SharedNode::create(alloc, 0, 1, 1, 1000)?;
    let first = node.split(&mut opener);
    let second = node.split(&mut opener);
    let (first, second) = thread::join(
        &rt,
        || add_often(&rt, alloc, &node, first, &one),
        || add_often(&rt, alloc, &node, second, &many),
    );
    node.join(&mut opener, first);
    node.join(&mut opener, second);
    let node = node.close(opener);
    assert_eq!(rt; node.places(), 200);
    assert_eq!(rt; node.replica().count(&object), 100_100);
    Ok(())
}
