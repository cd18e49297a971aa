//! That what no script calls answers where there is memory: a replica and a world that hand out a copy of what they send.

ghost use Rattle.std.specs.Prelude.{◌≡◌, ◌<◌, length, IfOk, IsTrue};
ghost use Rattle.op_base.specs.Message.{fits};
ghost use Rattle.causal_model.specs.Counts.{is_carried};

use op_base::{Act, Message, ObjectId, Op, Tag, Update, operations_are_valid};
use replica_core::{Beat, Local, Receive, Replica};
use std::alloc::Global;
use std::test::Fail;
use world::World;

/// The update that adds 5 to a counter.
fn update(alloc: Global) -> Result<Update, Fail> {
    let counter = ObjectId::read(alloc, b"counter:a")?;
    Ok(Update::new(counter, Act::Inc(5))?)
}

/// The first message of member 1 of two, by this update.
fn message(alloc: Global) -> Result<Message, Fail>
    ensures fits { IfOk result (λ m. IsTrue (fits 2 m)) }
    ensures carried { IfOk result (λ m. IsTrue (is_carried 10 m)) }
{
    let mut tag = Tag::zero(2);
    tag.set(1, 1);
    let op = Op::Update(update(alloc)?);
    operations_are_valid(&op);
    Ok(Message { origin: 1, tag, op })
}

/// Whether a replica takes a message in.
fn takes(alloc: Global, replica: &mut Replica, message: Message) -> bool
    requires fits { IsTrue (fits replica.old.n message) }
    requires carried { IsTrue (is_carried replica.old.limit message) }
{
    matches!(replica.receive(alloc, message), Receive::Took(_))
}

/// Whether a replica sends this update.
fn sends(alloc: Global, replica: &mut Replica, update: &Update) -> bool {
    matches!(replica.local(alloc, update), Local::Sent(_))
}

/// Whether a replica confirms what it took in.
fn confirms(alloc: Global, replica: &mut Replica) -> bool {
    matches!(replica.beat(alloc), Beat::Sent(_))
}

#[test]
fn a_replica_hands_out_what_it_sends(rt: HostRuntime) -> Result<(), Fail> {
    let alloc = rt.alloc();
    let mut replica = Replica::create(alloc, 0, 2, 1, 10)?;
    let message = message(alloc)?;
    let update = update(alloc)?;
    assert!(rt; takes(alloc, &mut replica, message));
    assert!(rt; confirms(alloc, &mut replica));
    assert!(rt; sends(alloc, &mut replica, &update));
    Ok(())
}

/// Whether the first replica of a world sends this update.
fn world_sends(alloc: Global, world: &mut World, update: &Update) -> bool
    requires { 0 < length world.old.nodes.items }
{
    matches!(world.local(alloc, 0, update), Local::Sent(_))
}

#[test]
fn a_world_hands_out_what_it_sends(rt: HostRuntime) -> Result<(), Fail> {
    let alloc = rt.alloc();
    let mut world = World::create(alloc, 1, 1, 9)?;
    let update = update(alloc)?;
    assert!(rt; world_sends(alloc, &mut world, &update));
    Ok(())
}
