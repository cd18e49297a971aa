//! Commands on a world of durable replicas, and what is replied to them.

ghost use Rattle.std.specs.Prelude.{◌≡◌, ◌<◌, IfOk, false, length, Some};
ghost use Rattle.op_base.specs.declared.name.Kind.TheVariants as kinds;
ghost use Rattle.replica_keeper.specs.Worlds.{Shown};
ghost use Rattle.script_lang.specs.Replies.{HasItsEntries};
ghost use Rattle.script_lang.specs.Ranges.{IsWithin};
ghost use Rattle.world_model.specs.Stops.{PlainKeep};
ghost use Rattle.world_model.specs.World.{size_of};
ghost use Rattle.script_net.specs.Commands.{keep_command_at};
ghost use Rattle.script_net.specs.Replied.{KeepTold};

use crate::reply::{NO_COMMAND, beat_reply, given_reply, local_reply};
use op_base::{NoMemory, ObjectId, Update};
use replica_keeper::KeepWorld;
use script_lang::{Command, Reply};
use std::alloc::Global;
use world::brief_of;

/// Runs a command. On `NoMemory` nothing is replied, and the world has ended.
///
/// Each command has a function of its own, so that none pays for what another has in its frame.
pub fn keep_reply_to(
    alloc: Global,
    world: &mut KeepWorld,
    command: &Command,
) -> Result<Reply, NoMemory>
    requires within { IsWithin (length world.old.replicas.items) command.now }
    requires goes_on { world.old.ended ≡ false }
    ensures told { (keep : PlainKeep) → Shown world.old keep → KeepTold keep command.now result world.new }
    ensures entries { IfOk result HasItsEntries }
{
    match command {
        Command::Do { r, update } => send(alloc, world, *r, update),
        Command::Ask { r, object } => ask(alloc, world, *r, object),
        Command::Beat { r } => send_noop(alloc, world, *r),
        Command::Give { r, k, s } => give(alloc, world, *r, *k, *s),
        Command::Ids { r, object } => list_ids(alloc, world, *r, object),
        Command::Tombs { r, object } => Ok(Reply::Tombs(world.tombs(*r, object))),
        Command::Log { r } => list_log(alloc, world, *r),
        Command::Size { r } => Ok(size_reply(world, *r)),
        Command::Stable { r } => Ok(stable_reply(world, *r)),
        Command::Seen { r } => Ok(seen_reply(world, *r)),
        Command::Stop { r, b } => stop(alloc, world, *r, *b),
        Command::Resend { .. }
        | Command::Raw { .. }
        | Command::Settle
        | Command::Members { .. }
        | Command::Noops { .. }
        | Command::Lags { .. } => Ok(NO_COMMAND),
    }
}

/// Replica `r` sends an update.
#[inline(never)]
fn send(alloc: Global, world: &mut KeepWorld, r: u8, update: &Update) -> Result<Reply, NoMemory>
    requires of { r < length world.old.replicas.items }
    requires goes_on { world.old.ended ≡ false }
    ensures told { (keep : PlainKeep) → Shown world.old keep → KeepTold keep (Command.Do r update.now) result world.new }
    ensures entries { IfOk result HasItsEntries }
{
    local_reply(brief_of(&world.local(alloc, r, update)))
}

/// Replica `r` answers what an object is.
#[inline(never)]
fn ask(alloc: Global, world: &mut KeepWorld, r: u8, object: &ObjectId) -> Result<Reply, NoMemory>
    requires of { r < length world.old.replicas.items }
    requires goes_on { world.old.ended ≡ false }
    ensures told { (keep : PlainKeep) → Shown world.old keep → KeepTold keep (Command.Ask r object.now) result world.new }
    ensures entries { IfOk result HasItsEntries }
{
    Ok(Reply::Is(world.answer(alloc, r, object)?))
}

/// Replica `r` sends a no-op where one is due.
#[inline(never)]
fn send_noop(alloc: Global, world: &mut KeepWorld, r: u8) -> Result<Reply, NoMemory>
    requires of { r < length world.old.replicas.items }
    requires goes_on { world.old.ended ≡ false }
    ensures told { (keep : PlainKeep) → Shown world.old keep → KeepTold keep (Command.Beat r) result world.new }
    ensures entries { IfOk result HasItsEntries }
{
    beat_reply(&world.beat(alloc, r))
}

/// Replica `r` receives message `s` of replica `k`.
#[inline(never)]
fn give(alloc: Global, world: &mut KeepWorld, r: u8, k: u8, s: u32) -> Result<Reply, NoMemory>
    requires from { k < length world.old.replicas.items }
    requires to { r < length world.old.replicas.items }
    requires goes_on { world.old.ended ≡ false }
    ensures told { (keep : PlainKeep) → Shown world.old keep → KeepTold keep (Command.Give r k s) result world.new }
    ensures entries { IfOk result HasItsEntries }
{
    given_reply(world.give(alloc, r, k, s))
}

/// The ids of a list's elements at replica `r`.
#[inline(never)]
fn list_ids(
    alloc: Global,
    world: &mut KeepWorld,
    r: u8,
    object: &ObjectId,
) -> Result<Reply, NoMemory>
    requires of { r < length world.old.replicas.items }
    requires goes_on { world.old.ended ≡ false }
    requires kind { object.now.kind ≡ kinds.List }
    ensures told { (keep : PlainKeep) → Shown world.old keep → KeepTold keep (Command.Ids r object.now) result world.new }
    ensures entries { IfOk result HasItsEntries }
{
    Ok(Reply::Ids(world.list_ids(alloc, r, object)?))
}

/// The ids of replica `r`'s log.
#[inline(never)]
fn list_log(alloc: Global, world: &mut KeepWorld, r: u8) -> Result<Reply, NoMemory>
    requires of { r < length world.old.replicas.items }
    requires goes_on { world.old.ended ≡ false }
    ensures told { (keep : PlainKeep) → Shown world.old keep → KeepTold keep (Command.Log r) result world.new }
    ensures entries { IfOk result HasItsEntries }
{
    Ok(Reply::Log(world.kept(alloc, r)?))
}

/// Replica `r` is stopped, so that `b` of its bytes outlive it behind those synced, and opened again.
#[inline(never)]
fn stop(alloc: Global, world: &mut KeepWorld, r: u8, b: u64) -> Result<Reply, NoMemory>
    requires of { r < length world.old.replicas.items }
    requires goes_on { world.old.ended ≡ false }
    ensures told { (keep : PlainKeep) → Shown world.old keep → KeepTold keep (Command.Stop r b) result world.new }
    ensures entries { IfOk result HasItsEntries }
{
    Ok(Reply::Open(world.stop(alloc, r, b)?))
}

/// How much replica `r` keeps.
fn size_reply(world: &KeepWorld, r: u8) -> Reply
    requires of { r < length world.now.replicas.items }
    requires goes_on { world.now.ended ≡ false }
    ensures reply { (keep : PlainKeep) → Shown world.now keep → Some result ≡ (keep_command_at (Command.Size r) keep).0 }
    ensures entries { HasItsEntries result }
{
    let (entries, items) = world.size(r);
    Reply::Size { entries, items }
}

/// What is stable at replica `r`.
fn stable_reply(world: &KeepWorld, r: u8) -> Reply
    requires of { r < length world.now.replicas.items }
    requires goes_on { world.now.ended ≡ false }
    ensures reply { (keep : PlainKeep) → Shown world.now keep → Some result ≡ (keep_command_at (Command.Stable r) keep).0 }
    ensures entries { HasItsEntries result }
{
    Reply::Stable {
        n: keep_members(world),
        tag: world.stable(r),
    }
}

/// What replica `r` has seen.
fn seen_reply(world: &KeepWorld, r: u8) -> Reply
    requires of { r < length world.now.replicas.items }
    requires goes_on { world.now.ended ≡ false }
    ensures reply { (keep : PlainKeep) → Shown world.now keep → Some result ≡ (keep_command_at (Command.Seen r) keep).0 }
    ensures entries { HasItsEntries result }
{
    Reply::Seen {
        n: keep_members(world),
        tag: world.seen(r),
    }
}

/// How many members a world of durable replicas has.
pub fn keep_members(world: &KeepWorld) -> u8
    requires { world.now.ended ≡ false }
    ensures replicas { result ≡ length world.now.replicas.items }
    ensures size { (keep : PlainKeep) → Shown world.now keep → result ≡ size_of keep.world }
{
    world.replicas.len() as u8
}
