//! Commands on a world, and what is replied to them.

ghost use Rattle.std.specs.Prelude.{◌≡◌, ◌<◌, ◌≤◌, IfOk, length, Some};
ghost use Rattle.op_base.specs.declared.tag.TheConstants.{MOST_MEMBERS};
ghost use Rattle.op_base.specs.declared.name.Kind.TheVariants as kinds;
ghost use Rattle.script_lang.specs.Replies.{HasItsEntries};
ghost use Rattle.script_lang.specs.Ranges.{IsWithin};
ghost use Rattle.world_model.specs.World.{PlainWorld, size_of};
ghost use Rattle.world.specs.Answers.{ShowsPlain};
ghost use Rattle.world.specs.Brief.{brief};
ghost use Rattle.script_net.specs.Commands.{command_at, local_reply, beat_reply, receive_reply, given_reply, resent_reply, raw_reply, settle_reply, regroup_reply};
ghost use Rattle.script_net.specs.Replied.{Told, IsReply, HaveNumbers};
ghost use Rattle.causal_model.specs.Sending.{beat_messages};

use op_base::{ByteList, NoMemory, ObjectId, Update};
use replica_core::{Beat, Local, Receive};
use script_lang::{Command, Reply};
use std::alloc::Global;
use world::{Brief, Given, RawGot, Regroup, Resent, Settle, World};

/// The reply to a command that scripts of a header don't have. No line is read as one.
pub const NO_COMMAND: Reply = Reply::Bad(2);

/// Runs a command. On `NoMemory` nothing is replied, and the world may stand in the midst of the command.
///
/// Each command has a function of its own, so that none pays for what another has in its frame.
pub fn reply_to(alloc: Global, world: &mut World, command: Command) -> Result<Reply, NoMemory>
    requires { IsWithin (length world.old.nodes.items) command }
    ensures told { (plain : PlainWorld) → ShowsPlain world.old plain → Told plain command result world.new }
    ensures entries { IfOk result HasItsEntries }
{
    match command {
        Command::Do { r, update } => send(alloc, world, r, update),
        Command::Ask { r, object } => ask(alloc, world, r, &object),
        Command::Beat { r } => send_noop(alloc, world, r),
        Command::Give { r, k, s } => give(alloc, world, r, k, s),
        Command::Resend { r, k } => resend(alloc, world, r, k),
        Command::Raw { r, bytes } => offer_bytes(alloc, world, r, &bytes),
        Command::Settle => settle(alloc, world),
        Command::Members { n } => change_members(alloc, world, n),
        Command::Ids { r, object } => list_ids(alloc, world, r, &object),
        Command::Tombs { r, object } => Ok(Reply::Tombs(world.tombs(r, &object))),
        Command::Log { r } => list_log(alloc, world, r),
        Command::Size { r } => Ok(size_reply(world, r)),
        Command::Stable { r } => Ok(stable_reply(world, r)),
        Command::Seen { r } => Ok(seen_reply(world, r)),
        Command::Noops { r } => Ok(Reply::Noops(world.noops(r))),
        Command::Lags { r } => Ok(Reply::Lags(world.lags(r))),
        Command::Stop { .. } => Ok(NO_COMMAND),
    }
}

/// Replica `r` sends an update.
#[inline(never)]
fn send(alloc: Global, world: &mut World, r: u8, update: Update) -> Result<Reply, NoMemory>
    requires { r < length world.old.nodes.items }
    ensures told { (plain : PlainWorld) → ShowsPlain world.old plain → Told plain (Command.Do r update) result world.new }
    ensures entries { IfOk result HasItsEntries }
{
    local_reply(world.send(alloc, r, update))
}

/// Replica `r` answers what an object is.
#[inline(never)]
fn ask(alloc: Global, world: &World, r: u8, object: &ObjectId) -> Result<Reply, NoMemory>
    requires { r < length world.now.nodes.items }
    ensures told { (plain : PlainWorld) → ShowsPlain world.now plain → Told plain (Command.Ask r object.now) result world.now }
    ensures entries { IfOk result HasItsEntries }
{
    Ok(Reply::Is(world.answer(alloc, r, object)?))
}

/// Replica `r` sends a no-op where one is due.
#[inline(never)]
fn send_noop(alloc: Global, world: &mut World, r: u8) -> Result<Reply, NoMemory>
    requires { r < length world.old.nodes.items }
    ensures told { (plain : PlainWorld) → ShowsPlain world.old plain → Told plain (Command.Beat r) result world.new }
    ensures entries { IfOk result HasItsEntries }
{
    beat_reply(&world.beat(alloc, r))
}

/// Replica `r` receives message `s` of replica `k`.
#[inline(never)]
fn give(alloc: Global, world: &mut World, r: u8, k: u8, s: u32) -> Result<Reply, NoMemory>
    requires from { k < length world.old.nodes.items }
    requires to { r < length world.old.nodes.items }
    ensures told { (plain : PlainWorld) → ShowsPlain world.old plain → Told plain (Command.Give r k s) result world.new }
    ensures entries { IfOk result HasItsEntries }
{
    given_reply(world.give(alloc, r, k, s))
}

/// Replica `r` receives what replica `k` has in its outbox.
#[inline(never)]
fn resend(alloc: Global, world: &mut World, r: u8, k: u8) -> Result<Reply, NoMemory>
    requires from { k < length world.old.nodes.items }
    requires to { r < length world.old.nodes.items }
    ensures told { (plain : PlainWorld) → ShowsPlain world.old plain → Told plain (Command.Resend r k) result world.new }
    ensures entries { IfOk result HasItsEntries }
{
    resent_reply(world.resend(alloc, r, k))
}

/// Replica `r` receives the bytes of a frame.
#[inline(never)]
fn offer_bytes(alloc: Global, world: &mut World, r: u8, bytes: &ByteList) -> Result<Reply, NoMemory>
    requires { r < length world.old.nodes.items }
    ensures told { (plain : PlainWorld) → ShowsPlain world.old plain → Told plain (Command.Raw r bytes.now) result world.new }
    ensures entries { IfOk result HasItsEntries }
{
    raw_reply(world.raw(alloc, r, bytes.as_slice()))
}

/// All replicas exchange what they have until nothing moves.
#[inline(never)]
fn settle(alloc: Global, world: &mut World) -> Result<Reply, NoMemory>
    ensures told { (plain : PlainWorld) → ShowsPlain world.old plain → Told plain Command.Settle result world.new }
    ensures entries { IfOk result HasItsEntries }
{
    settle_reply(world.settle(alloc))
}

/// The members become replicas 0 to `n - 1`, where the store is at rest.
#[inline(never)]
fn change_members(alloc: Global, world: &mut World, n: u8) -> Result<Reply, NoMemory>
    requires some { 1 ≤ n }
    requires few { n ≤ MOST_MEMBERS }
    ensures told { (plain : PlainWorld) → ShowsPlain world.old plain → Told plain (Command.Members n) result world.new }
    ensures entries { IfOk result HasItsEntries }
{
    regroup_reply(world.regroup(alloc, n))
}

/// The ids of a list's elements at replica `r`.
#[inline(never)]
fn list_ids(alloc: Global, world: &World, r: u8, object: &ObjectId) -> Result<Reply, NoMemory>
    requires of { r < length world.now.nodes.items }
    requires kind { object.now.kind ≡ kinds.List }
    ensures told { (plain : PlainWorld) → ShowsPlain world.now plain → Told plain (Command.Ids r object.now) result world.now }
    ensures entries { IfOk result HasItsEntries }
{
    Ok(Reply::Ids(world.list_ids(alloc, r, object)?))
}

/// The ids of replica `r`'s log.
#[inline(never)]
fn list_log(alloc: Global, world: &World, r: u8) -> Result<Reply, NoMemory>
    requires { r < length world.now.nodes.items }
    ensures told { (plain : PlainWorld) → ShowsPlain world.now plain → Told plain (Command.Log r) result world.now }
    ensures entries { IfOk result HasItsEntries }
{
    Ok(Reply::Log(world.kept(alloc, r)?))
}

/// How much replica `r` keeps.
fn size_reply(world: &World, r: u8) -> Reply
    requires { r < length world.now.nodes.items }
    ensures reply { (plain : PlainWorld) → ShowsPlain world.now plain → Some result ≡ (command_at (Command.Size r) plain).0 }
    ensures entries { HasItsEntries result }
{
    let (entries, items) = world.size(r);
    Reply::Size { entries, items }
}

/// What is stable at replica `r`.
fn stable_reply(world: &World, r: u8) -> Reply
    requires { r < length world.now.nodes.items }
    ensures reply { (plain : PlainWorld) → ShowsPlain world.now plain → Some result ≡ (command_at (Command.Stable r) plain).0 }
    ensures entries { HasItsEntries result }
{
    Reply::Stable {
        n: members(world),
        tag: world.stable(r),
    }
}

/// What replica `r` has seen.
fn seen_reply(world: &World, r: u8) -> Reply
    requires { r < length world.now.nodes.items }
    ensures reply { (plain : PlainWorld) → ShowsPlain world.now plain → Some result ≡ (command_at (Command.Seen r) plain).0 }
    ensures entries { HasItsEntries result }
{
    Reply::Seen {
        n: members(world),
        tag: world.seen(r),
    }
}

/// How many members a world has.
pub fn members(world: &World) -> u8
    ensures nodes { result ≡ length world.now.nodes.items }
    ensures size { (plain : PlainWorld) → ShowsPlain world.now plain → result ≡ size_of plain }
{
    world.nodes.len() as u8
}

/// The reply to what came of sending, which is told by the message's id.
pub fn local_reply(answer: Brief) -> Result<Reply, NoMemory>
    ensures told { (made : Local) → answer ≡ brief made → IsReply (local_reply made) result }
    ensures entries { IfOk result HasItsEntries }
{
    match answer {
        Brief::Sent(id) => Ok(Reply::Sent(id.seq)),
        Brief::Busy => Ok(Reply::Busy),
        Brief::End => Ok(Reply::End),
        Brief::NoMemory => Err(NoMemory),
    }
}

/// The reply to a beat.
pub fn beat_reply(answer: &Beat) -> Result<Reply, NoMemory>
    requires { HaveNumbers (beat_messages answer.now) }
    ensures told { IsReply (beat_reply answer.now) result }
    ensures entries { IfOk result HasItsEntries }
{
    match answer {
        Beat::Sent(message) => Ok(Reply::Sent(message.id().seq)),
        Beat::Quiet => Ok(Reply::Quiet),
        Beat::Held => Ok(Reply::Held),
        Beat::End => Ok(Reply::End),
        Beat::NoMemory => Err(NoMemory),
    }
}

/// The reply to a message that was offered.
fn receive_reply(answer: Receive) -> Result<Reply, NoMemory>
    ensures told { IsReply (receive_reply answer) result }
    ensures entries { IfOk result HasItsEntries }
{
    match answer {
        Receive::Old => Ok(Reply::Old),
        Receive::Again => Ok(Reply::Again),
        Receive::Far => Ok(Reply::Far),
        Receive::Kept => Ok(Reply::Kept),
        Receive::Took(steps) => Ok(Reply::Took(steps)),
        Receive::NoMemory => Err(NoMemory),
    }
}

/// The reply to a message that was given.
pub fn given_reply(answer: Given) -> Result<Reply, NoMemory>
    ensures told { IsReply (given_reply answer) result }
    ensures entries { IfOk result HasItsEntries }
{
    match answer {
        Given::Unsent => Ok(Reply::Unsent),
        Given::Got(answer) => receive_reply(answer),
    }
}

/// The reply to an outbox that was offered.
fn resent_reply(answer: Resent) -> Result<Reply, NoMemory>
    ensures told { IsReply (resent_reply answer) result }
    ensures entries { IfOk result HasItsEntries }
{
    match answer {
        Resent::Took(steps) => Ok(Reply::Took(steps)),
        Resent::Kept => Ok(Reply::Kept),
        Resent::Nothing => Ok(Reply::Nothing),
        Resent::NoMemory => Err(NoMemory),
    }
}

/// The reply to bytes that were offered.
fn raw_reply(answer: RawGot) -> Result<Reply, NoMemory>
    ensures told { IsReply (raw_reply answer) result }
    ensures entries { IfOk result HasItsEntries }
{
    match answer {
        RawGot::Bad(fault) => Ok(Reply::BadFrame(fault.number())),
        RawGot::Got(answer) => receive_reply(answer),
        RawGot::NoMemory => Err(NoMemory),
    }
}

/// The reply to settling.
fn settle_reply(answer: Settle) -> Result<Reply, NoMemory>
    ensures told { IsReply (settle_reply answer) result }
    ensures entries { IfOk result HasItsEntries }
{
    match answer {
        Settle::Settled => Ok(Reply::Settled),
        Settle::Unsettled => Ok(Reply::Unsettled),
        Settle::NoMemory => Err(NoMemory),
    }
}

/// The reply to a change of members.
fn regroup_reply(answer: Regroup) -> Result<Reply, NoMemory>
    ensures told { IsReply (regroup_reply answer) result }
    ensures entries { IfOk result HasItsEntries }
{
    match answer {
        Regroup::Regrouped(epoch) => Ok(Reply::Epoch(epoch)),
        Regroup::Unsettled => Ok(Reply::Unsettled),
        Regroup::Last => Ok(Reply::Last),
        Regroup::NoMemory => Err(NoMemory),
    }
}
