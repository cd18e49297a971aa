//! What the calls of a world do at one of its durable replicas.

ghost use Rattle.std.specs.Prelude.{◌≡◌, ◌≢◌, true, false, ◌+◌, ◌<◌, ◌∷◌, ◌++◌, [], length, map, take, IsTrue, IfOk, OnOk};
ghost use Rattle.std.specs.Option.{IsSome};
ghost use Rattle.op_base.specs.Message.{fits};
ghost use Rattle.op_base.specs.declared.message.Message.{Message as AMessage};
ghost use Rattle.causal_model.specs.Journal.{local_notes, beat_notes, receive_notes};
ghost use Rattle.causal_model.specs.Receiving.{receive_rule};
ghost use Rattle.causal_model.specs.Sending.{is_sent, is_beat, local_messages, beat_messages, local_rule, beat_rule};
ghost use Rattle.frame_codec.specs.Grammar.{frame_of};
ghost use Rattle.frame_codec.specs.declared.version.Version.TheVariants as versions;
ghost use Rattle.replica_core.specs.Numbers.{are_numbers};
ghost use Rattle.world_model.specs.Records.{kept_prefix};
ghost use Rattle.world_model.specs.World.{wants_frame};
ghost use Rattle.world.specs.Steps.{IsFrameOf};
ghost use Rattle.replica_keeper.specs.Called.{settings_of, state_in, HasNoted, ComesTo, AreNew};
ghost use Rattle.replica_keeper.specs.Keeping.{groups_of};
ghost use Rattle.replica_keeper.specs.Open.{notes_in};

use crate::durable::Durable;
use crate::durably::Durably;
use crate::keep_world::DurableList;
use crate::start::StartFault;
use causal_model::{Beat, Local, Receive};
use frame_codec::{decode, encode};
use op_base::{Message, MessageId, NoMemory, Update};
use std::alloc::Global;
use std::mem::replace;
use store_io::SteadyKeeper;
use world::FrameRow;

/// The durable replicas of `n` members that have noted nothing.
pub(crate) fn open_replicas(
    alloc: Global,
    n: u8,
    w: u8,
    limit: u32,
) -> Result<DurableList, NoMemory>
    requires { IsTrue (are_numbers 0 n w limit) }
    ensures { IfOk result (λ list. AreNew n w limit n list.items) }
{
    let mut list = Vec::with_capacity(alloc, n as usize)?;
    for me in 0..n {
        // The numbers are right, there are no bytes, and no call of the keeper fails: so only memory can be wanting.
        let keeper = SteadyKeeper::new(alloc);
        let Ok(it) = Durable::start(alloc, me, n, w, limit, keeper) else {
            return Err(NoMemory);
        };
        list.push(it)?;
    }
    Ok(list)
}

/// Sends an update at a durable replica, and puts the frame of what was sent behind the others.
pub(crate) fn send(
    alloc: Global,
    replica: &mut Durable<SteadyKeeper>,
    frames: &mut FrameRow,
    update: &Update,
) -> Local
    requires { IsSome replica.old.node }
    ensures { let told = (local_rule replica.old.w replica.old.limit update.now (state_in replica.old)).0 in
        ComesTo Local.NoMemory is_sent told result (HasNoted replica.old replica.new (local_notes told)
        × (frames.new.items ≡ frames.old.items ++ map (frame_of versions.Two replica.old.n 0) (local_messages told))) }
{
    match replica.local(alloc, update) {
        Durably::Done(Local::Sent(message)) => match put_frame(alloc, frames, &message, replica.n) {
            Ok(()) => Local::Sent(message),
            Err(NoMemory) => Local::NoMemory,
        },
        Durably::Done(answer) => answer,
        // It is open, and no call of its keeper fails.
        Durably::KeeperFault | Durably::Closed => unreachable!(),
    }
}

/// Sends a no-op at a durable replica, where one is due, and puts its frame behind the others.
pub(crate) fn send_noop(
    alloc: Global,
    replica: &mut Durable<SteadyKeeper>,
    frames: &mut FrameRow,
) -> Beat
    requires { IsSome replica.old.node }
    ensures { let told = (beat_rule replica.old.w replica.old.limit (state_in replica.old)).0 in
        ComesTo Beat.NoMemory is_beat told result (HasNoted replica.old replica.new (beat_notes told)
        × (frames.new.items ≡ frames.old.items ++ map (frame_of versions.Two replica.old.n 0) (beat_messages told))) }
{
    match replica.beat(alloc) {
        Durably::Done(Beat::Sent(message)) => match put_frame(alloc, frames, &message, replica.n) {
            Ok(()) => Beat::Sent(message),
            Err(NoMemory) => Beat::NoMemory,
        },
        Durably::Done(answer) => answer,
        // It is open, and no call of its keeper fails.
        Durably::KeeperFault | Durably::Closed => unreachable!(),
    }
}

/// Puts the frame of a message behind others.
fn put_frame(alloc: Global, frames: &mut FrameRow, message: &Message, n: u8) -> Result<(), NoMemory>
    requires { IsTrue (fits n message.now) }
    ensures { OnOk result (frames.new.items ≡ frames.old.items ++ frame_of versions.Two n 0 message.now ∷ []) }
{
    frames.push(&encode(alloc, message, n, 0)?)?;
    Ok(())
}

/// Offers the message of an id to a durable replica, whose frame this is. The frame is read where the id doesn't tell that the
/// message came before or is early.
pub(crate) fn offer_frame(
    alloc: Global,
    replica: &mut Durable<SteadyKeeper>,
    id: MessageId,
    frame: &[u8],
) -> Receive
    requires open { IsSome replica.old.node }
    requires of { id.origin < replica.old.n }
    requires frame { ∥ ((m : AMessage) × IsFrameOf replica.old.n 0 replica.old.limit id frame.now m) ∥₁ }
    ensures { (m : AMessage) → IsFrameOf replica.old.n 0 replica.old.limit id frame.now m
        → let told = (receive_rule replica.old.w m (state_in replica.old)).0 in
        ComesTo Receive.NoMemory wants_frame told result (HasNoted replica.old replica.new (receive_notes m told)) }
{
    if let Some(node) = replica.node()
        && let Some(refusal) = node.inner.known(id)
    {
        return refusal.answer();
    }
    match decode(alloc, frame, replica.n, 0, replica.limit) {
        Ok(message) => match replica.receive(alloc, message) {
            Durably::Done(answer) => answer,
            // It is open, and no call of its keeper fails.
            Durably::KeeperFault | Durably::Closed => unreachable!(),
        },
        // It is the frame of a message, so only memory can be wanting.
        Err(_) => Receive::NoMemory,
    }
}

/// Stops a durable replica so that of its bytes those synced outlive it and at most so many behind them, and starts it of what is
/// left. How many notes it then has. After `NoMemory` it is closed.
pub(crate) fn restart(
    alloc: Global,
    replica: &mut Durable<SteadyKeeper>,
    bytes: u64,
) -> Result<u64, NoMemory>
    requires { IsSome replica.old.node }
    ensures settings { settings_of replica.new ≡ settings_of replica.old }
    ensures open { OnOk result (IsSome replica.new.node) }
    ensures groups { OnOk result (groups_of (notes_in replica.new.node) ≡ kept_prefix (settings_of replica.old) (take (replica.old.keeper.synced + bytes) replica.old.keeper.held)) }
    ensures synced { OnOk result (replica.new.keeper.synced ≡ length replica.new.keeper.held) }
    ensures count { IfOk result (λ count. count ≡ length (notes_in replica.new.node)) }
{
    let Durable {
        me,
        n,
        w,
        limit,
        ..
    } = *replica;
    let stopped = replace(
        replica,
        Durable::closed(me, n, w, limit, SteadyKeeper::new(alloc)),
    );
    let keeper = stopped.stop().crash(bytes);
    match Durable::start(alloc, me, n, w, limit, keeper) {
        Ok(it) => {
            let count = note_count(&it);
            *replica = it;
            Ok(count)
        }
        // The numbers are right, what is left is read without a fault, and no call of the keeper fails.
        Err((fault, _)) => Err(want_of_memory(fault)),
    }
}

/// How many notes a durable replica has: none where it's closed.
fn note_count(it: &Durable<SteadyKeeper>) -> u64
    ensures { result ≡ length (notes_in it.now.node) }
{
    match it.node() {
        Some(node) => node.places(),
        None => 0,
    }
}

/// The one fault that may come where bytes that a stop left are opened.
fn want_of_memory(fault: StartFault) -> NoMemory
    requires { fault ≡ StartFault.NoMemory }
{
    match fault {
        StartFault::NoMemory => NoMemory,
        _ => unreachable!(),
    }
}

/// Whether sending wanted memory.
pub(crate) fn no_local(answer: &Local) -> bool
    ensures is { result ≡ true → answer.now ≡ Local.NoMemory }
    ensures other { result ≡ false → answer.now ≢ Local.NoMemory }
{
    matches!(answer, Local::NoMemory)
}

/// Whether sending a no-op wanted memory.
pub(crate) fn no_beat(answer: &Beat) -> bool
    ensures is { result ≡ true → answer.now ≡ Beat.NoMemory }
    ensures other { result ≡ false → answer.now ≢ Beat.NoMemory }
{
    matches!(answer, Beat::NoMemory)
}

/// Whether receiving wanted memory.
pub(crate) fn no_receive(answer: &Receive) -> bool
    ensures is { result ≡ true → answer.now ≡ Receive.NoMemory }
    ensures other { result ≡ false → answer.now ≢ Receive.NoMemory }
{
    matches!(answer, Receive::NoMemory)
}
