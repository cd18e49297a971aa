//! A courier: in turns it posts its replica's outbox to the others, takes letters, and beats.

ghost use Rattle.std.specs.Prelude.{◌≡◌, ◌<◌, IfOk, IfErr, IfSome, All};
ghost use Rattle.replica_lock.specs.Turns.{notes_in};
ghost use Rattle.live_run.specs.Couriers.{IsCourierOf, IsCourierFresh, IsToPost};
ghost use Rattle.live_run.specs.Posting.{WasPostedAt};
ghost use Rattle.live_run.specs.Workers.{IsCourierDone};

use crate::letter::Letter;
use crate::posting::{post_at, take_at};
use crate::told::CourierDone;
use causal_model::{Beat, Receive};
use mailboxes::Mailbox;
use op_base::{Message, MessageList, NoMemory};
use replica_lock::SharedNode;
use std::alloc::Global;
use std::sync::Wait;
use std::thread;
use store_io::Gate;
use turn_lock::Visit;

/// How many messages of the outbox a turn posts at most.
const OLDEST: usize = 32;

/// How many letters a turn takes at most.
const LETTERS: u32 = 64;

/// Which member of how many a courier is of, its number among the workers, how many turns it makes, which of its letters are
/// lost, and its gate.
#[derive(Drop)]
pub struct Courier<'a, G: Gate> {
    pub me: u8,
    pub n: u8,
    pub worker: u32,
    pub turns: u32,
    /// A letter whose number this divides is lost; with 0 none is.
    pub loss: u32,
    pub gate: &'a G,
}

/// A courier at work: its passes, and the numbers of its next call and its next letter.
#[derive(Drop)]
struct Round {
    done: CourierDone,
    call: u32,
    letter: u32,
}

/// Makes the turns of a courier. Want of memory ends them; the passes come back in either case.
pub fn carry_letters<R: Wait, G: Gate>(
    rt: &R,
    alloc: Global,
    node: &SharedNode,
    mailboxes: &[Mailbox<Letter>],
    courier: &Courier<'_, G>,
    fresh: CourierDone,
) -> Result<CourierDone, CourierDone>
    requires of { IsCourierOf node.now.key mailboxes.now courier.now.me courier.now.n }
    requires fresh { IsCourierFresh node.now mailboxes.now fresh }
    ensures done { IfOk result (IsCourierDone node.now mailboxes.now) }
    ensures stopped { IfErr result (IsCourierDone node.now mailboxes.now) }
{
    let mut round = Round {
        done: fresh,
        call: 0,
        letter: 1,
    };
    for _ in 0..courier.turns {
        if make_turn(rt, alloc, node, mailboxes, courier, &mut round).is_err() {
            return Err(round.done);
        }
        // Else the turns of one are over before the threads of the others have begun.
        thread::yield_now();
    }
    Ok(round.done)
}

/// Makes one turn.
fn make_turn<R: Wait, G: Gate>(
    rt: &R,
    alloc: Global,
    node: &SharedNode,
    mailboxes: &[Mailbox<Letter>],
    courier: &Courier<'_, G>,
    round: &mut Round,
) -> Result<(), NoMemory>
    requires of { IsCourierOf node.now.key mailboxes.now courier.now.me courier.now.n }
    requires done { IsCourierDone node.now mailboxes.now round.old.done }
    ensures done { IsCourierDone node.now mailboxes.now round.new.done }
{
    send_oldest(rt, alloc, node, mailboxes, courier, round)?;
    take_letters(rt, alloc, node, mailboxes, courier, round)?;
    beat(rt, alloc, node, mailboxes, courier, round)
}

/// Sends the oldest messages of the outbox to every other member.
fn send_oldest<R: Wait, G: Gate>(
    rt: &R,
    alloc: Global,
    node: &SharedNode,
    mailboxes: &[Mailbox<Letter>],
    courier: &Courier<'_, G>,
    round: &mut Round,
) -> Result<(), NoMemory>
    requires of { IsCourierOf node.now.key mailboxes.now courier.now.me courier.now.n }
    requires done { IsCourierDone node.now mailboxes.now round.old.done }
    ensures done { IsCourierDone node.now mailboxes.now round.new.done }
{
    let oldest = oldest(rt, alloc, node, mailboxes, courier, round)?;
    for message in oldest.as_slice() {
        send_message(rt, alloc, node, mailboxes, courier, round, message)?;
    }
    Ok(())
}

/// Copies of the oldest messages of the outbox.
fn oldest<R: Wait, G: Gate>(
    rt: &R,
    alloc: Global,
    node: &SharedNode,
    mailboxes: &[Mailbox<Letter>],
    courier: &Courier<'_, G>,
    round: &mut Round,
) -> Result<MessageList, NoMemory>
    requires of { IsCourierOf node.now.key mailboxes.now courier.now.me courier.now.n }
    requires done { IsCourierDone node.now mailboxes.now round.old.done }
    ensures done { IsCourierDone node.now mailboxes.now round.new.done }
    ensures to_post { IfOk result (All (IsToPost courier.now.n (notes_in round.new.done.pass.seen))) }
{
    let visit = next_visit(courier, &mut round.call);
    let turn = node.outbox(rt, alloc, &mut round.done.pass, OLDEST, &visit);
    turn.answer
}

/// Sends a message to every other member, upwards.
fn send_message<R: Wait, G: Gate>(
    rt: &R,
    alloc: Global,
    node: &SharedNode,
    mailboxes: &[Mailbox<Letter>],
    courier: &Courier<'_, G>,
    round: &mut Round,
    message: &Message,
) -> Result<(), NoMemory>
    requires of { IsCourierOf node.now.key mailboxes.now courier.now.me courier.now.n }
    requires done { IsCourierDone node.now mailboxes.now round.old.done }
    requires to_post { IsToPost courier.now.n (notes_in round.old.done.pass.seen) message.now }
    ensures done { IsCourierDone node.now mailboxes.now round.new.done }
    ensures pass { round.new.done.pass ≡ round.old.done.pass }
{
    for x in 0..courier.n {
        if x != courier.me {
            send_letter(rt, alloc, node, mailboxes, courier, round, x, message)?;
        }
    }
    Ok(())
}

/// Sends a message to one member, unless the letter is lost.
fn send_letter<R: Wait, G: Gate>(
    rt: &R,
    alloc: Global,
    node: &SharedNode,
    mailboxes: &[Mailbox<Letter>],
    courier: &Courier<'_, G>,
    round: &mut Round,
    x: u8,
    message: &Message,
) -> Result<(), NoMemory>
    requires of { IsCourierOf node.now.key mailboxes.now courier.now.me courier.now.n }
    requires member { x < courier.now.n }
    requires done { IsCourierDone node.now mailboxes.now round.old.done }
    requires to_post { IsToPost courier.now.n (notes_in round.old.done.pass.seen) message.now }
    ensures done { IsCourierDone node.now mailboxes.now round.new.done }
    ensures pass { round.new.done.pass ≡ round.old.done.pass }
{
    let number = round.letter;
    round.letter = number.wrapping_add(1);
    if is_lost(number, courier.loss) {
        return Ok(());
    }
    let letter = Letter {
        n: courier.n,
        message: message.copy(alloc)?,
    };
    let mails = round.done.mails.as_mut_slice();
    post_at(rt, mailboxes, mails, usize::from(x), letter);
    Ok(())
}

/// Whether a letter of this number is lost.
fn is_lost(number: u32, loss: u32) -> bool {
    loss != 0 && number % loss == 0
}

/// Takes letters from the member's own mailbox and receives them.
fn take_letters<R: Wait, G: Gate>(
    rt: &R,
    alloc: Global,
    node: &SharedNode,
    mailboxes: &[Mailbox<Letter>],
    courier: &Courier<'_, G>,
    round: &mut Round,
) -> Result<(), NoMemory>
    requires of { IsCourierOf node.now.key mailboxes.now courier.now.me courier.now.n }
    requires done { IsCourierDone node.now mailboxes.now round.old.done }
    ensures done { IsCourierDone node.now mailboxes.now round.new.done }
{
    for _ in 0..LETTERS {
        let Some(letter) = take_own(rt, node, mailboxes, courier, round) else {
            return Ok(());
        };
        receive(rt, alloc, node, mailboxes, courier, round, letter)?;
    }
    Ok(())
}

/// Takes a letter from the member's own mailbox, where there is one.
fn take_own<R: Wait, G: Gate>(
    rt: &R,
    node: &SharedNode,
    mailboxes: &[Mailbox<Letter>],
    courier: &Courier<'_, G>,
    round: &mut Round,
) -> Option<Letter>
    requires of { IsCourierOf node.now.key mailboxes.now courier.now.me courier.now.n }
    requires done { IsCourierDone node.now mailboxes.now round.old.done }
    ensures done { IsCourierDone node.now mailboxes.now round.new.done }
    ensures posted { IfSome result (λ letter. WasPostedAt node.now.key.me round.new.done.mails.items letter.message) }
{
    let mails = round.done.mails.as_mut_slice();
    take_at(rt, mailboxes, mails, usize::from(courier.me))
}

/// Receives a letter's message. A letter to a store of another size is dropped.
fn receive<R: Wait, G: Gate>(
    rt: &R,
    alloc: Global,
    node: &SharedNode,
    mailboxes: &[Mailbox<Letter>],
    courier: &Courier<'_, G>,
    round: &mut Round,
    letter: Letter,
) -> Result<(), NoMemory>
    requires of { IsCourierOf node.now.key mailboxes.now courier.now.me courier.now.n }
    requires done { IsCourierDone node.now mailboxes.now round.old.done }
    requires posted { WasPostedAt node.now.key.me round.old.done.mails.items letter.message }
    ensures done { IsCourierDone node.now mailboxes.now round.new.done }
{
    if letter.n != courier.n {
        return Ok(());
    }
    let visit = next_visit(courier, &mut round.call);
    let turn = node.receive(rt, alloc, &mut round.done.pass, letter.message, &visit);
    match turn.answer {
        Receive::NoMemory => Err(NoMemory),
        _ => Ok(()),
    }
}

/// Sends a no-op where one is due.
fn beat<R: Wait, G: Gate>(
    rt: &R,
    alloc: Global,
    node: &SharedNode,
    mailboxes: &[Mailbox<Letter>],
    courier: &Courier<'_, G>,
    round: &mut Round,
) -> Result<(), NoMemory>
    requires of { IsCourierOf node.now.key mailboxes.now courier.now.me courier.now.n }
    requires done { IsCourierDone node.now mailboxes.now round.old.done }
    ensures done { IsCourierDone node.now mailboxes.now round.new.done }
{
    let visit = next_visit(courier, &mut round.call);
    let turn = node.beat(rt, alloc, &mut round.done.pass, &visit);
    match turn.answer {
        Beat::NoMemory => Err(NoMemory),
        _ => Ok(()),
    }
}

/// The courier's visit for its next call, which is counted.
fn next_visit<'a, G: Gate>(courier: &Courier<'a, G>, call: &mut u32) -> Visit<'a, G> {
    let visit = Visit {
        gate: courier.gate,
        worker: courier.worker,
        call: *call,
    };
    *call = call.wrapping_add(1);
    visit
}
