//! A client: it makes its commands in order, each in a turn of its replica's lock.

ghost use Rattle.std.specs.Prelude.{◌≡◌, ℕ, List, [], ◌∷◌, ◌++◌, ◌<◌, true, length, All, IfOk, IfErr};
ghost use Rattle.causal_model.specs.Sending.{local_messages};
ghost use Rattle.script_lang.specs.declared.live.LiveCommand.{LiveCommand as ALiveCommand};
ghost use Rattle.script_lang.specs.declared.live.LiveCommand.TheVariants as command;
ghost use Rattle.live_run.specs.Inputs.{command_in, commands_in, commands_of};
ghost use Rattle.live_run.specs.Made.{local_told, Made};
ghost use Rattle.live_run.specs.Told.{ok_number};
ghost use Rattle.live_run.specs.Workers.{IsLiveKey, IsClientDone};

use crate::input::NumberedLine;
use crate::told::{ClientDone, ClientStopped, Told};
use causal_model::Local;
use op_base::{NoMemory, ObjectId, Update};
use replica_lock::{Pass, SharedNode};
use script_lang::{LiveCommand, LiveLine, Reply};
use std::alloc::Global;
use std::sync::Wait;
use std::thread;
use store_io::Gate;
use turn_lock::Visit;

/// A client's number, how often at most it makes a call again, and its gate.
#[derive(Drop)]
pub struct Client<'a, G: Gate> {
    pub number: u8,
    pub turns: u32,
    pub gate: &'a G,
}

/// A client at work: what it has done, and the number of its next call.
#[derive(Drop)]
struct Desk {
    done: ClientDone,
    call: u32,
}

/// Makes the commands among lines that are a client's, in order.
pub fn make_commands<R: Wait, G: Gate>(
    rt: &R,
    alloc: Global,
    node: &SharedNode,
    pass: Pass,
    client: &Client<'_, G>,
    lines: &[NumberedLine],
) -> Result<ClientDone, ClientStopped>
    requires lock { pass.lock ≡ node.now }
    requires fresh { pass.own ≡ [] }
    requires key { IsLiveKey node.now.key }
    ensures done { IfOk result (IsClientDone node.now (commands_of client.now.number (commands_in lines.now))) }
    ensures stopped { IfErr result (λ stopped. stopped.pass.lock ≡ node.now) }
{
    let told = Vec::new(alloc);
    let mut desk = Desk {
        done: ClientDone { told, pass },
        call: 0,
    };
    for line in lines {
        if make_line(rt, alloc, node, &mut desk, client, &line.line).is_err() {
            return Err(ClientStopped {
                pass: desk.done.pass,
            });
        }
    }
    Ok(desk.done)
}

/// Makes the command of a line where it is the client's.
fn make_line<R: Wait, G: Gate>(
    rt: &R,
    alloc: Global,
    node: &SharedNode,
    desk: &mut Desk,
    client: &Client<'_, G>,
    line: &LiveLine,
) -> Result<(), NoMemory>
    requires lock { desk.old.done.pass.lock ≡ node.now }
    requires key { IsLiveKey node.now.key }
    ensures lock { desk.new.done.pass.lock ≡ node.now }
    ensures made { IfOk result (λ done. (commands : List ALiveCommand) → IsClientDone node.now commands desk.old.done → IsClientDone node.now (commands ++ commands_of client.now.number (command_in line.now)) desk.new.done) }
{
    match line {
        LiveLine::Run(command) => make_own(rt, alloc, node, desk, client, command),
        _ => Ok(()),
    }
}

/// Makes a command where it is the client's.
fn make_own<R: Wait, G: Gate>(
    rt: &R,
    alloc: Global,
    node: &SharedNode,
    desk: &mut Desk,
    client: &Client<'_, G>,
    command: &LiveCommand,
) -> Result<(), NoMemory>
    requires lock { desk.old.done.pass.lock ≡ node.now }
    requires key { IsLiveKey node.now.key }
    ensures lock { desk.new.done.pass.lock ≡ node.now }
    ensures made { IfOk result (λ done. (commands : List ALiveCommand) → IsClientDone node.now commands desk.old.done → IsClientDone node.now (commands ++ commands_of client.now.number (command.now ∷ [])) desk.new.done) }
{
    match command {
        LiveCommand::Do { c, update } if *c == client.number => {
            make_do(rt, alloc, node, desk, client, update)
        }
        LiveCommand::Ask { c, object } if *c == client.number => {
            make_ask(rt, alloc, node, desk, client, object)
        }
        _ => Ok(()),
    }
}

/// Makes a command that sends an update.
fn make_do<R: Wait, G: Gate>(
    rt: &R,
    alloc: Global,
    node: &SharedNode,
    desk: &mut Desk,
    client: &Client<'_, G>,
    update: &Update,
) -> Result<(), NoMemory>
    requires lock { desk.old.done.pass.lock ≡ node.now }
    requires key { IsLiveKey node.now.key }
    ensures lock { desk.new.done.pass.lock ≡ node.now }
    ensures made { IfOk result (λ done. (c : ℕ) (commands : List ALiveCommand) → IsClientDone node.now commands desk.old.done → IsClientDone node.now (commands ++ command.Do c update.now ∷ []) desk.new.done) }
{
    let told = send(rt, alloc, node, desk, client, update)?;
    Ok(desk.done.told.push(told)?)
}

/// Makes a command that asks.
fn make_ask<R: Wait, G: Gate>(
    rt: &R,
    alloc: Global,
    node: &SharedNode,
    desk: &mut Desk,
    client: &Client<'_, G>,
    object: &ObjectId,
) -> Result<(), NoMemory>
    requires lock { desk.old.done.pass.lock ≡ node.now }
    requires key { IsLiveKey node.now.key }
    ensures lock { desk.new.done.pass.lock ≡ node.now }
    ensures made { IfOk result (λ done. (c : ℕ) (commands : List ALiveCommand) → IsClientDone node.now commands desk.old.done → IsClientDone node.now (commands ++ command.Ask c object.now ∷ []) desk.new.done) }
{
    let told = ask(rt, alloc, node, desk, client, object)?;
    Ok(desk.done.told.push(told)?)
}

/// Sends an update, and again while the window is full, so often at most.
fn send<R: Wait, G: Gate>(
    rt: &R,
    alloc: Global,
    node: &SharedNode,
    desk: &mut Desk,
    client: &Client<'_, G>,
    update: &Update,
) -> Result<Told, NoMemory>
    requires lock { desk.old.done.pass.lock ≡ node.now }
    requires key { IsLiveKey node.now.key }
    ensures lock { desk.new.done.pass.lock ≡ node.now }
    ensures told { desk.new.done.told ≡ desk.old.done.told }
    ensures made { IfOk result (λ told. (c : ℕ) → Made desk.old.done.pass desk.new.done.pass (command.Do c update.now) told) }
{
    for _ in 0..client.turns {
        let told = send_once(rt, alloc, node, desk, client, update)?;
        if !is_busy(&told.reply) {
            return Ok(told);
        }
        thread::yield_now();
    }
    send_once(rt, alloc, node, desk, client, update)
}

/// Sends an update by one call.
fn send_once<R: Wait, G: Gate>(
    rt: &R,
    alloc: Global,
    node: &SharedNode,
    desk: &mut Desk,
    client: &Client<'_, G>,
    update: &Update,
) -> Result<Told, NoMemory>
    requires lock { desk.old.done.pass.lock ≡ node.now }
    requires key { IsLiveKey node.now.key }
    ensures lock { desk.new.done.pass.lock ≡ node.now }
    ensures told { desk.new.done.told ≡ desk.old.done.told }
    ensures made { IfOk result (λ told. (c : ℕ) → Made desk.old.done.pass desk.new.done.pass (command.Do c update.now) told) }
{
    let visit = next_visit(client, &mut desk.call);
    let turn = node.local(rt, alloc, &mut desk.done.pass, update, &visit);
    Ok(Told {
        place: turn.place,
        reply: reply_of(&turn.answer)?,
    })
}

/// What sending an update is told as.
fn reply_of(answer: &Local) -> Result<Reply, NoMemory>
    requires { All (λ m. m.origin < length m.tag) (local_messages answer.now) }
    ensures { IfOk result (λ reply. local_told answer.now ≡ reply ∷ []) }
{
    match answer {
        Local::Sent(message) => Ok(Reply::Sent(message.id().seq)),
        Local::Busy => Ok(Reply::Busy),
        Local::End => Ok(Reply::End),
        Local::NoMemory => Err(NoMemory),
    }
}

/// Whether an update was refused since the window is full.
fn is_busy(reply: &Reply) -> bool
    ensures { result ≡ true → ok_number reply.now ≡ [] }
{
    matches!(reply, Reply::Busy)
}

/// Asks what an object is.
fn ask<R: Wait, G: Gate>(
    rt: &R,
    alloc: Global,
    node: &SharedNode,
    desk: &mut Desk,
    client: &Client<'_, G>,
    object: &ObjectId,
) -> Result<Told, NoMemory>
    requires lock { desk.old.done.pass.lock ≡ node.now }
    requires key { IsLiveKey node.now.key }
    ensures lock { desk.new.done.pass.lock ≡ node.now }
    ensures told { desk.new.done.told ≡ desk.old.done.told }
    ensures made { IfOk result (λ told. (c : ℕ) → Made desk.old.done.pass desk.new.done.pass (command.Ask c object.now) told) }
{
    let visit = next_visit(client, &mut desk.call);
    let turn = node.ask(rt, alloc, &mut desk.done.pass, object, &visit);
    Ok(Told {
        place: turn.place,
        reply: Reply::Is(turn.answer?),
    })
}

/// The client's visit for its next call, which is counted.
fn next_visit<'a, G: Gate>(client: &Client<'a, G>, call: &mut u32) -> Visit<'a, G> {
    let visit = Visit {
        gate: client.gate,
        worker: u32::from(client.number),
        call: *call,
    };
    *call = call.wrapping_add(1);
    visit
}
