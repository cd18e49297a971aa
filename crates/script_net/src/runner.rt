//! The run of a script's lines on a world.

ghost use Rattle.std.specs.Prelude.{◌≡◌, ◌↔◌, ◌++◌, false, length, Some, None, Ok, IfSome, IfOk, OnOk, OnErr, IsErr, IsErrOf};
ghost use Rattle.replica_core.specs.Numbers.{are_numbers};
ghost use Rattle.replica_keeper.specs.Worlds.{Shown};
ghost use Rattle.world_model.specs.Stops.{PlainKeep, keep_opening};
ghost use Rattle.world_model.specs.World.{PlainWorld, opening};
ghost use Rattle.world.specs.Answers.{ShowsPlain};
ghost use Rattle.script_lang.specs.Headers.{header_of};
ghost use Rattle.script_lang.specs.Ranges.{IsWithin};
ghost use Rattle.script_net.specs.Commands.{command_at, keep_command_at};
ghost use Rattle.script_net.specs.Laws.{store_of_line, keep_of_line};
ghost use Rattle.script_net.specs.Runs.{ShowsAny};
ghost use Rattle.script_net.specs.Transcript.{AnyPlain, OfStore, OfKeep, opened, reply_text, text_of_line, world_of_line};

use crate::keep::{keep_members, keep_reply_to};
use crate::reply::{members, reply_to};
use op_base::{NoMemory, Text};
use replica_core::CreateFault;
use replica_keeper::KeepWorld;
use script_lang::{
    Command, Header, Line, Reply, put_reply, read_header, read_keep_line, read_line,
};
use std::alloc::Global;
use world::World;

/// What a script runs on.
#[derive(Drop)]
pub enum AnyWorld {
    /// A store's replicas, which last as long as the script.
    Store(World),
    /// Durable replicas, which can be stopped.
    Keep(KeepWorld),
}

/// A script that runs. Where memory ran out it has ended, and runs no further line.
#[derive(Drop)]
pub struct Runner {
    world: AnyWorld,
    ended: bool,
}

impl Runner {
    ghost use Rattle.script_net.specs.Runs.{RunsIn, HasEnded};

    /// The run of a script on a store of `n` members, with a window of `w` and a limit of messages a member.
    pub fn create(alloc: Global, n: u8, w: u8, limit: u32) -> Result<Runner, CreateFault>
        ensures bad_numbers { IsErrOf result CreateFault.BadNumbers ↔ (are_numbers 0 n w limit ≡ false) }
        ensures opening { IfOk result (λ runner. RunsIn runner (OfStore (opening n w limit))) }
    {
        Ok(Runner {
            world: AnyWorld::Store(World::create(alloc, n, w, limit)?),
            ended: false,
        })
    }

    /// The run of a script on `n` durable replicas over memory, which can be stopped.
    pub fn create_keep(alloc: Global, n: u8, w: u8, limit: u32) -> Result<Runner, CreateFault>
        ensures bad_numbers { IsErrOf result CreateFault.BadNumbers ↔ (are_numbers 0 n w limit ≡ false) }
        ensures opening { IfOk result (λ runner. RunsIn runner (OfKeep (keep_opening n w limit))) }
    {
        Ok(Runner {
            world: AnyWorld::Keep(KeepWorld::create(alloc, n, w, limit)?),
            ended: false,
        })
    }

    /// The run that a header opens: none where a line is no header of a script.
    pub fn open(alloc: Global, line: &[u8]) -> Result<Option<Runner>, NoMemory>
        ensures opens { IfOk result (λ o. IfSome o (λ runner. (plain : AnyPlain) × (opened (header_of line.now) ≡ Some plain) × RunsIn runner plain)) }
        ensures none { (result ≡ Ok None) ↔ (opened (header_of line.now) ≡ None) }
    {
        match read_header(line) {
            Some(Header::Store { n, w, limit }) => match Runner::create(alloc, n, w, limit) {
                Ok(runner) => Ok(Some(runner)),
                Err(CreateFault::BadNumbers) => unreachable!(),
                Err(CreateFault::NoMemory) => Err(NoMemory),
            },
            Some(Header::Keep { n, w, limit }) => match Runner::create_keep(alloc, n, w, limit) {
                Ok(runner) => Ok(Some(runner)),
                Err(CreateFault::BadNumbers) => unreachable!(),
                Err(CreateFault::NoMemory) => Err(NoMemory),
            },
            Some(Header::Live { .. }) | None => Ok(None),
        }
    }

    /// Runs a line, without its newline and a carriage return at its end, and puts the line of its reply at the end of a
    /// text, or nothing where it is passed over. After `NoMemory` the text is as before, and each later call answers
    /// `NoMemory` and appends nothing.
    pub fn line(&mut self, alloc: Global, line: &[u8], out: &mut Text) -> Result<(), NoMemory>
        ensures text { (plain : AnyPlain) → RunsIn self.old plain → OnOk result (out.new ≡ out.old ++ text_of_line plain line.now) }
        ensures world { (plain : AnyPlain) → RunsIn self.old plain → OnOk result (RunsIn self.new (world_of_line plain line.now)) }
        ensures err { OnErr result (out.new ≡ out.old) }
        ensures ended { OnErr result (HasEnded self.new) }
        ensures stays { HasEnded self.old → IsErr result × HasEnded self.new × (out.new ≡ out.old) }
    {
        if self.ended {
            return Err(NoMemory);
        }
        self.ended = true;
        run_line(alloc, &mut self.world, line, out)?;
        self.ended = false;
        Ok(())
    }
}

/// Runs a line on a world. On `NoMemory` the text is as before, and the world may stand in the midst of the command.
fn run_line(
    alloc: Global,
    world: &mut AnyWorld,
    line: &[u8],
    out: &mut Text,
) -> Result<(), NoMemory>
    ensures text { (plain : AnyPlain) → ShowsAny world.old plain → OnOk result (out.new ≡ out.old ++ text_of_line plain line.now) }
    ensures world { (plain : AnyPlain) → ShowsAny world.old plain → OnOk result (ShowsAny world.new (world_of_line plain line.now)) }
    ensures err { OnErr result (out.new ≡ out.old) }
{
    match world {
        AnyWorld::Store(world) => run_store_line(alloc, world, line, out),
        AnyWorld::Keep(world) => run_keep_line(alloc, world, line, out),
    }
}

/// The same on a store's replicas.
fn run_store_line(
    alloc: Global,
    world: &mut World,
    line: &[u8],
    out: &mut Text,
) -> Result<(), NoMemory>
    ensures text { (plain : PlainWorld) → ShowsPlain world.old plain → OnOk result (out.new ≡ out.old ++ text_of_line (OfStore plain) line.now) }
    ensures world { (plain : PlainWorld) → ShowsPlain world.old plain → OnOk result (ShowsPlain world.new (store_of_line plain line.now)) }
    ensures err { OnErr result (out.new ≡ out.old) }
{
    match read_line(alloc, line, members(world)) {
        Line::Skip => Ok(()),
        Line::Bad(fault) => put_reply(&Reply::Bad(fault), out),
        Line::Run(command) => run_command(alloc, world, command, out),
        Line::NoMemory => Err(NoMemory),
    }
}

/// Runs a command on a world, and puts the line of its reply. On `NoMemory` it is as above.
#[inline(always)]
fn run_command(
    alloc: Global,
    world: &mut World,
    command: Command,
    out: &mut Text,
) -> Result<(), NoMemory>
    requires { IsWithin (length world.old.nodes.items) command }
    ensures text { (plain : PlainWorld) → ShowsPlain world.old plain → OnOk result (out.new ≡ out.old ++ reply_text (command_at command plain).0) }
    ensures world { (plain : PlainWorld) → ShowsPlain world.old plain → OnOk result (ShowsPlain world.new (command_at command plain).1) }
    ensures err { OnErr result (out.new ≡ out.old) }
{
    let replied = reply_to(alloc, world, command);
    match &replied {
        Ok(reply) => put_reply(reply, out),
        Err(NoMemory) => Err(NoMemory),
    }
}

/// The same on durable replicas, of which nothing is known once memory ran out.
fn run_keep_line(
    alloc: Global,
    world: &mut KeepWorld,
    line: &[u8],
    out: &mut Text,
) -> Result<(), NoMemory>
    ensures text { (keep : PlainKeep) → Shown world.old keep → OnOk result (out.new ≡ out.old ++ text_of_line (OfKeep keep) line.now) }
    ensures world { (keep : PlainKeep) → Shown world.old keep → OnOk result (Shown world.new (keep_of_line keep line.now)) }
    ensures err { OnErr result (out.new ≡ out.old) }
{
    if world.ended {
        return Err(NoMemory);
    }
    match read_keep_line(alloc, line, keep_members(world)) {
        Line::Skip => Ok(()),
        Line::Bad(fault) => put_reply(&Reply::Bad(fault), out),
        Line::Run(command) => run_keep_command(alloc, world, &command, out),
        Line::NoMemory => Err(NoMemory),
    }
}

/// Runs a command on durable replicas, and puts the line of its reply.
#[inline(never)]
fn run_keep_command(
    alloc: Global,
    world: &mut KeepWorld,
    command: &Command,
    out: &mut Text,
) -> Result<(), NoMemory>
    requires within { IsWithin (length world.old.replicas.items) command.now }
    requires goes_on { world.old.ended ≡ false }
    ensures text { (keep : PlainKeep) → Shown world.old keep → OnOk result (out.new ≡ out.old ++ reply_text (keep_command_at command.now keep).0) }
    ensures world { (keep : PlainKeep) → Shown world.old keep → OnOk result (Shown world.new (keep_command_at command.now keep).1) }
    ensures err { OnErr result (out.new ≡ out.old) }
{
    let replied = keep_reply_to(alloc, world, command);
    match &replied {
        Ok(reply) => put_reply(reply, out),
        Err(NoMemory) => Err(NoMemory),
    }
}
