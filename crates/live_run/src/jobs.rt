//! The jobs of all workers, with their passes.

ghost use Rattle.std.specs.Prelude.{◌≡◌, ◌+◌, ◌<◌, ◌≤◌, ℕ, List, [], fold, length, All, IfOk, OnOk};
ghost use Rattle.op_base.specs.declared.tag.TheConstants.{MOST_MEMBERS};
ghost use Rattle.mailboxes.specs.declared.mailbox.Mailbox.{Mailbox as AMailbox};
ghost use Rattle.script_lang.specs.Ranges.{LiveLineIsWithin};
ghost use Rattle.script_lang.specs.declared.live.LiveCommand.{LiveCommand as ALiveCommand};
ghost use Rattle.live_run.specs.Ended.{AreLocks};
ghost use Rattle.live_run.specs.Inputs.{command_in, commands_in, replica_of_client, works_at};
ghost use Rattle.live_run.specs.Opening.{AreFirsts, AreJobs, AreOpened};
ghost use Rattle.live_run.specs.declared.letter.Letter.{Letter as ALetter};

use crate::boxes::fork_all;
use crate::input::NumberedLine;
use crate::letter::Letter;
use crate::opening::split_at;
use crate::told::CourierDone;
use crate::workers::Job;
use mailboxes::{MailPass, Mailbox};
use op_base::NoMemory;
use replica_lock::{Opener, SharedNode};
use script_lang::{LiveCommand, LiveLine};
use std::alloc::Global;

/// The jobs of so many clients, and of each member's courier behind them.
pub(crate) fn jobs_of(
    alloc: Global,
    nodes: &[SharedNode],
    openers: &mut [Opener],
    mailboxes: &[Mailbox<Letter>],
    firsts: &mut [MailPass<Letter>],
    lines: &[NumberedLine],
    clients: u8,
) -> Result<Vec<Job>, NoMemory>
    requires locks { (w : ℕ) × AreLocks (length nodes.now) w nodes.now }
    requires some { 1 ≤ length nodes.now }
    requires few { length nodes.now ≤ MOST_MEMBERS }
    requires within { All (λ l. LiveLineIsWithin (length nodes.now) clients l.line) lines.now }
    requires opened { AreOpened nodes.now openers.old [] }
    requires mailboxes { length mailboxes.now ≡ length nodes.now }
    requires firsts { AreFirsts 0 mailboxes.now firsts.old }
    ensures jobs { IfOk result (λ jobs. AreJobs nodes.now mailboxes.now (commands_in lines.now) clients (length nodes.now) jobs.items) }
    ensures opened { IfOk result (λ jobs. AreOpened nodes.now openers.new jobs.items) }
    ensures firsts { OnOk result (AreFirsts (length nodes.now) mailboxes.now firsts.new) }
{
    let mut jobs = Vec::with_capacity(alloc, usize::from(clients) + nodes.len())?;
    put_clients(nodes, openers, lines, clients, &mut jobs)?;
    put_couriers(alloc, nodes, openers, mailboxes, firsts, &mut jobs)?;
    Ok(jobs)
}

/// Puts the jobs of so many clients.
fn put_clients(
    nodes: &[SharedNode],
    openers: &mut [Opener],
    lines: &[NumberedLine],
    clients: u8,
    jobs: &mut Vec<Job>,
) -> Result<(), NoMemory>
    requires locks { (w : ℕ) × AreLocks (length nodes.now) w nodes.now }
    requires some { 1 ≤ length nodes.now }
    requires few { length nodes.now ≤ MOST_MEMBERS }
    requires within { All (λ l. LiveLineIsWithin (length nodes.now) clients l.line) lines.now }
    requires opened { AreOpened nodes.now openers.old jobs.old.items }
    requires none { jobs.old.items ≡ [] }
    ensures jobs { OnOk result ((mailboxes : List (AMailbox ALetter)) → AreJobs nodes.now mailboxes (commands_in lines.now) clients 0 jobs.new.items) }
    ensures opened { OnOk result (AreOpened nodes.now openers.new jobs.new.items) }
{
    for number in 0..clients {
        put_client(nodes, openers, lines, number, jobs)?;
    }
    Ok(())
}

/// Puts the job of the client of a number.
fn put_client(
    nodes: &[SharedNode],
    openers: &mut [Opener],
    lines: &[NumberedLine],
    number: u8,
    jobs: &mut Vec<Job>,
) -> Result<(), NoMemory>
    requires locks { (w : ℕ) × AreLocks (length nodes.now) w nodes.now }
    requires some { 1 ≤ length nodes.now }
    requires few { length nodes.now ≤ MOST_MEMBERS }
    requires within { (clients : ℕ) × All (λ l. LiveLineIsWithin (length nodes.now) clients l.line) lines.now }
    requires opened { AreOpened nodes.now openers.old jobs.old.items }
    requires first { length jobs.old.items ≡ number }
    ensures jobs { OnOk result ((mailboxes : List (AMailbox ALetter)) → AreJobs nodes.now mailboxes (commands_in lines.now) number 0 jobs.old.items
        → AreJobs nodes.now mailboxes (commands_in lines.now) (number + 1) 0 jobs.new.items) }
    ensures opened { OnOk result (AreOpened nodes.now openers.new jobs.new.items) }
{
    let at = replica_of(nodes.len() as u8, number, lines);
    let pass = split_at(nodes, openers, usize::from(at));
    Ok(jobs.push(Job::Client { number, at, pass })?)
}

/// The replica at which a client works, of `n`.
fn replica_of(n: u8, c: u8, lines: &[NumberedLine]) -> u8
    requires { 1 ≤ n }
    ensures { result ≡ replica_of_client n (commands_in lines.now) c }
{
    let mut at = c % n;
    for line in lines {
        at = works_at(c, at, &line.line);
    }
    at
}

/// Where a client works behind a line, that worked at a replica before it.
fn works_at(c: u8, at: u8, line: &LiveLine) -> u8
    ensures { result ≡ fold (works_at c) at (command_in line.now) }
{
    match line {
        LiveLine::Run(LiveCommand::Client { c: k, r }) if *k == c => *r,
        _ => at,
    }
}

/// Puts the jobs of each member's courier.
fn put_couriers(
    alloc: Global,
    nodes: &[SharedNode],
    openers: &mut [Opener],
    mailboxes: &[Mailbox<Letter>],
    firsts: &mut [MailPass<Letter>],
    jobs: &mut Vec<Job>,
) -> Result<(), NoMemory>
    requires locks { (w : ℕ) × AreLocks (length nodes.now) w nodes.now }
    requires few { length nodes.now ≤ MOST_MEMBERS }
    requires opened { AreOpened nodes.now openers.old jobs.old.items }
    requires clients { length jobs.old.items < 256 }
    requires mailboxes { length mailboxes.now ≡ length nodes.now }
    requires firsts { AreFirsts 0 mailboxes.now firsts.old }
    ensures jobs { OnOk result ((commands : List ALiveCommand) (clients : ℕ) → AreJobs nodes.now mailboxes.now commands clients 0 jobs.old.items
        → AreJobs nodes.now mailboxes.now commands clients (length nodes.now) jobs.new.items) }
    ensures opened { OnOk result (AreOpened nodes.now openers.new jobs.new.items) }
    ensures firsts { OnOk result (AreFirsts (length nodes.now) mailboxes.now firsts.new) }
{
    for me in 0..nodes.len() as u8 {
        put_courier(alloc, nodes, openers, mailboxes, firsts, me, jobs)?;
    }
    Ok(())
}

/// Puts the job of a member's courier.
fn put_courier(
    alloc: Global,
    nodes: &[SharedNode],
    openers: &mut [Opener],
    mailboxes: &[Mailbox<Letter>],
    firsts: &mut [MailPass<Letter>],
    me: u8,
    jobs: &mut Vec<Job>,
) -> Result<(), NoMemory>
    requires locks { (w : ℕ) × AreLocks (length nodes.now) w nodes.now }
    requires member { me < length nodes.now }
    requires few { length nodes.now ≤ MOST_MEMBERS }
    requires opened { AreOpened nodes.now openers.old jobs.old.items }
    requires room { length jobs.old.items < 1024 }
    requires mailboxes { length mailboxes.now ≡ length nodes.now }
    requires firsts { AreFirsts me mailboxes.now firsts.old }
    ensures jobs { OnOk result ((commands : List ALiveCommand) (clients : ℕ) → AreJobs nodes.now mailboxes.now commands clients me jobs.old.items
        → AreJobs nodes.now mailboxes.now commands clients (me + 1) jobs.new.items) }
    ensures more { OnOk result (length jobs.new.items ≡ length jobs.old.items + 1) }
    ensures opened { OnOk result (AreOpened nodes.now openers.new jobs.new.items) }
    ensures firsts { OnOk result (AreFirsts (me + 1) mailboxes.now firsts.new) }
{
    let pass = split_at(nodes, openers, usize::from(me));
    let mails = fork_all(alloc, mailboxes, firsts)?;
    let fresh = CourierDone { pass, mails };
    Ok(jobs.push(Job::Courier { me, fresh })?)
}
