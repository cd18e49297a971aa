//! A run of workers, from the opening of its nodes to their closing.

ghost use Rattle.std.specs.Prelude.{◌≡◌, ◌+◌, ◌<◌, ◌≤◌, ℕ, [], length, All, IfOk, OnOk, map};
ghost use Rattle.std.specs.List.{slice_index_or};
ghost use Rattle.op_base.specs.declared.tag.TheConstants.{MOST_MEMBERS};
ghost use Rattle.causal_model.specs.declared.room.TheConstants.{MOST_WINDOW};
ghost use Rattle.script_lang.specs.Ranges.{LiveLineIsWithin};
ghost use Rattle.live_run.specs.Ended.{AreLocks, HasEnded};
ghost use Rattle.live_run.specs.Inputs.{commands_in};
ghost use Rattle.live_run.specs.Joining.{AreOut, NodeOpener};
ghost use Rattle.live_run.specs.Opening.{AreFirsts, AreJobs, AreOpened};
ghost use Rattle.live_run.specs.Returned.{AreReturned, HaveWorked};

use crate::boxes::{join_rows, open_mailboxes};
use crate::closed::close_joined;
use crate::input::NumberedLine;
use crate::jobs::jobs_of;
use crate::joining::Back;
use crate::letter::Letter;
use crate::opening::open_nodes;
use crate::returned::{Returned, take_apart};
use crate::told::Told;
use crate::workers::{Job, Plan, work_all};
use mailboxes::{MailPass, Mailbox};
use op_base::NoMemory;
use replica_lock::{Opener, SharedNode};
use replica_node::{Journal, Node};
use std::alloc::Global;
use std::sync::Wait;
use std::thread::Threads;
use store_io::Gate;

/// What came of a run: what each client was told, and the members' nodes.
#[derive(Drop)]
pub(crate) struct Ran {
    pub told: Vec<Vec<Told>>,
    pub nodes: Vec<Node<Journal>>,
}

/// Runs all workers, each in a thread of its own where one can be made, and closes the nodes once all are back. Letters that
/// are left in mailboxes are dropped.
pub(crate) fn run_workers<R: Threads + Wait + Sync, G: Gate + Sync>(
    rt: &R,
    alloc: Global,
    w: u8,
    lines: &[NumberedLine],
    plan: &Plan,
    gate: &G,
) -> Result<Ran, NoMemory>
    requires some { 1 ≤ plan.now.n }
    requires few { plan.now.n ≤ MOST_MEMBERS }
    requires window { 1 ≤ w }
    requires narrow { w ≤ MOST_WINDOW }
    requires workers { plan.now.clients ≤ 8 }
    requires within { All (λ l. LiveLineIsWithin plan.now.n plan.now.clients l.line) lines.now }
    ensures { IfOk result (λ ran. HasEnded plan.now.n w plan.now.clients (commands_in lines.now) (map (λ ts. ts.items) ran.told.items) ran.nodes.items) }
{
    let (nodes, mut openers) = open_nodes(alloc, plan.n, w)?;
    let (mailboxes, mut firsts) = open_mailboxes(alloc, plan.n)?;
    let Worked { told, backs } = work_opened(
        rt,
        alloc,
        lines,
        plan,
        gate,
        &nodes,
        &mut openers,
        &mailboxes,
        &mut firsts,
    )?;
    let nodes = close_joined(alloc, nodes, openers, backs)?;
    Ok(Ran { told, nodes })
}

/// What workers were back with, once couriers' passes of the mailboxes were joined.
#[derive(Drop)]
pub struct Worked {
    pub told: Vec<Vec<Told>>,
    pub backs: Vec<Back>,
}

/// Runs all workers on nodes and mailboxes that are open.
fn work_opened<R: Threads + Wait + Sync, G: Gate + Sync>(
    rt: &R,
    alloc: Global,
    lines: &[NumberedLine],
    plan: &Plan,
    gate: &G,
    nodes: &[SharedNode],
    openers: &mut [Opener],
    mailboxes: &[Mailbox<Letter>],
    firsts: &mut [MailPass<Letter>],
) -> Result<Worked, NoMemory>
    requires locks { (w : ℕ) × AreLocks (length nodes.now) w nodes.now }
    requires of_each { length nodes.now ≡ plan.now.n }
    requires some { 1 ≤ length nodes.now }
    requires few { length nodes.now ≤ MOST_MEMBERS }
    requires within { All (λ l. LiveLineIsWithin (length nodes.now) plan.now.clients l.line) lines.now }
    requires opened { AreOpened nodes.now openers.old [] }
    requires mailboxes { length mailboxes.now ≡ length nodes.now }
    requires firsts { AreFirsts 0 mailboxes.now firsts.old }
    ensures worked { (w : ℕ) → AreLocks (length nodes.now) w nodes.now → IfOk result (λ worked. HaveWorked nodes.now mailboxes.now lines.now w plan.now.clients (map (λ ts. ts.items) worked.told.items) worked.backs.items firsts.new) }
    ensures out { IfOk result (λ worked. AreOut nodes.now openers.new worked.backs.items) }
    ensures fresh { OnOk result ((r : ℕ) (e : NodeOpener) → r < length nodes.now → (slice_index_or openers.new r e).own ≡ []) }
{
    let jobs = jobs_of(
        alloc,
        nodes,
        openers,
        mailboxes,
        firsts,
        lines,
        plan.clients,
    )?;
    let returned = work_jobs(rt, alloc, nodes, mailboxes, lines, plan, gate, jobs)?;
    let Returned { told, rows, backs } = returned;
    join_rows(mailboxes, firsts, rows);
    Ok(Worked { told, backs })
}

/// Does all jobs, and puts what comes back by kind.
fn work_jobs<R: Threads + Wait + Sync, G: Gate + Sync>(
    rt: &R,
    alloc: Global,
    nodes: &[SharedNode],
    mailboxes: &[Mailbox<Letter>],
    lines: &[NumberedLine],
    plan: &Plan,
    gate: &G,
    jobs: Vec<Job>,
) -> Result<Returned, NoMemory>
    requires of_each { length nodes.now ≡ plan.now.n }
    requires jobs { AreJobs nodes.now mailboxes.now (commands_in lines.now) plan.now.clients (length nodes.now) jobs.items }
    ensures { (w : ℕ) → AreLocks (length nodes.now) w nodes.now
        → IfOk result (λ returned. AreReturned nodes.now mailboxes.now lines.now w plan.now.clients (plan.now.clients + length nodes.now) (map (λ ts. ts.items) returned.told.items) (map (λ row. row.items) returned.rows.items) returned.backs.items) }
{
    let results = work_all(rt, alloc, nodes, mailboxes, lines, plan, gate, jobs)?;
    take_apart(alloc, results)
}
