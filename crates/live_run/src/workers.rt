//! Workers in threads: clients and couriers.

ghost use Rattle.std.specs.Prelude.{◌≡◌, ℕ, ◌<◌, IfOk, vec_len, slice_index_or};
ghost use Rattle.live_run.specs.Jobs.{IsJob, IsClientsJob, IsCouriersJob, IsDone, IsClientsDone, IsCouriersDone};

use crate::client::{Client, make_commands};
use crate::courier::{Courier, carry_letters};
use crate::input::NumberedLine;
use crate::letter::Letter;
use crate::told::{ClientDone, CourierDone};
use mailboxes::Mailbox;
use op_base::NoMemory;
use replica_lock::{Pass, SharedNode};
use std::alloc::Global;
use std::sync::Wait;
use std::thread;
use std::thread::Threads;
use store_io::Gate;

/// What a worker has when it begins: its number, its replica and its passes.
#[derive(Drop)]
pub enum Job {
    /// A client at a replica.
    Client { number: u8, at: u8, pass: Pass },
    /// The courier of a replica.
    Courier { me: u8, fresh: CourierDone },
}

/// What it gives back.
#[derive(Drop)]
pub enum Done {
    /// A client that made its commands, at the node at a place.
    Client { at: usize, done: ClientDone },
    /// A courier that made its turns.
    Courier { at: usize, done: CourierDone },
    /// The pass of a worker that wanted memory.
    Stopped(Pass),
}

/// The numbers of a run: how many members and clients there are, how often a client makes a call again and how many turns a
/// courier makes, and which letters are lost.
#[derive(Clone, Copy, Debug, PartialEq, Eq)]
pub struct Plan {
    pub n: u8,
    pub clients: u8,
    pub turns: u32,
    /// A letter whose number this divides is lost; with 0 none is.
    pub loss: u32,
}

/// Does a job.
fn work<R: Wait, G: Gate>(
    rt: &R,
    alloc: Global,
    nodes: &[SharedNode],
    mailboxes: &[Mailbox<Letter>],
    lines: &[NumberedLine],
    plan: &Plan,
    gate: &G,
    job: Job,
) -> Done
    requires { IsJob nodes.now mailboxes.now plan.now.n job }
    ensures { IsDone nodes.now mailboxes.now lines.now job result }
{
    match job {
        Job::Client { number, at, pass } => {
            let client = Client {
                number,
                turns: plan.turns,
                gate,
            };
            work_as_client(rt, alloc, nodes, lines, &client, at, pass)
        }
        Job::Courier { me, fresh } => {
            let courier = Courier {
                me,
                n: plan.n,
                worker: u32::from(plan.clients) + u32::from(me),
                turns: plan.turns,
                loss: plan.loss,
                gate,
            };
            work_as_courier(rt, alloc, nodes, mailboxes, &courier, fresh)
        }
    }
}

/// Makes a client's commands at a replica.
fn work_as_client<R: Wait, G: Gate>(
    rt: &R,
    alloc: Global,
    nodes: &[SharedNode],
    lines: &[NumberedLine],
    client: &Client<'_, G>,
    at: u8,
    pass: Pass,
) -> Done
    requires { IsClientsJob nodes.now at pass }
    ensures { IsClientsDone nodes.now lines.now client.now.number at result }
{
    match make_commands(rt, alloc, &nodes[usize::from(at)], pass, client, lines) {
        Ok(done) => Done::Client {
            at: usize::from(at),
            done,
        },
        Err(stopped) => Done::Stopped(stopped.pass),
    }
}

/// Makes a courier's turns at its replica.
fn work_as_courier<R: Wait, G: Gate>(
    rt: &R,
    alloc: Global,
    nodes: &[SharedNode],
    mailboxes: &[Mailbox<Letter>],
    courier: &Courier<'_, G>,
    fresh: CourierDone,
) -> Done
    requires { IsCouriersJob nodes.now mailboxes.now courier.now.n courier.now.me fresh }
    ensures { IsCouriersDone nodes.now mailboxes.now courier.now.me result }
{
    let node = &nodes[usize::from(courier.me)];
    match carry_letters(rt, alloc, node, mailboxes, courier, fresh) {
        Ok(done) => Done::Courier {
            at: usize::from(courier.me),
            done,
        },
        Err(stopped) => Done::Stopped(stopped.pass),
    }
}

/// All jobs, each in a thread of its own where one can be made; results by place.
pub fn work_all<R: Threads + Wait + Sync, G: Gate + Sync>(
    rt: &R,
    alloc: Global,
    nodes: &[SharedNode],
    mailboxes: &[Mailbox<Letter>],
    lines: &[NumberedLine],
    plan: &Plan,
    gate: &G,
    jobs: Vec<Job>,
) -> Result<Vec<Done>, NoMemory>
    requires { (i : ℕ) (d : _) → i < vec_len jobs → IsJob nodes.now mailboxes.now plan.now.n (slice_index_or jobs.items i d) }
    ensures len { IfOk result (λ v. vec_len v ≡ vec_len jobs) }
    ensures each { IfOk result (λ v. (i : ℕ) (d : _) (e : _) → i < vec_len jobs → IsDone nodes.now mailboxes.now lines.now (slice_index_or jobs.items i d) (slice_index_or v.items i e)) }
{
    Ok(thread::map_vec(
        rt,
        jobs,
        &|job| -> Done
            requires { IsJob nodes.now mailboxes.now plan.now.n job }
            ensures { IsDone nodes.entry.now mailboxes.entry.now lines.entry.now job result }
        { work(rt, alloc, nodes, mailboxes, lines, plan, gate, job) },
    )?)
}
