//! A live run, and its text.

ghost use Rattle.std.specs.Prelude.{◌≡◌, ◌<◌, ◌≤◌, ◌++◌, ℕ, List, length, map, take, All, IfOk, OnOk, OnErr};
ghost use Rattle.op_base.specs.declared.tag.TheConstants.{MOST_MEMBERS};
ghost use Rattle.causal_model.specs.declared.room.TheConstants.{MOST_WINDOW};
ghost use Rattle.script_lang.specs.Ranges.{LiveLineIsWithin};
ghost use Rattle.world_model.specs.Journals.{HaveGrown, world_of_journals};
ghost use Rattle.live_run.specs.Ended.{AreApartIn, HasEnded, HaveSettled, IsRunOf, notes_of_each};
ghost use Rattle.live_run.specs.Inputs.{commands_in};
ghost use Rattle.live_run.specs.Limits.{live_limit};
ghost use Rattle.live_run.specs.Runs.{IsLiveText};
ghost use Rattle.live_run.specs.Texts.{live_text};

use crate::input::NumberedLine;
use crate::run::{Ran, run_workers};
use crate::text::put_live_text;
use crate::told::Told;
use crate::workers::Plan;
use causal_model::Note;
use op_base::{NoMemory, Text};
use replica_node::{Journal, Node};
use std::alloc::Global;
use std::sync::Wait;
use std::thread::Threads;
use store_io::Gate;
use world::World;
use world_model::Settle;

/// Runs the live mode, and puts its text at the end of a text: the lines that are no commands, what each client was told, that
/// the run settled, the journals, and what each object is at each member in the end. There are `n` members, 1 to 16, with a
/// window of 1 to 64, and 1 to 8 clients. A client makes a call that is busy again, so often at most as there are turns, and a
/// courier makes so many turns; a letter is lost whose number among its courier's `loss` divides.
///
/// Each client and each member's courier is at work in a thread of its own where one can be made; once all are back, the nodes
/// settle as a world does. `NoMemory` leaves the text as it was. It waits for turns of locks and for threads: what is said of it
/// is said of a call that returns.
pub fn live<R: Threads + Wait + Sync, G: Gate + Sync>(
    rt: &R,
    alloc: Global,
    n: u8,
    w: u8,
    clients: u8,
    turns: u32,
    loss: u32,
    lines: &[NumberedLine],
    gate: &G,
    out: &mut Text,
) -> Result<(), NoMemory>
    requires members { 1 ≤ n }
    requires few { n ≤ MOST_MEMBERS }
    requires window { 1 ≤ w }
    requires narrow { w ≤ MOST_WINDOW }
    requires some { 1 ≤ clients }
    requires workers { clients ≤ 8 }
    requires within { All (λ l. LiveLineIsWithin n clients l.line) lines.now }
    ensures text { OnOk result ((text : List ℕ) × (out.new ≡ out.old ++ text) × IsLiveText n w clients lines.now text) }
    ensures err { OnErr result (out.new ≡ out.old) }
{
    let start = out.len();
    let plan = Plan {
        n,
        clients,
        turns,
        loss,
    };
    let done = put_run(rt, alloc, w, lines, &plan, gate, out);
    if done.is_err() {
        out.truncate(start);
    }
    done
}

/// Runs the live mode, and puts its text. On `NoMemory` a part of it may stand there.
fn put_run<R: Threads + Wait + Sync, G: Gate + Sync>(
    rt: &R,
    alloc: Global,
    w: u8,
    lines: &[NumberedLine],
    plan: &Plan,
    gate: &G,
    out: &mut Text,
) -> Result<(), NoMemory>
    requires some { 1 ≤ plan.now.n }
    requires few { plan.now.n ≤ MOST_MEMBERS }
    requires window { 1 ≤ w }
    requires narrow { w ≤ MOST_WINDOW }
    requires workers { plan.now.clients ≤ 8 }
    requires within { All (λ l. LiveLineIsWithin plan.now.n plan.now.clients l.line) lines.now }
    ensures text { OnOk result ((text : List ℕ) × (out.new ≡ out.old ++ text) × IsLiveText plan.now.n w plan.now.clients lines.now text) }
    ensures err { OnErr result (take (length out.old) out.new ≡ out.old) }
{
    let ran = run_workers(rt, alloc, w, lines, plan, gate)?;
    let Ran { told, nodes } = settle_run(alloc, plan, lines, ran)?;
    put_settled(alloc, plan, lines, told.as_slice(), nodes.as_slice(), out)
}

/// Settles a run.
fn settle_run(alloc: Global, plan: &Plan, lines: &[NumberedLine], ran: Ran) -> Result<Ran, NoMemory>
    requires some { 1 ≤ plan.now.n }
    requires few { plan.now.n ≤ MOST_MEMBERS }
    requires within { All (λ l. LiveLineIsWithin plan.now.n plan.now.clients l.line) lines.now }
    requires ended { (w : ℕ) × (1 ≤ w) × HasEnded plan.now.n w plan.now.clients (commands_in lines.now) (map (λ ts. ts.items) ran.told.items) ran.nodes.items }
    ensures { (w : ℕ) → 1 ≤ w → HasEnded plan.now.n w plan.now.clients (commands_in lines.now) (map (λ ts. ts.items) ran.told.items) ran.nodes.items
        → IfOk result (λ settled. IsRunOf plan.now.n w plan.now.clients (commands_in lines.now) (map (λ ts. ts.items) settled.told.items) settled.nodes.items) }
{
    let Ran { told, nodes } = ran;
    let nodes = settle(alloc, nodes)?;
    Ok(Ran { told, nodes })
}

/// Settles the nodes of a run.
fn settle(alloc: Global, nodes: Vec<Node<Journal>>) -> Result<Vec<Node<Journal>>, NoMemory>
    requires { (n : ℕ) × (w : ℕ) × AreApartIn n w nodes.items }
    ensures grown { IfOk result (λ settled. HaveGrown (notes_of_each nodes.items) (notes_of_each settled.items)) }
    ensures settled { (n w : ℕ) → AreApartIn n w nodes.items → IfOk result (λ settled. HaveSettled n w settled.items) }
{
    let mut world = World::of_nodes(alloc, nodes)?;
    match world.settle(alloc) {
        Settle::Settled => Ok(world.nodes),
        Settle::NoMemory => Err(NoMemory),
        Settle::Unsettled => unreachable!(),
    }
}

/// Puts the text of a run that has settled.
fn put_settled(
    alloc: Global,
    plan: &Plan,
    lines: &[NumberedLine],
    told: &[Vec<Told>],
    nodes: &[Node<Journal>],
    out: &mut Text,
) -> Result<(), NoMemory>
    requires run { (w : ℕ) × IsRunOf plan.now.n w plan.now.clients (commands_in lines.now) (map (λ ts. ts.items) told.now) nodes.now }
    requires few { plan.now.n ≤ MOST_MEMBERS }
    ensures ok { (w : ℕ) → OnOk result (out.new ≡ out.old ++ live_text plan.now.n lines.now (world_of_journals plan.now.n w live_limit (notes_of_each nodes.now)) (map (λ ts. ts.items) told.now) (notes_of_each nodes.now)) }
    ensures err { OnErr result (take (length out.old) out.new ≡ out.old) }
{
    let journals = journals_of(alloc, nodes)?;
    put_live_text(alloc, plan.n, lines, told, journals.as_slice(), nodes, out)
}

/// The journals of nodes.
fn journals_of(alloc: Global, nodes: &[Node<Journal>]) -> Result<Vec<&[Note]>, NoMemory>
    ensures { IfOk result (λ journals. map (λ j. j.now) journals.items ≡ notes_of_each nodes.now) }
{
    let mut journals = Vec::with_capacity(alloc, nodes.len())?;
    for node in nodes {
        journals.push(node.journal.notes())?;
    }
    Ok(journals)
}
