//! Two phones keep one shopping list, each with a peer of its own. They edit it while they are cut off from each other, and
//! then exchange frames over a network that loses, repeats and reorders. The network is this program's own: frames are handed
//! from one peer to the other.
#![tactic(auto)]

use anyhow::{Context, Result, bail};
use op_base::{Act, Answer, ByteList, ObjectId, Update, Value};
use peer::{Beat, Heard, Peer, Updated};
use std::alloc::Global;

const MEMBERS: u8 = 2;

const WINDOW: u8 = 8;

const LIMIT: u32 = 10000;

/// The list.
fn list(alloc: Global) -> Result<ObjectId> {
    Ok(ObjectId::read(alloc, b"awset:list")?)
}

/// Does an act to the list at a phone. The phone is cut off, so the frame is let go: it is sent again later.
fn edit(alloc: Global, phone: &mut Peer, act: Act) -> Result<()> {
    let Ok(update) = Update::new(list(alloc)?, act) else {
        bail!("a set has no such act");
    };
    match phone.update(alloc, &update) {
        Updated::Frame(_) => Ok(()),
        Updated::Busy => bail!("too much that the other phone hasn't heard"),
        Updated::End => bail!("the limit is reached"),
        Updated::NoMemory => bail!("no memory"),
    }
}

/// Puts a thing on the list.
fn add(alloc: Global, phone: &mut Peer, thing: &str) -> Result<()> {
    let value = Value::read(alloc, thing.as_bytes())?;
    edit(alloc, phone, Act::Add(value))
}

/// Takes a thing off the list.
fn remove(alloc: Global, phone: &mut Peer, thing: &str) -> Result<()> {
    let value = Value::read(alloc, thing.as_bytes())?;
    edit(alloc, phone, Act::Rmv(value))
}

/// What came of a frame, in a word.
fn word(heard: Heard) -> &'static str {
    match heard {
        Heard::Bad(_) => "no frame",
        Heard::Old => "old",
        Heard::Again => "waits already",
        Heard::Far => "too far ahead",
        Heard::Kept => "waits",
        Heard::Took(_) => "taken",
        Heard::NoMemory => "no memory",
    }
}

/// Brings frames to a phone, in the order of these places, from 0. A frame whose place isn't named is lost.
fn bring(
    rt: &impl Print,
    alloc: Global,
    frames: &[ByteList],
    order: &[usize],
    phone: &mut Peer,
) -> Result<()> {
    for place in order {
        let frame = frames.get(*place).context("no frame at this place")?;
        let heard = word(phone.hear(alloc, frame.as_slice()));
        println!(rt; "  frame {place}: {heard}")?;
    }
    Ok(())
}

/// A phone sends again what isn't known to be everywhere, and the network brings it in an order.
fn send_again(
    rt: &impl Print,
    alloc: Global,
    from: &Peer,
    order: &[usize],
    to: &mut Peer,
) -> Result<()> {
    let frames = from.to_send_again(alloc)?;
    bring(rt, alloc, frames.as_slice(), order, to)
}

/// Sends a no-op where one is due, after the phone has heard. The frame is let go here too.
fn beat(rt: &impl Print, alloc: Global, name: &str, phone: &mut Peer) -> Result<()> {
    match phone.beat(alloc) {
        Beat::Frame(_) => println!(rt; "{name} beats")?,
        Beat::Quiet => println!(rt; "{name} has nothing to confirm")?,
        Beat::Held => println!(rt; "{name} waits before it confirms")?,
        Beat::End => bail!("the limit is reached"),
        Beat::NoMemory => bail!("no memory"),
    }
    Ok(())
}

/// Prints the list at a phone.
fn show(rt: &impl Print, alloc: Global, name: &str, phone: &Peer) -> Result<()> {
    let Answer::Values(values) = phone.ask(alloc, &list(alloc)?)? else {
        bail!("a set has values");
    };
    print!(rt; "{name} has:")?;
    for value in values.as_slice() {
        print!(rt; " {}", str::from_utf8(value.as_slice())?)?;
    }
    println!(rt; "")?;
    Ok(())
}

/// Prints how many frames a phone would send again.
fn show_unsent(rt: &impl Print, alloc: Global, name: &str, phone: &Peer) -> Result<()> {
    let count = phone.to_send_again(alloc)?.len();
    println!(rt; "{name} has {count} to send again")?;
    Ok(())
}

/// Both edit the list while they are cut off.
fn edit_apart(rt: &impl Print, alloc: Global, ann: &mut Peer, ben: &mut Peer) -> Result<()> {
    println!(rt; "cut off")?;
    add(alloc, ann, "bread")?;
    add(alloc, ann, "milk")?;
    remove(alloc, ann, "milk")?;
    add(alloc, ben, "milk")?;
    add(alloc, ben, "eggs")?;
    show(rt, alloc, "Ann", ann)?;
    show(rt, alloc, "Ben", ben)
}

/// Frames go both ways: of Ann's the second is lost, and the third comes first and twice; Ben's come in reverse, one twice.
fn meet(rt: &impl Print, alloc: Global, ann: &mut Peer, ben: &mut Peer) -> Result<()> {
    println!(rt; "Ann to Ben")?;
    send_again(rt, alloc, ann, &[2, 0, 2], ben)?;
    println!(rt; "Ben to Ann")?;
    send_again(rt, alloc, ben, &[1, 0, 0], ann)
}

/// Each beats after it has heard, and sends again what isn't known to be everywhere.
fn settle(rt: &impl Print, alloc: Global, ann: &mut Peer, ben: &mut Peer) -> Result<()> {
    beat(rt, alloc, "Ann", ann)?;
    println!(rt; "Ann to Ben")?;
    send_again(rt, alloc, ann, &[0, 1, 2, 3], ben)?;
    beat(rt, alloc, "Ben", ben)?;
    println!(rt; "Ben to Ann")?;
    send_again(rt, alloc, ben, &[0], ann)
}

/// What both have in the end.
fn show_all(rt: &impl Print, alloc: Global, ann: &Peer, ben: &Peer) -> Result<()> {
    show(rt, alloc, "Ann", ann)?;
    show(rt, alloc, "Ben", ben)?;
    show_unsent(rt, alloc, "Ann", ann)?;
    show_unsent(rt, alloc, "Ben", ben)
}

/// The whole story.
fn story(rt: &impl Print, alloc: Global, ann: &mut Peer, ben: &mut Peer) -> Result<()> {
    edit_apart(rt, alloc, ann, ben)?;
    meet(rt, alloc, ann, ben)?;
    settle(rt, alloc, ann, ben)?;
    show_all(rt, alloc, ann, ben)
}

/// The phone of a member.
fn phone(alloc: Global, me: u8) -> Result<Peer> {
    Peer::create(alloc, me, MEMBERS, WINDOW, LIMIT)
        .ok()
        .context("no memory for a phone")
}

fn main(rt: HostRuntime) -> Result<()> {
    let alloc = rt.alloc();
    let mut ann = phone(alloc, 0)?;
    let mut ben = phone(alloc, 1)?;
    story(&rt, alloc, &mut ann, &mut ben)
}
