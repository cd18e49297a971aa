//! The log. Members add numbers to sets in turn, and each message has seen all before it. The number is how many messages
//! did what they were to do.

ghost use Rattle.std.specs.Prelude.{◌≡◌, ◌+◌, ◌<◌, ◌≤◌, false, [], length, IfOk, IsTrue};
ghost use Rattle.op_base.specs.Message.{fits};

use super::updates::{add, set};
use anyhow::{Result, bail, ensure};
use causal_model::MOST_WINDOW;
use op_base::{Entry, MOST_MEMBERS, Message, ObjectId, Op, Tag};
use polog::Polog;
use replica_core::reach_of;
use std::alloc::Global;
use type_rules::StoreRule;

/// What a turn does.
#[derive(Clone, Copy, PartialEq, Eq)]
enum Step {
    /// A message is made.
    Make,
    /// A message comes that covers one entry, and no entry is stable.
    Cover,
    /// One entry is stable, and a message comes that covers none.
    Stable,
    /// A set's entries are looked up.
    Object,
}

fn step_of(word: &str) -> Result<Step> {
    Ok(match word {
        "make" => Step::Make,
        "cover" => Step::Cover,
        "stable" => Step::Stable,
        "object" => Step::Object,
        _ => bail!("no step of the log: {word}"),
    })
}

/// The first of the letters of the sets that a log is of.
const FIRST_SET: u8 = b'a';

/// So many sets a log is of.
const SETS: u32 = 16;

/// The letter of the set and the number that a member adds in one of its turns.
pub fn place_of(origin: u8, turn: u32) -> (u8, u32) {
    let letter = FIRST_SET + (u32::from(origin).wrapping_add(turn) % SETS) as u8;
    (
        letter,
        turn.wrapping_mul(MOST_MEMBERS as u32)
            .wrapping_add(u32::from(origin)),
    )
}

/// Has the next entry handed out that was stripped. Whether there was one.
#[tactic(auto, using(crate::proofs::Handed::handed_out))]
fn hand_out_one(log: &mut Polog) -> bool
    ensures members { log.new.n ≡ log.old.n }
    ensures fewer { IsTrue result → length log.new.stripped < length log.old.stripped }
    ensures none { result ≡ false → log.new.stripped ≡ [] }
{
    log.next_stripped().is_some()
}

/// Has all entries handed out that were stripped.
fn hand_out(log: &mut Polog)
    ensures members { log.new.n ≡ log.old.n }
    ensures none { log.new.stripped ≡ [] }
{
    while hand_out_one(log) {}
}

/// A member of a store, which delivers: what it was told, what is stable, and the log.
#[derive(Drop)]
pub struct Receiver {
    alloc: Global,
    /// After so many messages a member adds the same number again.
    period: u32,
    sent: Tag,
    stable: Tag,
    log: Polog,
    ghost some: { 1 ≤ period },
    ghost sent_members: { length sent ≡ log.n },
    ghost stable_members: { length stable ≡ log.n },
    ghost handed_out: { log.stripped ≡ [] },
}

impl Receiver {
    /// One that has told so many messages of each member, all of them in the log.
    pub fn filled(alloc: Global, n: u8, w: u8, most: u32, period: u32) -> Result<Receiver>
        requires some { 1 ≤ n }
        requires few { n ≤ MOST_MEMBERS }
        requires open { 1 ≤ w }
        requires narrow { w ≤ MOST_WINDOW }
        requires period { 1 ≤ period }
        ensures { IfOk result (λ receiver. receiver.log.n ≡ n) }
    {
        let mut receiver = Receiver {
            alloc,
            period,
            sent: Tag::zero(n),
            stable: Tag::zero(n),
            log: Polog::create(alloc, n, w)?,
        };
        for _ in 0..most {
            for origin in 0..n {
                let message = receiver.next(origin)?;
                ensure!(receiver.deliver(message), "there is no room");
            }
        }
        Ok(receiver)
    }

    /// The entries, side by side by set, and others that put nothing in.
    pub fn entries(&self) -> &[Entry] {
        self.log.grouped()
    }

    /// A member's next message.
    fn next(&mut self, origin: u8) -> Result<Message>
        requires { origin < self.old.log.n }
        ensures members { self.new.log.n ≡ self.old.log.n }
        ensures fits { IfOk result (λ message. IsTrue (fits self.new.log.n message)) }
    {
        let seq = self.sent.at(origin).saturating_add(1);
        self.sent.set(origin, seq);
        let (letter, number) = place_of(origin, seq % self.period);
        let update = add(self.alloc, letter, number)?;
        Ok(Message {
            origin,
            tag: self.sent,
            op: Op::Update(update),
        })
    }

    /// Lets go what a message covers, and puts it in. Whether there was room.
    fn deliver(&mut self, message: Message) -> bool
        requires { IsTrue (fits self.old.log.n message) }
        ensures { self.new.log.n ≡ self.old.log.n }
    {
        self.log
            .prune_within(&message, &StoreRule, reach_of(&message.op));
        if self.log.room_left() == 0 || self.log.pushed() == u64::MAX {
            return false;
        }
        let Message { origin, tag, op } = message;
        let Op::Update(update) = op else {
            return false;
        };
        self.log.push(Entry {
            origin,
            tag,
            update,
        });
        true
    }

    /// Lets go what is stable, and has it handed out.
    fn strip(&mut self)
        ensures { self.new.log.n ≡ self.old.log.n }
    {
        self.log.strip(&self.stable);
        hand_out(&mut self.log);
    }

    /// Whether a member's next message is put in and the log has as many entries as before. What is stable goes first.
    fn replace(&mut self, origin: u8) -> Result<bool>
        requires { origin < self.old.log.n }
        ensures { self.new.log.n ≡ self.old.log.n }
    {
        let len = self.log.len();
        self.strip();
        let message = self.next(origin)?;
        Ok(self.deliver(message) && self.log.len() == len)
    }

    /// Whether a step does what it is to do, where a member has so many entries.
    fn does(&mut self, step: Step, origin: u8, most: u32) -> Result<bool>
        requires { origin < self.old.log.n }
        ensures { self.new.log.n ≡ self.old.log.n }
    {
        match step {
            Step::Make => {
                self.next(origin)?;
                Ok(true)
            }
            Step::Object => {
                let (letter, _) = place_of(origin, most);
                let object = set(self.alloc, letter)?;
                Ok(!self.log.of_object(&object).is_empty())
            }
            Step::Cover => self.replace(origin),
            Step::Stable => {
                let next = self.sent.at(origin).saturating_add(1);
                self.stable.set(origin, next.saturating_sub(most));
                self.replace(origin)
            }
        }
    }
}

/// Fills so many hundredths of a log's room, and takes so many steps.
pub fn measure(alloc: Global, n: u8, w: u8, filled: u32, step: &str, turns: u32) -> Result<u64>
    requires some { 1 ≤ n }
    requires few { n ≤ MOST_MEMBERS }
    requires open { 1 ≤ w }
    requires narrow { w ≤ MOST_WINDOW }
    requires within { filled ≤ 100 }
{
    let step = step_of(step)?;
    let most = u32::from(w) * filled / 100;
    let period = if step == Step::Stable { most + 1 } else { most };
    ensure!(period >= 1, "no entry");
    let mut receiver = Receiver::filled(alloc, n, w, most, period)?;
    let mut done = 0u64;
    for turn in 0..turns {
        let origin = (turn % u32::from(n)) as u8;
        if receiver.does(step, origin, most)? {
            done = done.wrapping_add(1);
        }
    }
    Ok(done)
}
