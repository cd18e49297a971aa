//! The outbox. The first member's messages are pushed, and then all are let go one after the other. The number is how many
//! were pushed.

ghost use Rattle.std.specs.Prelude.{◌≡◌, ◌+◌, ◌≤◌, length, All};
ghost use Rattle.op_base.specs.Message.{number};
ghost use Rattle.op_base.specs.Timestamp.{entry};
ghost use Rattle.causal_model.specs.Stability.{noop_window};

use anyhow::{Result, bail};
use causal_model::{MOST_WINDOW, most_unstable};
use op_base::{MOST_MEMBERS, Message, Op, Tag};
use outbox::Outbox;
use std::alloc::Global;

/// The first member of a store, which sends: its last timestamp, and what is stable.
#[derive(Drop)]
struct Sender {
    room: usize,
    sent: Tag,
    stable: Tag,
    outbox: Outbox,
    ghost within: { room ≤ outbox.w + noop_window outbox.n outbox.w },
    ghost some: { 1 ≤ outbox.n },
    ghost sent_members: { length sent ≡ outbox.n },
    ghost stable_members: { length stable ≡ outbox.n },
    ghost own: { All (λ m. m.origin ≡ 0) outbox.messages },
    ghost earlier: { All (λ m. number m ≤ entry sent 0) outbox.messages },
}

impl Sender {
    #[tactic(auto, using(crate::proofs::Sent::comes_after, crate::proofs::Sent::own_with, crate::proofs::Sent::upto_with))]
    /// Sends the next message. Whether there was room.
    fn push(&mut self) -> bool {
        let seq = self.sent.at(0).saturating_add(1);
        if seq <= self.sent.at(0) || self.outbox.messages().len() >= self.room {
            return false;
        }
        self.sent.set(0, seq);
        self.outbox.push(Message {
            origin: 0,
            tag: self.sent,
            op: Op::NoOp,
        });
        true
    }

    /// Lets the next message go.
    fn drop_next(&mut self) {
        self.stable.set(0, self.stable.at(0).saturating_add(1));
        self.outbox.drop_stable(&self.stable);
    }
}

/// Fills so many hundredths of an outbox's room and empties it, so often.
pub fn measure(alloc: Global, n: u8, w: u8, filled: u32, turns: u32) -> Result<u64>
    requires some { 1 ≤ n }
    requires few { n ≤ MOST_MEMBERS }
    requires window { 1 ≤ w }
    requires narrow { w ≤ MOST_WINDOW }
    requires within { filled ≤ 100 }
{
    let room = most_unstable(n, w);
    let mut sender = Sender {
        room: room as usize,
        sent: Tag::zero(n),
        stable: Tag::zero(n),
        outbox: Outbox::create(alloc, n, w)?,
    };
    let most = room * filled / 100;
    let mut pushed = 0u64;
    for _ in 0..turns {
        for _ in 0..most {
            if !sender.push() {
                bail!("there is no room");
            }
            pushed = pushed.wrapping_add(1);
        }
        for _ in 0..most {
            sender.drop_next();
        }
        if !sender.outbox.messages().is_empty() {
            bail!("a message stays");
        }
    }
    Ok(pushed)
}
