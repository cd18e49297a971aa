//! The buffer of early messages. Each other member's messages are offered, with the first of each last where the order is
//! `reverse`, in seven passes where it is `mixed` and far from one another where it is `scattered`, and then all are delivered.
//! The number is how many messages were kept.

ghost use Rattle.std.specs.Prelude.{◌≡◌, ◌<◌, ◌≤◌, length};
ghost use Rattle.causal_buffer.specs.Buffer.{AreAhead, AreNear};

use anyhow::{Result, bail};
use causal_buffer::{CausalBuffer, Offer};
use causal_model::{MOST_WINDOW, most_unstable};
use op_base::{MOST_MEMBERS, Message, MessageId, Op, Tag};
use std::alloc::Global;

/// By so many numbers go on where they are mixed, and by so many where they are scattered, and round at the end: the second is
/// some 0.62 of a round. They are primes that go into neither of the sizes that are measured, so each number comes once.
const STEP: u32 = 7;

const LEAP: u32 = 32987;

/// In what order a member's messages are offered.
#[derive(Clone, Copy)]
enum Order {
    Rising,
    Falling,
    Round(u32),
}

fn order_of(word: &str) -> Result<Order> {
    Ok(match word {
        "order" => Order::Rising,
        "reverse" => Order::Falling,
        "mixed" => Order::Round(STEP),
        "scattered" => Order::Round(LEAP),
        _ => bail!("no order: {word}"),
    })
}

/// The number that is offered in a turn of so many, from 1 on.
fn ahead_of(order: Order, turn: u32, most: u32) -> u32
    requires { turn < most }
{
    match order {
        Order::Rising => turn + 1,
        Order::Falling => most - turn,
        Order::Round(step) => turn.wrapping_mul(step) % most + 1,
    }
}

/// The first member of a store, which receives: what it was told, and how much it has delivered.
#[derive(Drop)]
struct Receiver {
    counts: Tag,
    buffer: CausalBuffer,
    ghost members: { length counts ≡ buffer.n },
    ghost ahead: { AreAhead counts buffer.early },
    ghost near: { AreNear buffer.n buffer.w counts buffer.early },
}

impl Receiver {
    /// Offers a message that has seen none of others: that of a member which is so many ahead of what was delivered.
    /// Whether it was kept.
    fn offer(&mut self, origin: u8, ahead: u32) -> bool {
        if origin == 0 || origin >= self.counts.members() {
            return false;
        }
        let count = self.counts.at(origin);
        let seq = count.saturating_add(ahead);
        if seq <= count {
            return false;
        }
        let mut tag = Tag::zero(self.counts.members());
        tag.set(origin, seq);
        let message = Message {
            origin,
            tag,
            op: Op::NoOp,
        };
        matches!(self.buffer.offer(message, 0, &self.counts), Offer::Kept)
    }

    /// Takes out what is next, as delivered. `None` where there is none.
    fn deliver(&mut self) -> Option<MessageId> {
        let id = self.buffer.next(&self.counts)?;
        let taken = self.buffer.remove(id).is_some();
        self.counts.set(id.origin, id.seq);
        taken.then_some(id)
    }

    /// Offers so many messages of each other member. How many were kept.
    fn fill(&mut self, most: u32, order: Order) -> u64 {
        let mut kept = 0u64;
        for turn in 0..most {
            let ahead = ahead_of(order, turn, most);
            for origin in 1..self.counts.members() {
                if self.offer(origin, ahead) {
                    kept = kept.wrapping_add(1);
                }
            }
        }
        kept
    }
}

/// Fills so many hundredths of a buffer's room and delivers all, so often.
pub fn measure(alloc: Global, n: u8, w: u8, filled: u32, order: &str, turns: u32) -> Result<u64>
    requires some { 1 ≤ n }
    requires few { n ≤ MOST_MEMBERS }
    requires narrow { w ≤ MOST_WINDOW }
    requires within { filled ≤ 100 }
{
    let order = order_of(order)?;
    let mut receiver = Receiver {
        counts: Tag::zero(n),
        buffer: CausalBuffer::create(alloc, n, w)?,
    };
    let most = most_unstable(n, w) * filled / 100;
    let mut kept = 0u64;
    for _ in 0..turns {
        kept = kept.wrapping_add(receiver.fill(most, order));
        for _ in 0..receiver.buffer.len() {
            if receiver.deliver().is_none() {
                bail!("a message stays");
            }
        }
    }
    Ok(kept)
}
