//! Replicas. All members of a store send in turn, and each of the others receives what was sent: at once, or late, so that
//! windows and logs are full. What is sent counts a counter up, which no log keeps, or adds to sets, in turn, the numbers
//! that were added before. The number is how many messages were delivered, or how many replicas were made.

ghost use Rattle.std.specs.Prelude.{◌≡◌, ◌≤◌, IsTrue};
ghost use Rattle.op_base.specs.Message.{fits};
ghost use Rattle.causal_model.specs.Counts.{is_carried};

use super::updates::{add, inc};
use anyhow::{Result, bail, ensure};
use op_base::{Message, Step, Update};
use replica_core::{Local, Receive, Replica};
use std::alloc::Global;
use std::collections::VecDeque;

/// A member may send so many messages.
const LIMIT: u32 = 1_000_000;

/// At most so many hundreds of numbers are added.
const MOST_HUNDREDS: u32 = 600;

/// The first of the letters of the sets.
const FIRST_SET: u8 = b'a';

/// The letter of the counter.
const COUNTER: u8 = b'z';

/// So many sets what is sent adds to.
const SETS: u32 = 16;

/// When messages come.
#[derive(Clone, Copy, PartialEq, Eq)]
enum Coming {
    /// All come at once.
    AtOnce,
    /// To member 0 all come late: the others' windows and logs are full.
    LateToOne,
    /// To each member all come late: windows are full, and with each message one becomes stable.
    LateToAll,
    /// To member 0 those of member 1 come late: the others' messages wait there as early ones.
    Early,
}

/// What members send, and when it comes.
#[derive(Clone, Copy)]
struct Turns {
    /// To how many sets it adds. It counts where there is none.
    sets: u32,
    coming: Coming,
    ghost few: { sets ≤ 16 },
}

fn turns_of(word: &str) -> Result<Turns> {
    let (sets, coming) = match word {
        "count" => (0, Coming::AtOnce),
        "count-late" => (0, Coming::LateToOne),
        "sets" => (SETS, Coming::AtOnce),
        "sets-late" => (SETS, Coming::LateToOne),
        "sets-mixed" => (SETS, Coming::LateToAll),
        "sets-early" => (SETS, Coming::Early),
        "set" => (1, Coming::AtOnce),
        "set-late" => (1, Coming::LateToOne),
        _ => bail!("no step of replicas: {word}"),
    };
    Ok(Turns { sets, coming })
}

impl Coming {
    /// Whether a message of a member comes late to another.
    fn is_late(self, origin: usize, receiver: usize) -> bool {
        match self {
            Coming::AtOnce => false,
            Coming::LateToOne => receiver == 0,
            Coming::LateToAll => true,
            Coming::Early => receiver == 0 && origin == 1,
        }
    }

    /// How many messages are sent before one comes late, so that windows are all but full.
    fn lag(self, n: u8, w: u8) -> usize {
        let most = usize::from(w).saturating_sub(2) * usize::from(n);
        match self {
            Coming::AtOnce => 0,
            Coming::LateToOne | Coming::Early => most,
            Coming::LateToAll => most / 2,
        }
    }
}

/// A message that was sent in a store of so many members and with such a limit.
#[derive(Drop)]
struct Sent {
    n: u8,
    limit: u32,
    message: Message,
    ghost fits: { IsTrue (fits n message) },
    ghost carried: { IsTrue (is_carried limit message) },
}

/// Has a replica send an update.
fn send(replica: &mut Replica, alloc: Global, update: &Update) -> Result<Sent> {
    let (n, limit) = (replica.n, replica.limit);
    let Local::Sent(message) = replica.local(alloc, update) else {
        bail!("nothing was sent");
    };
    Ok(Sent { n, limit, message })
}

/// Has a replica receive a copy of a message. How many were delivered.
fn give(replica: &mut Replica, alloc: Global, sent: &Sent) -> Result<u64> {
    ensure!(
        replica.n == sent.n && replica.limit == sent.limit,
        "another store"
    );
    match replica.receive(alloc, sent.message.copy(alloc)?) {
        Receive::Kept => Ok(0),
        Receive::Took(steps) => {
            if steps.as_slice().iter().any(is_crook) {
                bail!("a message was dropped");
            }
            Ok(steps.len() as u64)
        }
        _ => bail!("a message was let go"),
    }
}

/// Whether a message was dropped.
fn is_crook(step: &Step) -> bool {
    matches!(step, Step::Crook(..))
}

/// A replica.
fn create(alloc: Global, me: u8, n: u8, w: u8) -> Result<Replica> {
    let Ok(replica) = Replica::create(alloc, me, n, w, LIMIT) else {
        bail!("no replica");
    };
    Ok(replica)
}

/// All members of a store, and the messages that have not come to all, the oldest first.
#[derive(Drop)]
struct Store {
    alloc: Global,
    replicas: Vec<Replica>,
    coming: Coming,
    late: VecDeque<Sent>,
    lag: usize,
    delivered: u64,
}

impl Store {
    fn new(alloc: Global, n: u8, w: u8) -> Result<Store> {
        let mut replicas = Vec::with_capacity(alloc, usize::from(n))?;
        for me in 0..n {
            replicas.push(create(alloc, me, n, w)?)?;
        }
        Ok(Store {
            alloc,
            replicas,
            coming: Coming::AtOnce,
            late: VecDeque::new(alloc),
            lag: 0,
            delivered: 0,
        })
    }

    /// Has a member send an update, and the others receive what comes to them.
    fn send(&mut self, origin: usize, update: &Update) -> Result<()> {
        let Some(replica) = self.replicas.get_mut(origin) else {
            bail!("no member {origin}");
        };
        let sent = send(replica, self.alloc, update)?;
        self.give_all(&sent, false)?;
        if self.coming == Coming::AtOnce {
            return Ok(());
        }
        self.late.push_back(sent)?;
        if self.late.len() > self.lag {
            let Some(first) = self.late.pop_front() else {
                bail!("no message is late");
            };
            self.give_all(&first, true)?;
        }
        Ok(())
    }

    /// Gives a message to the other members to which it comes late, or to those to which it comes at once.
    fn give_all(&mut self, sent: &Sent, late: bool) -> Result<()> {
        let origin = usize::from(sent.message.origin);
        let coming = self.coming;
        let mut receiver = 0usize;
        for replica in self.replicas.iter_mut() {
            if receiver != origin && coming.is_late(origin, receiver) == late {
                let delivered = give(replica, self.alloc, sent)?;
                self.delivered = self.delivered.wrapping_add(delivered);
            }
            receiver = receiver.wrapping_add(1);
        }
        Ok(())
    }
}

/// The add of a number to one of so many sets. Where there is none, a counter is counted up.
fn update_of(alloc: Global, sets: u32, number: u32) -> Result<Update>
    requires { sets ≤ 16 }
{
    if sets == 0 {
        return inc(alloc, COUNTER);
    }
    let letter = FIRST_SET + (number % sets) as u8;
    add(alloc, letter, number)
}

/// Makes so many replicas, one after the other.
fn make(alloc: Global, n: u8, w: u8, turns: u32) -> Result<u64>
    requires some { 1 ≤ n }
{
    let mut made = 0u64;
    for turn in 0..turns {
        let me = (turn % u32::from(n)) as u8;
        let replica = create(alloc, me, n, w)?;
        if replica.me == me {
            made = made.wrapping_add(1);
        }
    }
    Ok(made)
}

/// Has all members of a store add so many hundreds of numbers, and then send so often; or makes so many replicas.
pub fn measure(alloc: Global, n: u8, w: u8, hundreds: u32, step: &str, turns: u32) -> Result<u64>
    requires some { 1 ≤ n }
{
    if step == "create" {
        return make(alloc, n, w, turns);
    }
    let Turns { sets, coming } = turns_of(step)?;
    ensure!(
        hundreds >= 1 && hundreds <= MOST_HUNDREDS,
        "no such number of items"
    );
    let count = hundreds * 100;
    let mut store = Store::new(alloc, n, w)?;
    for number in 0..count {
        let origin = (number % u32::from(n)) as usize;
        store.send(origin, &update_of(alloc, sets.max(1), number)?)?;
    }
    store.coming = coming;
    store.lag = coming.lag(n, w);
    for turn in 0..turns {
        let origin = (turn % u32::from(n)) as usize;
        let number = (u64::from(turn) * 7919 % u64::from(count)) as u32;
        store.send(origin, &update_of(alloc, sets, number)?)?;
    }
    Ok(store.delivered)
}
