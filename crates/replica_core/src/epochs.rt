//! The end of an epoch: a replica goes on as a member of a store with other members, with what it has settled.

ghost use Rattle.std.specs.Prelude.{◌≡◌, ℕ, ◌<◌, ◌≤◌, ◌+◌, IsTrue, IsOk, IfOk, None};
ghost use Rattle.op_base.specs.declared.tag.TheConstants.{MOST_MEMBERS};
ghost use Rattle.causal_model.specs.declared.room.TheConstants.{MOST_WINDOW};
ghost use Rattle.causal_model.specs.History.{is_all_stable};
ghost use Rattle.causal_model.specs.Journal.{regrouped};
ghost use Rattle.causal_model.specs.State.{State};
ghost use Rattle.replica_core.specs.Numbers.{are_numbers};
ghost use Rattle.replica_core.specs.Rooms.{AreParts, IsRoomFor};

use crate::replica::Replica;
use causal_buffer::CausalBuffer;
use op_base::{NoMemory, Tag};
use outbox::Outbox;
use polog::Polog;
use stability_matrix::Matrix;
use std::alloc::Global;
use tag_window::TagWindow;

/// The room in which a replica begins an epoch.
#[derive(Drop)]
pub struct EpochRoom {
    /// The member that the replica will be.
    pub me: u8,
    /// How many members the store will have.
    pub n: u8,
    /// New parts. `None` where the store will have as many members as it has: then the replica's own parts, emptied, serve.
    pub parts: Option<EpochParts>,
}

/// The parts of a replica that take memory, but for what is settled: empty, and of a member of an epoch.
#[derive(Drop)]
pub struct EpochParts {
    /// Room for the timestamps of unstable messages.
    pub window: TagWindow,
    /// Room for early messages.
    pub buffer: CausalBuffer,
    /// Room for the messages that are logged.
    pub log: Polog,
    /// Room for the own messages that aren't stable.
    pub outbox: Outbox,
}

impl EpochParts {
    /// The parts of a member of a store of `n` members with a window `w`. `NoMemory` leaves nothing behind.
    fn create(alloc: Global, n: u8, w: u8) -> Result<EpochParts, NoMemory>
        requires some { 1 ≤ n }
        requires few { n ≤ MOST_MEMBERS }
        requires open { 1 ≤ w }
        requires narrow { w ≤ MOST_WINDOW }
        ensures { IfOk result (λ parts. (me : ℕ) → AreParts me n w parts) }
    {
        Ok(EpochParts {
            window: TagWindow::create(alloc, n, w)?,
            buffer: CausalBuffer::create(alloc, n, w)?,
            log: Polog::create(alloc, n, w)?,
            outbox: Outbox::create(alloc, n, w)?,
        })
    }
}

impl Replica {
    ghost use Rattle.replica_core.specs.Rules.{StandsFor};

    /// Whether every operation of the epoch is stable here, so that the epoch can end.
    pub fn all_settled(&self) -> bool
        ensures { (s : State) → StandsFor self.now s → result ≡ is_all_stable s.history.present }
    {
        for x in 0..self.n {
            if self.window.own_unstable(x, false) > 0 {
                return false;
            }
        }
        true
    }

    /// The room in which this replica can begin the next epoch as member `me` of `n` members, for `turn`. This one stays, and
    /// `NoMemory` leaves nothing behind; it doesn't come where the store will have as many members as it has.
    pub fn room(&self, alloc: Global, me: u8, n: u8) -> Result<EpochRoom, NoMemory>
        requires numbers { IsTrue (are_numbers me n self.now.w self.now.limit) }
        ensures me { IfOk result (λ room. room.me ≡ me) }
        ensures n { IfOk result (λ room. room.n ≡ n) }
        ensures empty { IfOk result (IsRoomFor self.now.n me n self.now.w) }
        ensures own { n ≡ self.now.n → IsOk result × IfOk result (λ room. room.parts ≡ None) }
    {
        if n == self.n {
            return Ok(EpochRoom { me, n, parts: None });
        }
        let parts = Some(EpochParts::create(alloc, n, self.w)?);
        Ok(EpochRoom { me, n, parts })
    }

    /// Begins the next epoch, as the room's member: with what is settled, its lists, and no message of that epoch. It takes no
    /// memory, and what is settled stays where it is.
    pub fn turn(&mut self, room: EpochRoom)
        requires numbers { IsTrue (are_numbers room.me room.n self.old.w self.old.limit) }
        requires settled { (s : State) → StandsFor self.old s → IsTrue (is_all_stable s.history.present) }
        requires early { self.old.epoch < 65535 }
        requires empty { IsRoomFor self.old.n room.me room.n self.old.w room }
        ensures me { self.new.me ≡ room.me }
        ensures n { self.new.n ≡ room.n }
        ensures w { self.new.w ≡ self.old.w }
        ensures limit { self.new.limit ≡ self.old.limit }
        ensures epoch { self.new.epoch ≡ self.old.epoch + 1 }
        ensures stands { (s : State) → StandsFor self.old s → StandsFor self.new (regrouped room.n room.me s) }
    {
        let EpochRoom { me, n, parts } = room;
        match parts {
            Some(parts) => self.begin(me, n, parts),
            None => self.begin_again(me),
        }
    }

    /// Begins the next epoch with new parts, as member `me` of `n` members.
    fn begin(&mut self, me: u8, n: u8, parts: EpochParts)
        requires numbers { IsTrue (are_numbers me n self.old.w self.old.limit) }
        requires settled { (s : State) → StandsFor self.old s → IsTrue (is_all_stable s.history.present) }
        requires early { self.old.epoch < 65535 }
        requires parts { AreParts me n self.old.w parts }
        ensures me { self.new.me ≡ me }
        ensures n { self.new.n ≡ n }
        ensures w { self.new.w ≡ self.old.w }
        ensures limit { self.new.limit ≡ self.old.limit }
        ensures epoch { self.new.epoch ≡ self.old.epoch + 1 }
        ensures stands { (s : State) → StandsFor self.old s → StandsFor self.new (regrouped n me s) }
    {
        self.me = me;
        self.n = n;
        self.epoch += 1;
        self.counts = Tag::zero(n);
        self.matrix = Matrix::new(n, me);
        self.window = parts.window;
        self.buffer = parts.buffer;
        self.log = parts.log;
        self.outbox = parts.outbox;
        self.due = false;
    }

    /// Begins the next epoch with the parts that there are, emptied, as member `me` of as many members.
    fn begin_again(&mut self, me: u8)
        requires numbers { IsTrue (are_numbers me self.old.n self.old.w self.old.limit) }
        requires settled { (s : State) → StandsFor self.old s → IsTrue (is_all_stable s.history.present) }
        requires early { self.old.epoch < 65535 }
        ensures me { self.new.me ≡ me }
        ensures n { self.new.n ≡ self.old.n }
        ensures w { self.new.w ≡ self.old.w }
        ensures limit { self.new.limit ≡ self.old.limit }
        ensures epoch { self.new.epoch ≡ self.old.epoch + 1 }
        ensures stands { (s : State) → StandsFor self.old s → StandsFor self.new (regrouped self.old.n me s) }
    {
        self.me = me;
        self.epoch += 1;
        self.counts = Tag::zero(self.n);
        self.matrix = Matrix::new(self.n, me);
        self.window.clear();
        self.buffer.clear();
        self.log.clear();
        self.outbox.clear();
        self.due = false;
    }

    /// The replica that begins the next epoch as member `me` of `n` members: it has what this one has settled, its lists, and no
    /// message of that epoch. It takes the memory for all but more items and elements. This one stays, and `NoMemory` leaves nothing
    /// behind.
    pub fn next(&self, alloc: Global, me: u8, n: u8) -> Result<Replica, NoMemory>
        requires numbers { IsTrue (are_numbers me n self.now.w self.now.limit) }
        requires settled { (s : State) → StandsFor self.now s → IsTrue (is_all_stable s.history.present) }
        requires early { self.now.epoch < 65535 }
        ensures me { IfOk result (λ r. r.me ≡ me) }
        ensures n { IfOk result (λ r. r.n ≡ n) }
        ensures w { IfOk result (λ r. r.w ≡ self.now.w) }
        ensures limit { IfOk result (λ r. r.limit ≡ self.now.limit) }
        ensures epoch { IfOk result (λ r. r.epoch ≡ self.now.epoch + 1) }
        ensures stands { IfOk result (λ r. (s : State) → StandsFor self.now s → StandsFor r (regrouped n me s)) }
    {
        let parts = EpochParts::create(alloc, n, self.w)?;
        Ok(Replica {
            me,
            n,
            w: self.w,
            limit: self.limit,
            epoch: self.epoch + 1,
            counts: Tag::zero(n),
            matrix: Matrix::new(n, me),
            window: parts.window,
            buffer: parts.buffer,
            log: parts.log,
            items: self.items.copy(alloc)?,
            lists: self.lists.copy(alloc)?,
            outbox: parts.outbox,
            due: false,
        })
    }
}
