//! The end of an epoch: a node goes on with a replica of the next one, and others begin with what it noted.

ghost use Rattle.std.specs.Prelude.{◌≡◌, ◌+◌, ◌^◌, ◌<◌, ◌≤◌, ◌++◌, ◌∷◌, [], IfOk, OnOk, IsTrue};
ghost use Rattle.std.specs.Prelude.{length as length_of};
ghost use Rattle.causal_model.specs.History.{is_all_stable};
ghost use Rattle.causal_model.specs.State.{State};
ghost use Rattle.causal_model.specs.declared.note.Note.TheVariants as notes;
ghost use Rattle.replica_core.specs.Numbers.{are_numbers};
ghost use Rattle.replica_core.specs.Rooms.{IsRoomFor};
ghost use Rattle.replica_core.specs.Rules.{StandsFor};
ghost use Rattle.replica_node.specs.Epochs.{IsNextOf};

use crate::node::{Node, put};
use crate::recorder::Recorder;
use causal_model::Note;
use op_base::NoMemory;
use replica_core::{EpochRoom, Replica};
use std::alloc::Global;

impl<R: Recorder> Node<R> {
    /// The replica that begins the next epoch as member `me` of `n` members: as the replica's call.
    pub fn next(&self, alloc: Global, me: u8, n: u8) -> Result<Replica, NoMemory>
        requires numbers { IsTrue (are_numbers me n self.now.inner.w self.now.inner.limit) }
        requires settled { (s : State) → StandsFor self.now.inner s → IsTrue (is_all_stable s.history.present) }
        requires early { self.now.inner.epoch < 65535 }
        ensures me { IfOk result (λ r. r.me ≡ me) }
        ensures n { IfOk result (λ r. r.n ≡ n) }
        ensures epoch { IfOk result (λ r. r.epoch ≡ self.now.inner.epoch + 1) }
        ensures next { IfOk result (λ r. IsNextOf self.now.first self.now.inner.w self.now.inner.limit (R.notes self.now.journal) r) }
    {
        let next = self.inner.next(alloc, me, n)?;
        Ok(next)
    }

    /// The room in which this node can begin the next epoch as member `me` of `n` members, for `turn`: as the replica's call.
    pub fn room(&self, alloc: Global, me: u8, n: u8) -> Result<EpochRoom, NoMemory>
        requires numbers { IsTrue (are_numbers me n self.now.inner.w self.now.inner.limit) }
        ensures me { IfOk result (λ room. room.me ≡ me) }
        ensures n { IfOk result (λ room. room.n ≡ n) }
        ensures empty { IfOk result (IsRoomFor self.now.inner.n me n self.now.inner.w) }
    {
        self.inner.room(alloc, me, n)
    }

    /// Takes room for so many notes more, where there are then fewer than 2^63. `NoMemory` leaves no less room.
    pub fn ready(&mut self, alloc: Global, count: usize) -> Result<(), NoMemory>
        ensures room { OnOk result (count ≤ R.spare self.new.journal) }
        ensures few { OnOk result (length_of (R.notes self.new.journal) + count < 2 ^ 63) }
        ensures kept { R.notes self.new.journal ≡ R.notes self.old.journal }
        ensures spare { R.spare self.old.journal ≤ R.spare self.new.journal }
        ensures asked { R.asked self.new.journal ≡ R.asked self.old.journal + 1 }
        ensures inner { self.new.inner ≡ self.old.inner }
        ensures first { self.new.first ≡ self.old.first }
        ensures length { self.new.length ≡ self.old.length }
    {
        self.journal.reserve(alloc, count)
    }

    /// Goes on with a replica of the next epoch, and notes the change. It takes no memory.
    pub fn adopt(&mut self, next: Replica)
        requires room { 1 ≤ R.spare self.old.journal }
        requires few { length_of (R.notes self.old.journal) + 1 < 2 ^ 63 }
        requires next { IsNextOf self.old.first self.old.inner.w self.old.inner.limit (R.notes self.old.journal) next }
        ensures inner { self.new.inner ≡ next }
        ensures first { self.new.first ≡ self.old.first }
        ensures noted { R.notes self.new.journal ≡ R.notes self.old.journal ++ notes.Regroup next.epoch next.n next.me ∷ [] }
        ensures unasked { R.asked self.new.journal ≡ R.asked self.old.journal }
    {
        put(&mut self.journal, &mut self.length, change_to(&next));
        self.inner = next;
    }

    /// Begins the next epoch as the room's member, as the replica's call, and notes the change. It takes no memory.
    pub fn turn(&mut self, room: EpochRoom)
        requires room { 1 ≤ R.spare self.old.journal }
        requires few { length_of (R.notes self.old.journal) + 1 < 2 ^ 63 }
        requires numbers { IsTrue (are_numbers room.me room.n self.old.inner.w self.old.inner.limit) }
        requires settled { (s : State) → StandsFor self.old.inner s → IsTrue (is_all_stable s.history.present) }
        requires early { self.old.inner.epoch < 65535 }
        requires empty { IsRoomFor self.old.inner.n room.me room.n self.old.inner.w room }
        ensures me { self.new.inner.me ≡ room.me }
        ensures n { self.new.inner.n ≡ room.n }
        ensures w { self.new.inner.w ≡ self.old.inner.w }
        ensures limit { self.new.inner.limit ≡ self.old.inner.limit }
        ensures epoch { self.new.inner.epoch ≡ self.old.inner.epoch + 1 }
        ensures first { self.new.first ≡ self.old.first }
        ensures noted { R.notes self.new.journal ≡ R.notes self.old.journal ++ notes.Regroup (self.old.inner.epoch + 1) room.n room.me ∷ [] }
        ensures unasked { R.asked self.new.journal ≡ R.asked self.old.journal }
    {
        self.inner.turn(room);
        put(&mut self.journal, &mut self.length, change_to(&self.inner));
    }

    /// Another node that goes on with a replica of the next epoch, behind a copy of this one's notes, where the change is noted.
    /// Its journal begins under the same member as this one's. It takes no memory, and this one stays.
    pub fn heir(&self, next: Replica, recorder: R) -> Node<R>
        requires same { R.notes recorder ≡ R.notes self.now.journal }
        requires room { 1 ≤ R.spare recorder }
        requires few { length_of (R.notes self.now.journal) + 1 < 2 ^ 63 }
        requires next { IsNextOf self.now.first self.now.inner.w self.now.inner.limit (R.notes self.now.journal) next }
        ensures inner { result.inner ≡ next }
        ensures first { result.first ≡ self.now.first }
        ensures noted { R.notes result.journal ≡ R.notes self.now.journal ++ notes.Regroup next.epoch next.n next.me ∷ [] }
        ensures unasked { R.asked result.journal ≡ R.asked recorder }
    {
        let mut journal = recorder;
        let mut length = self.length;
        put(&mut journal, &mut length, change_to(&next));
        Node {
            inner: next,
            journal,
            length,
            first: self.first,
        }
    }
}

/// The note of a change to a replica of the next epoch.
fn change_to(next: &Replica) -> Note
    ensures { result ≡ notes.Regroup next.now.epoch next.now.n next.now.me }
{
    Note::Regroup {
        epoch: next.epoch,
        n: next.n,
        me: next.me,
    }
}
