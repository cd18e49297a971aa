//! Sending operations and no-ops: a message is drafted, and then it is committed.

ghost use Rattle.std.specs.Prelude.{◌≡◌, ◌<◌, ◌==◌, All, IsTrue, IfOk, IfNone, IfSome, OnOk, OnErr, true, false};
ghost use Rattle.std.specs.Result.{IfErr};
ghost use Rattle.op_base.specs.Message.{fits};
ghost use Rattle.op_base.specs.declared.operation.Op.TheVariants as op;
ghost use Rattle.op_base.specs.declared.operation.Update.{Update as AnUpdate};
ghost use Rattle.causal_model.specs.Counts.{count_of, next_tag, is_carried};
ghost use Rattle.causal_model.specs.Follows.{Follows};
ghost use Rattle.causal_model.specs.Sending.{own_message, local_messages, beat_messages, is_sent, is_beat, local_rule, beat_rule};
ghost use Rattle.causal_model.specs.Stability.{unstable_operations, unstable_noops, noop_window};
ghost use Rattle.causal_model.specs.State.{State, with_own};
ghost use Rattle.causal_model.specs.States.{IsState};
ghost use Rattle.causal_model.specs.declared.outcome.Local.TheVariants as local;
ghost use Rattle.replica_core.specs.Unsent.{told};

use crate::replica::Replica;
use crate::step::Sender;
use causal_model::{Beat, Local};
use op_base::{CopyRoom, Message, NoMemory, Op, Tag, Update, updates_are_valid};
use std::alloc::Global;

/// Why a member can't send an update.
#[derive(Clone, Copy)]
enum Unsent {
    /// As many own operations are unstable as the window has.
    Busy,
    /// The member has sent all the messages that it may in this epoch.
    End,
}

impl Unsent {
    /// What is answered.
    #[inline(always)]
    fn told(self) -> Local
        ensures { result ≡ told self }
    {
        match self {
            Unsent::Busy => Local::Busy,
            Unsent::End => Local::End,
        }
    }
}

impl Replica {
    ghost use Rattle.replica_core.specs.Ready.{IsReadyToCommit};
    ghost use Rattle.replica_core.specs.Rules.{StandsFor, SameSettings, Unchanged, IsBounded, IsDraft, local_of, beat_of};

    /// Sends an update: the message becomes the next of the history, and is handed out. Every refusal leaves the replica as
    /// it was, and memory is wanted only where it would send.
    pub fn local(&mut self, alloc: Global, update: &Update) -> Local
        ensures answer { Follows StandsFor Local.NoMemory is_sent (local_rule self.old.w self.old.limit update.now) self.old result self.new }
        ensures settings { SameSettings self.old self.new }
        ensures refused { is_sent result ≡ false → Unchanged self.old self.new }
        ensures fits { All (λ m. IsTrue (fits self.old.n m)) (local_messages result) }
        ensures carried { All (λ m. IsTrue (is_carried self.old.limit m)) (local_messages result) }
        ensures bounded { IsBounded self.new }
    {
        let message = match self.draft(alloc, update) {
            Ok(message) => message,
            Err(answer) => return answer,
        };
        let Ok(sent) = message.copy(alloc) else {
            return Local::NoMemory;
        };
        match self.commit(alloc, message) {
            Ok(()) => Local::Sent(sent),
            Err(NoMemory) => Local::NoMemory,
        }
    }

    /// Sends a no-op where one is due: it tells the others what was delivered here. Every refusal leaves the replica as it
    /// was, and memory is wanted only where it would send.
    pub fn beat(&mut self, alloc: Global) -> Beat
        ensures answer { Follows StandsFor Beat.NoMemory is_beat (beat_rule self.old.w self.old.limit) self.old result self.new }
        ensures settings { SameSettings self.old self.new }
        ensures refused { is_beat result ≡ false → Unchanged self.old self.new }
        ensures fits { All (λ m. IsTrue (fits self.old.n m)) (beat_messages result) }
        ensures carried { All (λ m. IsTrue (is_carried self.old.limit m)) (beat_messages result) }
        ensures bounded { IsBounded self.new }
    {
        let message = match self.draft_noop() {
            Ok(message) => message,
            Err(answer) => return answer,
        };
        let Ok(sent) = message.copy(alloc) else {
            return Beat::NoMemory;
        };
        match self.commit(alloc, message) {
            Ok(()) => Beat::Sent(sent),
            Err(NoMemory) => Beat::NoMemory,
        }
    }

    /// The message by which an update would be sent now, for `commit`; or what `local` answers in its place: `Busy`, `End`, or
    /// `NoMemory` where there is none for the update's copy.
    ///
    /// It is always inlined, since a message that is handed on would be moved once more.
    #[inline(always)]
    pub fn draft(&self, alloc: Global, update: &Update) -> Result<Message, Local>
        ensures answer { Follows StandsFor Local.NoMemory is_sent (λ s. ((local_rule self.now.w self.now.limit update.now s).0, s)) self.now (local_of result) self.now }
        ensures unsent { IfErr result (λ answer. is_sent answer ≡ false) }
        ensures draft { IfOk result (λ m. (s : State) → StandsFor self.now s → IsDraft self.now m s) }
        ensures fits { IfOk result (λ m. IsTrue (fits self.now.n m)) }
    {
        if let Some(unsent) = self.unsent() {
            return Err(unsent.told());
        }
        let Ok(room) = update.room(alloc) else {
            return Err(Local::NoMemory);
        };
        let update = update.copied(room);
        updates_are_valid(&update);
        Ok(self.next_message(Op::Update(update)))
    }

    /// The message by which an update would be sent now, as `draft` gives it, where the update is handed over: it takes no memory,
    /// and moves the update where `draft` copies it.
    ///
    /// It is always inlined, as `draft` is.
    #[inline(always)]
    pub fn draft_of(&self, update: Update) -> Result<Message, Local>
        ensures answer { (s : State) → StandsFor self.now s → local_of result ≡ (local_rule self.now.w self.now.limit update s).0 }
        ensures unsent { IfErr result (λ answer. is_sent answer ≡ false) }
        ensures draft { IfOk result (λ m. (s : State) → StandsFor self.now s → IsDraft self.now m s) }
        ensures fits { IfOk result (λ m. IsTrue (fits self.now.n m)) }
    {
        if let Some(unsent) = self.unsent() {
            return Err(unsent.told());
        }
        updates_are_valid(&update);
        Ok(self.next_message(Op::Update(update)))
    }

    /// Why no update can be sent now. `None` where one can be.
    #[inline(always)]
    fn unsent(&self) -> Option<Unsent>
        ensures none { IfNone result ((s : State) (u : AnUpdate) → StandsFor self.now s → local.Sent (own_message self.now.n self.now.me s.history.present.messages (op.Update u)) ≡ (local_rule self.now.w self.now.limit u s).0) }
        ensures more { IfNone result ((s : State) → StandsFor self.now s → count_of s.history.present.messages self.now.me < self.now.limit) }
        ensures some { IfSome result (λ why. (s : State) (u : AnUpdate) → StandsFor self.now s → told why ≡ (local_rule self.now.w self.now.limit u s).0) }
    {
        if self.is_busy() {
            Some(Unsent::Busy)
        } else if self.has_ended() {
            Some(Unsent::End)
        } else {
            None
        }
    }

    /// The no-op that would be sent now, for `commit`; or what `beat` answers in its place: `Quiet`, `Held` or `End`. It takes
    /// no memory.
    pub fn draft_noop(&self) -> Result<Message, Beat>
        ensures answer { (s : State) → StandsFor self.now s → beat_of result ≡ (beat_rule self.now.w self.now.limit s).0 }
        ensures unsent { IfErr result (λ answer. is_beat answer ≡ false) }
        ensures draft { IfOk result (λ m. (s : State) → StandsFor self.now s → IsDraft self.now m s) }
        ensures fits { IfOk result (λ m. IsTrue (fits self.now.n m)) }
    {
        if !self.due {
            return Err(Beat::Quiet);
        }
        if self.is_held() {
            return Err(Beat::Held);
        }
        if self.has_ended() {
            return Err(Beat::End);
        }
        Ok(self.next_message(Op::NoOp))
    }

    /// Makes a message that was drafted the next of the history. All memory is taken first: `NoMemory` leaves the replica as it
    /// was.
    pub fn commit(&mut self, alloc: Global, message: Message) -> Result<(), NoMemory>
        requires draft { (s : State) → StandsFor self.old s → IsDraft self.old message s }
        ensures stands { OnOk result ((s : State) → StandsFor self.old s → StandsFor self.new (with_own s message)) }
        ensures settings { SameSettings self.old self.new }
        ensures refused { OnErr result (Unchanged self.old self.new) }
        ensures fits { IsTrue (fits self.old.n message) }
        ensures carried { IsTrue (is_carried self.old.limit message) }
        ensures bounded { IsBounded self.new }
    {
        let room = self.reserve_commit(alloc, &message)?;
        self.commit_reserved(message, room);
        Ok(())
    }

    /// Takes all memory for a message that was drafted to become the next of the history, as `commit_reserved` makes it. `NoMemory`
    /// leaves the replica as it was.
    pub fn reserve_commit(&mut self, alloc: Global, message: &Message) -> Result<CopyRoom, NoMemory>
        requires draft { (s : State) → StandsFor self.old s → IsDraft self.old message.now s }
        ensures ready { IfOk result (λ room. IsReadyToCommit self.new message.now room) }
        ensures unchanged { Unchanged self.old self.new }
    {
        let room = message.op.room(alloc)?;
        self.items.reserve(self.log.len() + self.buffer.len() + 1)?;
        self.reserve_element(message)?;
        Ok(room)
    }

    /// Makes a message for which `reserve_commit` took memory the next of the history.
    pub fn commit_reserved(&mut self, mut message: Message, room: CopyRoom)
        requires ready { IsReadyToCommit self.old message room }
        ensures stands { (s : State) → StandsFor self.old s → IsState self.old.w self.old.limit (with_own s message) → StandsFor self.new (with_own s message) }
        ensures settings { SameSettings self.old self.new }
    {
        self.step(&mut message, Sender::Own(room));
    }

    /// Whether as many own operations are unstable as the window has.
    pub fn is_busy(&self) -> bool
        ensures { (s : State) → StandsFor self.now s → result ≡ (unstable_operations self.now.n self.now.me s.history.present.messages self.now.me == self.now.w) }
    {
        self.window.own_unstable(self.me, false) == u32::from(self.w)
    }

    /// Whether as many own no-ops are unstable as their window has.
    pub fn is_held(&self) -> bool
        ensures { (s : State) → StandsFor self.now s → result ≡ (unstable_noops self.now.n self.now.me s.history.present.messages self.now.me == noop_window self.now.n self.now.w) }
    {
        self.window.own_unstable(self.me, true) == causal_model::most_noops(self.n, self.w)
    }

    /// Whether the member has sent all the messages that it may in this epoch.
    pub fn has_ended(&self) -> bool
        ensures { (s : State) → StandsFor self.now s → result ≡ (count_of s.history.present.messages self.now.me == self.now.limit) }
    {
        self.counts.at(self.me) == self.limit
    }

    /// The message by which an operation would be sent next.
    fn next_message(&self, op: Op) -> Message
        requires { (s : State) → StandsFor self.now s → count_of s.history.present.messages self.now.me < self.now.limit }
        ensures message { (s : State) → StandsFor self.now s → result ≡ own_message self.now.n self.now.me s.history.present.messages op }
        ensures op { result.op ≡ op }
        ensures fits { IsTrue (fits self.now.n result) }
    {
        Message {
            origin: self.me,
            tag: self.next_tag(),
            op,
        }
    }

    /// The timestamp of the next own message.
    fn next_tag(&self) -> Tag
        requires { (s : State) → StandsFor self.now s → count_of s.history.present.messages self.now.me < self.now.limit }
        ensures { (s : State) → StandsFor self.now s → result ≡ next_tag self.now.n self.now.me s.history.present.messages }
    {
        let mut tag = self.counts;
        tag.set(self.me, tag.at(self.me) + 1);
        tag
    }
}
