//! A replica with its journal.

ghost use Rattle.std.specs.Prelude.{◌≡◌, ◌≢◌, ◌↔◌, ◌+◌, ◌^◌, ◌<◌, ◌≤◌, ◌++◌, ◌∷◌, [], List, map, All, IfOk, OnErr, IsTrue, IsErrOf, OnOk, true, false, None};
ghost use Rattle.std.specs.Prelude.{length as length_of};
ghost use Rattle.op_base.specs.CopyRooms.{IsCopyRoomFor};
ghost use Rattle.op_base.specs.Message.{fits};
ghost use Rattle.op_base.specs.declared.name.Kind.TheVariants as kinds;
ghost use Rattle.causal_model.specs.Counts.{is_carried};
ghost use Rattle.causal_model.specs.Elements.{list_ids};
ghost use Rattle.causal_model.specs.Follows.{Follows};
ghost use Rattle.causal_model.specs.History.{events};
ghost use Rattle.causal_model.specs.KeptElements.{tombs_of};
ghost use Rattle.causal_model.specs.Journal.{IsLegal, step_note, local_notes, beat_notes, receive_notes};
ghost use Rattle.causal_model.specs.Query.{answer};
ghost use Rattle.causal_model.specs.Receiving.{refusal_of, with_early, is_accepted, receive_rule};
ghost use Rattle.causal_model.specs.Receiving.{steps as steps_of};
ghost use Rattle.causal_model.specs.Sending.{local_messages, beat_messages, is_sent, is_beat, local_rule, beat_rule};
ghost use Rattle.causal_model.specs.State.{State};
ghost use Rattle.causal_model.specs.declared.note.Note.{Note as ANote};
ghost use Rattle.causal_model.specs.declared.note.Note.TheVariants as notes;
ghost use Rattle.replica_core.specs.Numbers.{are_numbers};
ghost use Rattle.replica_core.specs.Rules.{StandsFor, SameSettings, Unchanged, IsDraft};
ghost use Rattle.replica_node.specs.Nodes.{state_by, IsCount};
ghost use Rattle.replica_node.specs.Noting.{noted_as};
ghost use Rattle.replica_node.specs.Rules.{noting, AsksOnceAtMost};

use crate::noting::{NotedAs, note_copy};
use crate::recorder::Recorder;
use causal_model::{Beat, Local, Note, Receive};
use op_base::{
    Answer, CopyRoom, ElementIdList, Message, NoMemory, ObjectId, Step, StepList, Update,
};
use replica_core::{CreateFault, Replica};
use std::alloc::Global;

/// A replica, and the journal of what its calls noted: what it sent, and what it accepted with the steps that followed. The
/// replica stands for the replay of the journal, which is legal: made of the groups that calls note by the rules.
#[derive(Drop)]
pub struct Node<R: Recorder> {
    /// The replica.
    pub inner: Replica,
    /// What its calls noted.
    pub journal: R,
    /// How many notes the journal has.
    pub length: u64,
    /// Under which member and number of members the journal begins.
    pub first: (u8, u8),
    pub ghost counted: { IsCount length (R.notes journal) },
    pub ghost legal: { ∥ IsLegal first.1 inner.w inner.limit first.0 (R.notes journal) ∥₁ },
    pub ghost stands: { StandsFor inner (state_by first (R.notes journal)) },
}

impl<R: Recorder> Node<R> {
    /// A node that has noted nothing, whose replica has no message yet. Of a fault the recorder is dropped.
    pub fn create(
        alloc: Global,
        me: u8,
        n: u8,
        w: u8,
        limit: u32,
        recorder: R,
    ) -> Result<Node<R>, CreateFault>
    where
        R: Drop,
        requires { R.notes recorder ≡ [] }
        ensures bad_numbers { IsErrOf result CreateFault.BadNumbers ↔ (are_numbers me n w limit ≡ false) }
        ensures me { IfOk result (λ node. node.inner.me ≡ me) }
        ensures n { IfOk result (λ node. node.inner.n ≡ n) }
        ensures w { IfOk result (λ node. node.inner.w ≡ w) }
        ensures limit { IfOk result (λ node. node.inner.limit ≡ limit) }
        ensures first { IfOk result (λ node. node.first ≡ (me, n)) }
        ensures empty { IfOk result (λ node. R.notes node.journal ≡ []) }
        ensures unasked { IfOk result (λ node. R.asked node.journal ≡ R.asked recorder) }
    {
        let inner = Replica::create(alloc, me, n, w, limit)?;
        Ok(Node {
            inner,
            journal: recorder,
            length: 0,
            first: (me, n),
        })
    }

    /// Sends an update: as the replica's call, and what is sent is noted. Every refusal leaves the node as it was, and but for
    /// want of memory its journal too. It asks the journal for room once at most.
    pub fn local(&mut self, alloc: Global, update: &Update) -> Local
        ensures answer { Follows (λ (there ns : List ANote). there ≡ ns) Local.NoMemory is_sent (noting self.old.first local_notes (local_rule self.old.inner.w self.old.inner.limit update.now)) (R.notes self.old.journal) result (R.notes self.new.journal) }
        ensures settings { SameSettings self.old.inner self.new.inner }
        ensures first { self.new.first ≡ self.old.first }
        ensures refused { is_sent result ≡ false → Unchanged self.old.inner self.new.inner }
        ensures untouched { is_sent result ≡ false → result ≢ Local.NoMemory → self.new.journal ≡ self.old.journal }
        ensures once { AsksOnceAtMost (R.asked self.old.journal) (R.asked self.new.journal) }
        ensures asked { is_sent result ≡ true → R.asked self.new.journal ≡ R.asked self.old.journal + 1 }
        ensures fits { All (λ m. IsTrue (fits self.old.inner.n m)) (local_messages result) }
        ensures carried { All (λ m. IsTrue (is_carried self.old.inner.limit m)) (local_messages result) }
    {
        let message = match self.inner.draft(alloc, update) {
            Ok(message) => message,
            Err(answer) => return answer,
        };
        let Ok(sent) = message.copy(alloc) else {
            return Local::NoMemory;
        };
        match self.commit(alloc, message) {
            Ok(()) => Local::Sent(sent),
            Err(NoMemory) => Local::NoMemory,
        }
    }

    /// Sends a no-op where one is due: as the replica's call, and what is sent is noted. Every refusal leaves the node as it
    /// was, and but for want of memory its journal too. It asks the journal for room once at most.
    pub fn beat(&mut self, alloc: Global) -> Beat
        ensures answer { Follows (λ (there ns : List ANote). there ≡ ns) Beat.NoMemory is_beat (noting self.old.first beat_notes (beat_rule self.old.inner.w self.old.inner.limit)) (R.notes self.old.journal) result (R.notes self.new.journal) }
        ensures settings { SameSettings self.old.inner self.new.inner }
        ensures first { self.new.first ≡ self.old.first }
        ensures refused { is_beat result ≡ false → Unchanged self.old.inner self.new.inner }
        ensures untouched { is_beat result ≡ false → result ≢ Beat.NoMemory → self.new.journal ≡ self.old.journal }
        ensures once { AsksOnceAtMost (R.asked self.old.journal) (R.asked self.new.journal) }
        ensures asked { is_beat result ≡ true → R.asked self.new.journal ≡ R.asked self.old.journal + 1 }
        ensures fits { All (λ m. IsTrue (fits self.old.inner.n m)) (beat_messages result) }
        ensures carried { All (λ m. IsTrue (is_carried self.old.inner.limit m)) (beat_messages result) }
    {
        let message = match self.inner.draft_noop() {
            Ok(message) => message,
            Err(answer) => return answer,
        };
        let Ok(sent) = message.copy(alloc) else {
            return Beat::NoMemory;
        };
        match self.commit(alloc, message) {
            Ok(()) => Beat::Sent(sent),
            Err(NoMemory) => Beat::NoMemory,
        }
    }

    /// Sends a message that the replica drafted, and notes it: as the replica's call. `NoMemory` leaves the node as it was, and
    /// its journal with no less room. It asks the journal for room once at most.
    pub fn commit(&mut self, alloc: Global, message: Message) -> Result<(), NoMemory>
        requires draft { (s : State) → StandsFor self.old.inner s → IsDraft self.old.inner message s }
        ensures noted { OnOk result (R.notes self.new.journal ≡ R.notes self.old.journal ++ notes.Sent message ∷ []) }
        ensures kept { OnErr result (R.notes self.new.journal ≡ R.notes self.old.journal) }
        ensures settings { SameSettings self.old.inner self.new.inner }
        ensures first { self.new.first ≡ self.old.first }
        ensures refused { OnErr result (Unchanged self.old.inner self.new.inner) }
        ensures once { AsksOnceAtMost (R.asked self.old.journal) (R.asked self.new.journal) }
        ensures asked { OnOk result (R.asked self.new.journal ≡ R.asked self.old.journal + 1) }
        ensures fits { IsTrue (fits self.old.inner.n message) }
        ensures carried { IsTrue (is_carried self.old.inner.limit message) }
    {
        let room = message.op.room(alloc)?;
        self.journal.reserve(alloc, 1)?;
        let own = self.inner.reserve_commit(alloc, &message)?;
        put_copy(
            &mut self.journal,
            &mut self.length,
            NotedAs::Sent,
            &message,
            room,
        );
        self.inner.commit_reserved(message, own);
        Ok(())
    }

    /// Receives a message of the store, none of whose entries is above the limit and whose operation is valid: as the
    /// replica's call; a message that is accepted is noted, and each step that follows. Every refusal leaves the node as it
    /// was, and but for want of memory its journal too. It asks the journal for room once at most.
    pub fn receive(&mut self, alloc: Global, message: Message) -> Receive
        requires fits { IsTrue (fits self.old.inner.n message) }
        requires carried { IsTrue (is_carried self.old.inner.limit message) }
        ensures answer { Follows (λ (there ns : List ANote). there ≡ ns) Receive.NoMemory is_accepted (noting self.old.first (receive_notes message) (receive_rule self.old.inner.w message)) (R.notes self.old.journal) result (R.notes self.new.journal) }
        ensures settings { SameSettings self.old.inner self.new.inner }
        ensures first { self.new.first ≡ self.old.first }
        ensures refused { is_accepted result ≡ false → Unchanged self.old.inner self.new.inner }
        ensures untouched { is_accepted result ≡ false → result ≢ Receive.NoMemory → self.new.journal ≡ self.old.journal }
        ensures once { AsksOnceAtMost (R.asked self.old.journal) (R.asked self.new.journal) }
        ensures asked { is_accepted result ≡ true → R.asked self.new.journal ≡ R.asked self.old.journal + 1 }
    {
        if let Some(refusal) = self.inner.refusal(&message) {
            return refusal.answer();
        }
        match self.accept(alloc, message) {
            Ok(steps) => Receive::accepted(steps),
            Err(NoMemory) => Receive::NoMemory,
        }
    }

    /// Takes in a message that the replica's `refusal` doesn't refuse, and notes it and each step that follows: as the
    /// replica's call. `NoMemory` leaves the node as it was, and its journal with no less room. It asks the journal for room
    /// once at most.
    pub fn accept(&mut self, alloc: Global, message: Message) -> Result<StepList, NoMemory>
        requires fits { IsTrue (fits self.old.inner.n message) }
        requires carried { IsTrue (is_carried self.old.inner.limit message) }
        requires unrefused { (s : State) → StandsFor self.old.inner s → refusal_of self.old.inner.w s message ≡ None }
        ensures steps { IfOk result (λ made. made ≡ (steps_of self.old.inner.w (with_early (state_by self.old.first (R.notes self.old.journal)) message)).0) }
        ensures noted { IfOk result (λ made. R.notes self.new.journal ≡ R.notes self.old.journal ++ notes.Kept message ∷ map step_note made) }
        ensures kept { OnErr result (R.notes self.new.journal ≡ R.notes self.old.journal) }
        ensures settings { SameSettings self.old.inner self.new.inner }
        ensures first { self.new.first ≡ self.old.first }
        ensures refused { OnErr result (Unchanged self.old.inner self.new.inner) }
        ensures once { AsksOnceAtMost (R.asked self.old.journal) (R.asked self.new.journal) }
        ensures asked { OnOk result (R.asked self.new.journal ≡ R.asked self.old.journal + 1) }
    {
        let mut steps = Vec::new(alloc);
        self.accept_behind(alloc, message, &mut steps)?;
        Ok(StepList::from_vec(steps))
    }

    /// Takes in a message as `accept` does, and puts the steps that follow behind those that there are: so they need no list of
    /// their own. `NoMemory` leaves the node as it was, and the steps, and the journal with no less room. It asks the journal for
    /// room once at most.
    pub fn accept_behind(
        &mut self,
        alloc: Global,
        message: Message,
        steps: &mut Vec<Step>,
    ) -> Result<(), NoMemory>
        requires fits { IsTrue (fits self.old.inner.n message) }
        requires carried { IsTrue (is_carried self.old.inner.limit message) }
        requires unrefused { (s : State) → StandsFor self.old.inner s → refusal_of self.old.inner.w s message ≡ None }
        ensures steps { OnOk result (steps.new.items ≡ steps.old.items ++ (steps_of self.old.inner.w (with_early (state_by self.old.first (R.notes self.old.journal)) message)).0) }
        ensures stays { OnErr result (steps.new.items ≡ steps.old.items) }
        ensures noted { OnOk result (R.notes self.new.journal ≡ R.notes self.old.journal ++ notes.Kept message ∷ map step_note (steps_of self.old.inner.w (with_early (state_by self.old.first (R.notes self.old.journal)) message)).0) }
        ensures kept { OnErr result (R.notes self.new.journal ≡ R.notes self.old.journal) }
        ensures settings { SameSettings self.old.inner self.new.inner }
        ensures first { self.new.first ≡ self.old.first }
        ensures refused { OnErr result (Unchanged self.old.inner self.new.inner) }
        ensures once { AsksOnceAtMost (R.asked self.old.journal) (R.asked self.new.journal) }
        ensures asked { OnOk result (R.asked self.new.journal ≡ R.asked self.old.journal + 1) }
    {
        let room = message.op.room(alloc)?;
        self.journal.reserve(alloc, most_notes(&self.inner))?;
        let before = steps.len();
        let most = self.inner.reserve_accept(&message, steps)?;
        put_copy(
            &mut self.journal,
            &mut self.length,
            NotedAs::Kept,
            &message,
            room,
        );
        self.inner.accept_reserved(message, most, steps);
        let (_, made) = steps.split_at(before);
        put_steps(&mut self.journal, &mut self.length, made);
        Ok(())
    }

    /// What an object is, by all events of the history that the journal tells.
    pub fn answer(&self, alloc: Global, object: &ObjectId) -> Result<Answer, NoMemory>
        ensures { IfOk result (λ a. a ≡ answer object.now (events (state_by self.now.first (R.notes self.now.journal)).history)) }
    {
        self.inner.answer(alloc, object)
    }

    /// The ids of a list's elements, in the list's order, by the same events. `NoMemory` leaves nothing behind.
    pub fn list_ids(&self, alloc: Global, object: &ObjectId) -> Result<ElementIdList, NoMemory>
        requires { object.now.kind ≡ kinds.List }
        ensures { IfOk result (λ ids. ids ≡ list_ids object.now (events (state_by self.now.first (R.notes self.now.journal)).history)) }
    {
        self.inner.list_ids(alloc, object)
    }

    /// How many elements of a list are kept that aren't shown. It takes no memory.
    pub fn tombs(&self, object: &ObjectId) -> usize
        requires { object.now.kind ≡ kinds.List }
        ensures { result ≡ tombs_of (state_by self.now.first (R.notes self.now.journal)).history object.now }
    {
        self.inner.tombs(object)
    }

    /// How many notes the journal has.
    pub fn places(&self) -> u64
        ensures { IsCount result (R.notes self.now.journal) }
    {
        self.length
    }

    /// The replica.
    pub fn replica(&self) -> &Replica
        ensures { result.now ≡ self.now.inner }
    {
        &self.inner
    }

    /// The journal.
    pub fn recorder(&self) -> &R
        ensures { result.now ≡ self.now.journal }
    {
        &self.journal
    }

    /// The replica and the journal.
    pub fn finish(self) -> (Replica, R)
        ensures replica { result.0 ≡ self.inner }
        ensures journal { result.1 ≡ self.journal }
    {
        let Node { inner, journal, .. } = self;
        (inner, journal)
    }

    /// Under which member and number of members the journal begins.
    pub fn first(&self) -> (u8, u8)
        ensures { result ≡ self.now.first }
    {
        self.first
    }
}

/// How many notes receiving makes at most: the message, and a step of each early message, this one among them.
fn most_notes(replica: &Replica) -> usize
    ensures { result ≡ length_of replica.now.buffer.early + 2 }
{
    replica.buffer.len() + 2
}

/// Puts a note at the end, and counts it.
pub fn put<R: Recorder>(journal: &mut R, length: &mut u64, note: Note)
    requires room { 1 ≤ R.spare journal.old }
    requires few { length.old < 2 ^ 63 }
    requires counted { IsCount length.old (R.notes journal.old) }
    ensures noted { R.notes journal.new ≡ R.notes journal.old ++ note ∷ [] }
    ensures spare { R.spare journal.old ≤ R.spare journal.new + 1 }
    ensures asked { R.asked journal.new ≡ R.asked journal.old }
    ensures counted { IsCount length.new (R.notes journal.new) }
{
    journal.note(note);
    *length += 1;
}

/// Puts the note of a message at the end, by a copy, and counts it.
#[inline(always)]
fn put_copy<R: Recorder>(
    journal: &mut R,
    length: &mut u64,
    noted: NotedAs,
    message: &Message,
    room: CopyRoom,
)
    requires spare { 1 ≤ R.spare journal.old }
    requires few { length.old < 2 ^ 63 }
    requires counted { IsCount length.old (R.notes journal.old) }
    requires room { IsCopyRoomFor room message.now.op }
    ensures noted { R.notes journal.new ≡ R.notes journal.old ++ noted_as noted message.now ∷ [] }
    ensures spare { R.spare journal.old ≤ R.spare journal.new + 1 }
    ensures asked { R.asked journal.new ≡ R.asked journal.old }
    ensures counted { IsCount length.new (R.notes journal.new) }
{
    note_copy(journal, noted, message, room);
    *length += 1;
}

/// Puts the notes of steps at the end, in order.
fn put_steps<R: Recorder>(journal: &mut R, length: &mut u64, steps: &[Step])
    requires room { length_of steps.now ≤ R.spare journal.old }
    requires few { length.old + length_of steps.now ≤ 2 ^ 63 }
    requires counted { IsCount length.old (R.notes journal.old) }
    ensures noted { R.notes journal.new ≡ R.notes journal.old ++ map step_note steps.now }
    ensures asked { R.asked journal.new ≡ R.asked journal.old }
    ensures counted { IsCount length.new (R.notes journal.new) }
{
    for step in steps {
        put(journal, length, note_of(step));
    }
}

/// The note of a step.
fn note_of(step: &Step) -> Note
    ensures { result ≡ step_note step.now }
{
    match step {
        Step::Took(id) => Note::Took(*id),
        Step::Crook(id, _) => Note::Crook(*id),
    }
}
