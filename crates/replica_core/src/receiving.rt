//! Receiving messages of others, and delivering them in causal order.

ghost use Rattle.std.specs.Prelude.{◌≡◌, ◌↔◌, ◌+◌, ◌<◌, ◌≤◌, false, [], length, vec_capacity, unwrap_or, IsTrue, IfOk, OnErr, OnOk, Some, None};
ghost use Rattle.std.specs.Option.{IfSome, IfNone};
ghost use Rattle.op_base.specs.Message.{fits, id_of};
ghost use Rattle.op_base.specs.declared.message.Message.{Message as AMessage};
ghost use Rattle.causal_model.specs.Counts.{is_carried, is_deliverable};
ghost use Rattle.causal_model.specs.Early.{is_again, put_early};
ghost use Rattle.causal_model.specs.Follows.{Follows};
ghost use Rattle.causal_model.specs.Receiving.{is_old, is_far, next_of, next_early, with_early, refusal_by_id, refusal_of, is_accepted, receive_rule};
ghost use Rattle.causal_model.specs.Receiving.{steps as steps_of};
ghost use Rattle.causal_model.specs.State.{State};
ghost use Rattle.list_type.specs.Shown.{shown as lists_shown};
ghost use Rattle.stability_matrix.specs.Rows.{stable_of};
ghost use Rattle.stable_state.specs.Shown.{shown};
ghost use Rattle.replica_core.specs.Insertions.{insertions, element_room};

use crate::replica::Replica;
use crate::settling::is_insertion;
use crate::step::Sender;
use causal_buffer::{CausalBuffer, is_deliverable};
use causal_model::{Receive, Refusal};
use op_base::{Message, MessageId, NoMemory, Op, Step, StepList, Tag};
use stability_matrix::Matrix;
use std::alloc::Global;

impl Replica {
    ghost use Rattle.replica_core.specs.Ready.{CanBeAccepted, IsReadyToAccept};
    ghost use Rattle.replica_core.specs.Rules.{StandsFor, SameSettings, Unchanged, IsBounded};
    ghost use Rattle.replica_core.specs.Steps.{HasStepped, HasMade, HasAdded, HasRoomToStep, IsNextOf, IsStepOf};

    /// Receives a message of the store, none of whose entries is above the limit and whose operation is valid. One that is
    /// old, early already or too far ahead is let go, and changes nothing. Each other becomes early; then early messages are
    /// delivered, or dropped where they are crooked, until none can be delivered. All memory is taken before the first
    /// change, and wanted only where the message is accepted.
    pub fn receive(&mut self, alloc: Global, message: Message) -> Receive
        requires fits { IsTrue (fits self.old.n message) }
        requires carried { IsTrue (is_carried self.old.limit message) }
        ensures answer { Follows StandsFor Receive.NoMemory is_accepted (receive_rule self.old.w message) self.old result self.new }
        ensures settings { SameSettings self.old self.new }
        ensures refused { is_accepted result ≡ false → Unchanged self.old self.new }
        ensures bounded { IsBounded self.new }
    {
        if let Some(refusal) = self.refusal(&message) {
            return refusal.answer();
        }
        match self.accept(alloc, message) {
            Ok(steps) => Receive::accepted(steps),
            Err(NoMemory) => Receive::NoMemory,
        }
    }

    /// Why a message of an id isn't accepted, as far as the id tells: each message of it is old, or one is early already.
    pub fn known(&self, id: MessageId) -> Option<Refusal>
        requires { id.origin < self.now.n }
        ensures { (s : State) (m : AMessage) → StandsFor self.now s → id_of m ≡ id → result ≡ refusal_by_id s m }
    {
        if id.origin == self.me || self.counts.covers_id(id) {
            Some(Refusal::Old)
        } else if self.buffer.holds(id) {
            Some(Refusal::Again)
        } else {
            None
        }
    }

    /// Why a message of the store isn't accepted, where it isn't.
    pub fn refusal(&self, message: &Message) -> Option<Refusal>
        requires { IsTrue (fits self.now.n message.now) }
        ensures { (s : State) → StandsFor self.now s → result ≡ refusal_of self.now.w s message.now }
    {
        match self.known(message.id()) {
            Some(known) => Some(known),
            None if self.buffer.is_far(message, self.me, &self.counts) => Some(Refusal::Far),
            None => None,
        }
    }

    /// Takes in a message that `refusal` doesn't refuse, and makes the steps that follow. All memory is taken before the first
    /// change: `NoMemory` leaves the replica as it was, and the message is let go.
    pub fn accept(&mut self, alloc: Global, message: Message) -> Result<StepList, NoMemory>
        requires fits { IsTrue (fits self.old.n message) }
        requires carried { IsTrue (is_carried self.old.limit message) }
        requires unrefused { (s : State) → StandsFor self.old s → refusal_of self.old.w s message ≡ None }
        ensures steps { IfOk result (λ made. (s : State) → StandsFor self.old s → HasStepped self.old.w (with_early s message) made self.new) }
        ensures settings { SameSettings self.old self.new }
        ensures refused { OnErr result (Unchanged self.old self.new) }
        ensures bounded { IsBounded self.new }
    {
        let mut steps = Vec::new(alloc);
        let most = self.reserve_accept(&message, &mut steps)?;
        self.accept_reserved(message, most, &mut steps);
        Ok(StepList::from_vec(steps))
    }

    /// Takes all memory for a message that `refusal` doesn't refuse to be taken in, as `accept_reserved` does, and that behind
    /// other steps for those that follow; how many these are at most. `NoMemory` leaves the replica as it was, and the steps.
    pub fn reserve_accept(
        &mut self,
        message: &Message,
        steps: &mut Vec<Step>,
    ) -> Result<usize, NoMemory>
        requires fits { IsTrue (fits self.old.n message.now) }
        requires carried { IsTrue (is_carried self.old.limit message.now) }
        requires unrefused { (s : State) → StandsFor self.old s → refusal_of self.old.w s message.now ≡ None }
        ensures ready { IfOk result (λ most. IsReadyToAccept self.new message.now most steps.new) }
        ensures unchanged { Unchanged self.old self.new }
        ensures steps { steps.new.items ≡ steps.old.items }
    {
        let most = self.buffer.most_steps(message, &self.counts);
        steps.reserve(most)?;
        self.items.reserve(self.log.len() + self.buffer.len() + 1)?;
        self.reserve_element(message)?;
        Ok(most)
    }

    /// Takes in a message for which `reserve_accept` took memory, makes the steps that follow, of which there are so many at most,
    /// and puts them behind those that there are. Where it is next at once, it never becomes early.
    pub fn accept_reserved(&mut self, message: Message, most: usize, steps: &mut Vec<Step>)
        requires ready { IsReadyToAccept self.old message most steps.old }
        ensures steps { (s : State) → StandsFor self.old s → HasAdded self.old.w (with_early s message) steps.old.items steps.new.items self.new }
        ensures settings { SameSettings self.old self.new }
    {
        let all = steps.len() + most;
        self.take_in(message, steps);
        if steps.len() < all {
            self.make_steps(steps);
        }
    }

    /// Takes in a message for which `reserve_accept` took memory. Where it is next at once, its step is made, and put behind those
    /// that there are; else it is early then.
    #[inline(always)]
    fn take_in(&mut self, mut message: Message, steps: &mut Vec<Step>)
        requires message { CanBeAccepted self.old message }
        requires room { (s : State) → StandsFor self.old s → length steps.old.items + length (steps_of self.old.w (with_early s message)).0 ≤ vec_capacity steps.old }
        ensures made { (s : State) → StandsFor self.old s → HasMade self.old.w (with_early s message) steps.old.items steps.new.items self.new }
        ensures capacity { vec_capacity steps.new ≡ vec_capacity steps.old }
        ensures settings { SameSettings self.old self.new }
    {
        if comes_next(&mut self.buffer, &message, &self.counts) {
            steps.push_reserved(self.take(&mut message));
        } else {
            self.buffer.keep(message, self.me, &self.counts);
        }
    }

    /// Takes room for the element that a message puts in, beside those of the early messages. `NoMemory` leaves the lists, and
    /// no less room.
    pub(crate) fn reserve_element(&mut self, message: &Message) -> Result<(), NoMemory>
        ensures unchanged { Unchanged self.old self.new }
        ensures items { (shown self.new.items).spare ≡ (shown self.old.items).spare }
        ensures room { OnOk result (insertions self.new.buffer.early + element_room message.now.op ≤ (lists_shown self.new.lists).spare) }
    {
        if is_insertion(&message.op) {
            self.lists.reserve(self.buffer.len() + 1)?;
        }
        Ok(())
    }

    /// Makes the steps that can be made, one after the other, and puts them behind those that there are. There is room for a step
    /// of each.
    fn make_steps(&mut self, steps: &mut Vec<Step>)
        requires room { HasRoomToStep self.old steps.old.items (vec_capacity steps.old) }
        ensures steps { (s : State) → StandsFor self.old s → HasAdded self.old.w s steps.old.items steps.new.items self.new }
        ensures settings { SameSettings self.old self.new }
    {
        let mut message = Message {
            origin: 0,
            tag: Tag::zero(1),
            op: Op::NoOp,
        };
        while self.buffer.take_next(&self.counts, &mut message) {
            steps.push_reserved(self.take(&mut message));
        }
    }

    /// Takes the next message of a state, whose other early messages are still early: it is delivered, or dropped where it is
    /// crooked. Its operation is taken out of it where it is kept.
    #[inline(always)]
    fn take(&mut self, message: &mut Message) -> Step
        requires next { ∥ ((s : State) × IsNextOf self.old message.old s) ∥₁ }
        requires spare { length self.old.log.entries + length self.old.buffer.early + 1 ≤ (shown self.old.items).spare }
        requires lists_spare { insertions self.old.buffer.early + element_room message.old.op ≤ (lists_shown self.old.lists).spare }
        ensures step { (s : State) → IsNextOf self.old message.old s → IsStepOf self.old.w s result self.new }
        ensures settings { SameSettings self.old self.new }
        ensures buffer { self.new.buffer ≡ self.old.buffer }
    {
        let id = message.id();
        let last = self.matrix.row_at(message.origin);
        let moved = self.matrix.stable_moved(message.origin, &message.tag);
        let stable = counts_after(&self.matrix, &moved);
        match self.window.check(message, last, stable) {
            Ok(()) => {
                self.step(message, Sender::Other(moved.as_ref()));
                Step::Took(id)
            }
            Err(crook) => Step::Crook(id, crook),
        }
    }
}

/// Whether a message that isn't early can be delivered, and is taken next where it is put among the early ones.
#[tactic(auto, using(crate::proofs::Comes::next_can_be_delivered))]
fn comes_next(buffer: &mut CausalBuffer, message: &Message, counts: &Tag) -> bool
    requires fits { IsTrue (fits buffer.old.n message.now) }
    requires counts { length counts.now ≡ buffer.old.n }
    requires apart { is_again buffer.old.early message.now ≡ false }
    ensures next { IsTrue result ↔ (next_early buffer.old.n counts.now (put_early message.now buffer.old.early) ≡ Some message.now) }
    ensures unchanged { buffer.new ≡ buffer.old }
{
    is_deliverable(message, counts) && buffer.comes_next(message, counts)
}

/// What is stable once a message is noted, by what it moves.
fn counts_after<'a>(matrix: &'a Matrix, moved: &'a Option<Tag>) -> &'a Tag
    ensures { result.now ≡ unwrap_or moved.now (stable_of matrix.now.rows) }
{
    match moved {
        Some(stable) => stable,
        None => matrix.stable_counts(),
    }
}
