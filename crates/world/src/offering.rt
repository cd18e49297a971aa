//! Offering a member's outbox to a replica of the world.

ghost use Rattle.std.specs.Prelude.{◌≡◌, ◌≢◌, ◌⊎◌, ◌<◌, ◌∷◌, [], length, None, IsTrue, All, IfOk, OnOk, OnErr};
ghost use Rattle.op_base.specs.Message.{fits};
ghost use Rattle.op_base.specs.declared.operation.Op.TheVariants as op;
ghost use Rattle.causal_model.specs.Counts.{is_carried};
ghost use Rattle.causal_model.specs.Follows.{FollowsOrStops};
ghost use Rattle.causal_model.specs.Receiving.{refusal_of};
ghost use Rattle.causal_model.specs.State.{State};
ghost use Rattle.replica_core.specs.Rules.{StandsFor};
ghost use Rattle.world_model.specs.World.{PlainWorld};
ghost use Rattle.world_model.specs.Offering.{offered, offered_more, offered_between, resend_at, resent_of};
ghost use Rattle.world.specs.Growing.{NotesOffers};
ghost use Rattle.world.specs.Shows.{state_of};
ghost use Rattle.world.specs.Steps.{SameNode, OffersSome, OffersBetween, CanBeOffered, HasOffered, offered_at};

use crate::world::World;
use op_base::{Act, Message, NoMemory, Op, Step, StepList, Update};
use outbox::Outbox;
use replica_node::{Journal, Node};
use std::alloc::Global;
use world_model::Resent;

/// What has come of offers: the steps, and whether a message was accepted.
#[derive(Drop)]
pub struct Offers {
    pub steps: Vec<Step>,
    pub kept: bool,
}

impl World {
    ghost use Rattle.world.specs.Answers.{HasGrown, ShowsPlain, IsAfterSome};
    ghost use Rattle.world.specs.Honest.{ShowsHonest, is_fair_resent};

    /// Offers the outbox of member `k` to replica `r`, oldest first. After `NoMemory` the first of its messages were
    /// offered.
    pub fn resend(&mut self, alloc: Global, r: u8, k: u8) -> Resent
        requires to { r < length self.old.nodes.items }
        requires of { k < length self.old.nodes.items }
        ensures answer { FollowsOrStops ShowsPlain Resent.NoMemory (IsAfterSome r k) (resend_at r k) self.old result self.new }
        ensures honest { ShowsHonest self.old → ShowsHonest self.new }
        ensures fair { ShowsHonest self.old → IsTrue (is_fair_resent result) }
        ensures members { length self.new.nodes.items ≡ length self.old.nodes.items }
    {
        match self.offer_outbox(alloc, r, k) {
            Err(NoMemory) => Resent::NoMemory,
            Ok(made) => resent_of(made),
        }
    }

    /// Offers the outbox of member `k` to replica `r`, oldest first. On `NoMemory` the first of its messages were offered.
    pub(crate) fn offer_outbox(&mut self, alloc: Global, r: u8, k: u8) -> Result<Offers, NoMemory>
        requires to { r < length self.old.nodes.items }
        requires of { k < length self.old.nodes.items }
        ensures made { (plain : PlainWorld) → ShowsPlain self.old plain → IfOk result (λ made. HasOffered (offered_between plain r k) made) }
        ensures world { (plain : PlainWorld) → ShowsPlain self.old plain → IfOk result (λ made. ShowsPlain self.new (resend_at r k plain).1) }
        ensures some { (plain : PlainWorld) → ShowsPlain self.old plain → OnErr result ((midst : PlainWorld) × IsAfterSome r k plain midst × ShowsPlain self.new midst) }
        ensures grown { HasGrown self.old self.new }
        ensures members { length self.new.nodes.items ≡ length self.old.nodes.items }
    {
        if r == k {
            // None of the own messages would be accepted.
            return Ok(Offers {
                steps: Vec::new(alloc),
                kept: false,
            });
        }
        offer_between(alloc, &mut self.nodes, r, k)
    }
}

/// What comes of a resend, by what has come of its offers.
fn resent_of(made: Offers) -> Resent
    ensures { result ≡ resent_of made.steps.items made.kept }
{
    if !made.steps.is_empty() {
        Resent::Took(StepList::from_vec(made.steps))
    } else if made.kept {
        Resent::Kept
    } else {
        Resent::Nothing
    }
}

/// Offers the outbox of the node at place `k` to that at another place `r`.
fn offer_between(
    alloc: Global,
    nodes: &mut [Node<Journal>],
    r: u8,
    k: u8,
) -> Result<Offers, NoMemory>
    requires to { r < length nodes.old }
    requires of { k < length nodes.old }
    requires apart { r ≢ k }
    requires fit { ∥ CanBeOffered nodes.old r k ∥₁ }
    ensures offered { OffersBetween nodes.old r k result nodes.new }
{
    if r < k {
        let (low, high) = nodes.split_at_mut(k as usize);
        offer_lacking(alloc, &mut low[r as usize], &high[0].replica().outbox, k)
    } else {
        let (low, high) = nodes.split_at_mut(r as usize);
        offer_lacking(alloc, &mut high[0], &low[k as usize].replica().outbox, k)
    }
}

/// Offers the outbox of another member to a node. Messages that the node has delivered are old there, and aren't looked at.
fn offer_lacking(
    alloc: Global,
    node: &mut Node<Journal>,
    outbox: &Outbox,
    of: u8,
) -> Result<Offers, NoMemory>
    requires of { of < node.old.inner.n }
    requires own { All (λ m. m.origin ≡ of) outbox.now.messages }
    requires fit { All (λ m. IsTrue (fits node.old.inner.n m)) outbox.now.messages }
    requires carried { All (λ m. IsTrue (is_carried node.old.inner.limit m)) outbox.now.messages }
    ensures made { IfOk result (λ made. offered_at node.new made ≡ offered node.old.inner.w (state_of node.old) outbox.now.messages) }
    ensures some { OnErr result (OffersSome node.old.inner.w (state_of node.old) outbox.now.messages node.new) }
    ensures same { SameNode node.old node.new }
    ensures noted { NotesOffers outbox.now.messages node.old.journal.notes node.new.journal.notes }
{
    let delivered = node.replica().counts.at(of);
    offer_messages(alloc, node, outbox.messages_above(delivered))
}

/// Offers messages to a node, one after the other. On `NoMemory` the first of them were offered.
fn offer_messages(
    alloc: Global,
    node: &mut Node<Journal>,
    messages: &[Message],
) -> Result<Offers, NoMemory>
    requires fit { All (λ m. IsTrue (fits node.old.inner.n m)) messages.now }
    requires carried { All (λ m. IsTrue (is_carried node.old.inner.limit m)) messages.now }
    ensures made { IfOk result (λ made. offered_at node.new made ≡ offered node.old.inner.w (state_of node.old) messages.now) }
    ensures some { OnErr result (OffersSome node.old.inner.w (state_of node.old) messages.now node.new) }
    ensures same { SameNode node.old node.new }
    ensures noted { NotesOffers messages.now node.old.journal.notes node.new.journal.notes }
{
    let mut made = Offers {
        steps: Vec::new(alloc),
        kept: false,
    };
    for message in messages {
        offer_one(alloc, node, message, &mut made)?;
    }
    Ok(made)
}

/// Offers a message to a node. One that isn't accepted costs a look at it. On `NoMemory` it was offered, or it wasn't.
///
/// What it carries is told apart before a copy is made, and most messages have a case of their own: the copy is then made where the
/// node takes it from, and isn't moved there.
fn offer_one(
    alloc: Global,
    node: &mut Node<Journal>,
    message: &Message,
    made: &mut Offers,
) -> Result<(), NoMemory>
    requires fits { IsTrue (fits node.old.inner.n message.now) }
    requires carried { IsTrue (is_carried node.old.inner.limit message.now) }
    ensures made { OnOk result (offered_at node.new made.new ≡ offered_more node.old.inner.w (offered_at node.old made.old) message.now) }
    ensures some { OnErr result ((state_of node.new ≡ state_of node.old) ⊎ (state_of node.new ≡ (offered_more node.old.inner.w (offered_at node.old made.old) message.now).state)) }
    ensures same { SameNode node.old node.new }
    ensures noted { NotesOffers (message.now ∷ []) node.old.journal.notes node.new.journal.notes }
{
    if node.replica().refusal(message).is_some() {
        return Ok(());
    }
    let Message { origin, tag, op } = message;
    match op {
        Op::NoOp => {
            let copy = Message {
                origin: *origin,
                tag: *tag,
                op: Op::NoOp,
            };
            offer_copy(alloc, node, copy, message, made)
        }
        Op::Update(update) => match &update.act {
            Act::Add(value) if value.is_in_place() => {
                let copy = copy_with(message, update, Act::Add(value.copied_in_place()));
                offer_copy(alloc, node, copy, message, made)
            }
            Act::Rmv(value) if value.is_in_place() => {
                let copy = copy_with(message, update, Act::Rmv(value.copied_in_place()));
                offer_copy(alloc, node, copy, message, made)
            }
            Act::Write(value) if value.is_in_place() => {
                let copy = copy_with(message, update, Act::Write(value.copied_in_place()));
                offer_copy(alloc, node, copy, message, made)
            }
            _ => {
                let copy = message.copy(alloc)?;
                offer_copy(alloc, node, copy, message, made)
            }
        },
    }
}

/// A copy of a message, by a copy of its update's act.
#[inline(always)]
fn copy_with(message: &Message, update: &Update, act: Act) -> Message
    requires update { message.now.op ≡ op.Update update.now }
    requires act { act ≡ update.now.act }
    ensures { result ≡ message.now }
{
    Message {
        origin: message.origin,
        tag: message.tag,
        op: Op::Update(Update {
            object: update.object,
            act,
        }),
    }
}

/// Offers a copy of a message that isn't refused to a node. On `NoMemory` it was offered, or it wasn't.
#[inline(always)]
fn offer_copy(
    alloc: Global,
    node: &mut Node<Journal>,
    copy: Message,
    _message: &Message,
    made: &mut Offers,
) -> Result<(), NoMemory>
    requires copy { copy ≡ _message.now }
    requires fits { IsTrue (fits node.old.inner.n _message.now) }
    requires carried { IsTrue (is_carried node.old.inner.limit _message.now) }
    requires unrefused { (s : State) → StandsFor node.old.inner s → refusal_of node.old.inner.w s _message.now ≡ None }
    ensures made { OnOk result (offered_at node.new made.new ≡ offered_more node.old.inner.w (offered_at node.old made.old) _message.now) }
    ensures some { OnErr result ((state_of node.new ≡ state_of node.old) ⊎ (state_of node.new ≡ (offered_more node.old.inner.w (offered_at node.old made.old) _message.now).state)) }
    ensures same { SameNode node.old node.new }
    ensures noted { NotesOffers (_message.now ∷ []) node.old.journal.notes node.new.journal.notes }
{
    node.accept_behind(alloc, copy, &mut made.steps)?;
    made.kept = true;
    Ok(())
}
