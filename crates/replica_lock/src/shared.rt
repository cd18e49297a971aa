//! A node that threads share.

ghost use Rattle.std.specs.Prelude.{◌≡◌, ◌↔◌, ◌+◌, ◌<◌, ◌++◌, ◌∷◌, [], false, true, ℕ, List, length, take, IfOk, IsTrue, IsErrOf, All, IsPermutation};
ghost use Rattle.causal_model.specs.Counts.{is_carried};
ghost use Rattle.causal_model.specs.declared.note.Note.{Note as ANote};
ghost use Rattle.op_base.specs.Message.{fits};
ghost use Rattle.replica_core.specs.Numbers.{are_numbers};
ghost use Rattle.replica_node.specs.Nodes.{IsCount};
ghost use Rattle.replica_lock.specs.Held.{Held};
ghost use Rattle.replica_lock.specs.Rules.{IsCall, AreOldest, CallsLocal, CallsBeat, CallsReceive, CallsAsk, CallsOutbox};
ghost use Rattle.replica_lock.specs.Turns.{Fits, IsNodeOf, notes_in, turn_with};
ghost use Rattle.turn_lock.specs.Turns.{StartsWith, opened, after_split, after_join, after_turn, turns_of};

use crate::pass::{Opener, Pass, Settings, Turn};
use crate::story::Noted;
use causal_model::{Beat, Local, Note, Receive};
use op_base::{Answer, Message, MessageList, NoMemory, ObjectId, Update};
use replica_core::CreateFault;
use replica_node::{Journal, Node};
use std::alloc::Global;
use std::collections::LinkedList;
use std::marker::Model;
use std::sync::Wait;
use store_io::Gate;
use turn_lock::{TurnLock, Visit};

/// A node under a lock.
#[derive(Drop)]
pub struct SharedNode {
    lock: TurnLock<Node<Journal>, LinkedList<Note>, Settings, Noted>,
}

impl Model for SharedNode {
    ghost use Rattle.replica_lock.specs.declared.pass.Settings.{Settings as ASettings};
    ghost use Rattle.turn_lock.specs.Turns.{LockState};

    ghost Value = { LockState ASettings };

    ghost view = { λ s. s.lock };
}

impl SharedNode {
    /// A node that has noted nothing, under a lock, and its opener.
    pub fn create(
        alloc: Global,
        me: u8,
        n: u8,
        w: u8,
        limit: u32,
    ) -> Result<(SharedNode, Opener), CreateFault>
        ensures bad_numbers { IsErrOf result CreateFault.BadNumbers ↔ (are_numbers me n w limit ≡ false) }
        ensures settings { IfOk result (λ made. made.0.key ≡ record { me = me; n = n; w = w; limit = limit }) }
        ensures opener { IfOk result (λ made. made.1 ≡ opened made.0) }
    {
        let node = Node::create(alloc, me, n, w, limit, Journal::new(alloc))?;
        let settings = Settings { me, n, w, limit };
        match TurnLock::create(alloc, node, &settings) {
            Ok((lock, opener)) => Ok((SharedNode { lock }, opener)),
            Err(NoMemory) => Err(CreateFault::NoMemory),
        }
    }

    /// A new pass, which has seen what the opener has, and has a number of its own. It waits for nobody and takes no memory.
    pub fn split(&self, opener: &mut Opener) -> Pass
        requires lock { opener.old.lock ≡ self.now }
        requires room { opener.old.out < 1024 }
        ensures opener { opener.new ≡ after_split opener.old }
        ensures pass { result ≡ record { lock = opener.old.lock; number = opener.old.splits; seen = opener.old.seen; own = [] } }
    {
        Pass {
            inner: self.lock.split(opener),
        }
    }

    /// Takes a pass back. The opener has then seen the longer of the two lists, and its own turns include the pass's. It waits
    /// for nobody.
    pub fn join(&self, opener: &mut Opener, pass: Pass)
        requires opener { opener.old.lock ≡ self.now }
        requires pass { pass.lock ≡ self.now }
        ensures { opener.new ≡ after_join opener.old (record { lock = pass.lock; number = pass.number; in_turn = false; seen = pass.seen; own = pass.own }) }
    {
        let Pass { inner } = pass;
        self.lock.join(opener, inner);
    }

    /// Sends an update, in a turn of the pass, as the node does.
    pub fn local<R: Wait, G: Gate>(
        &self,
        rt: &R,
        alloc: Global,
        pass: &mut Pass,
        update: &Update,
        visit: &Visit<'_, G>,
    ) -> Turn<Local>
        requires lock { pass.old.lock ≡ self.now }
        ensures call { CallsLocal pass.old pass.new result.place update.now result.answer }
        ensures lock { pass.new.lock ≡ pass.old.lock }
    {
        let mut node = self.lock.enter(rt, &mut pass.inner, visit);
        let before = node.places();
        let answer = node.local(alloc, update);
        let place = self.put_back(&mut pass.inner, node, before);
        Turn { answer, place }
    }

    /// Sends a no-op where one is due, in a turn of the pass, as the node does.
    pub fn beat<R: Wait, G: Gate>(
        &self,
        rt: &R,
        alloc: Global,
        pass: &mut Pass,
        visit: &Visit<'_, G>,
    ) -> Turn<Beat>
        requires lock { pass.old.lock ≡ self.now }
        ensures call { CallsBeat pass.old pass.new result.place result.answer }
        ensures lock { pass.new.lock ≡ pass.old.lock }
    {
        let mut node = self.lock.enter(rt, &mut pass.inner, visit);
        let before = node.places();
        let answer = node.beat(alloc);
        let place = self.put_back(&mut pass.inner, node, before);
        Turn { answer, place }
    }

    /// Receives a message of the store, in a turn of the pass, as the node does.
    pub fn receive<R: Wait, G: Gate>(
        &self,
        rt: &R,
        alloc: Global,
        pass: &mut Pass,
        message: Message,
        visit: &Visit<'_, G>,
    ) -> Turn<Receive>
        requires lock { pass.old.lock ≡ self.now }
        requires fits { IsTrue (fits self.now.key.n message) }
        requires carried { IsTrue (is_carried self.now.key.limit message) }
        ensures call { CallsReceive pass.old pass.new result.place message result.answer }
        ensures lock { pass.new.lock ≡ pass.old.lock }
    {
        let mut node = self.lock.enter(rt, &mut pass.inner, visit);
        let before = node.places();
        let answer = node.receive(alloc, message);
        let place = self.put_back(&mut pass.inner, node, before);
        Turn { answer, place }
    }

    /// What an object is, in a turn of the pass.
    pub fn ask<R: Wait, G: Gate>(
        &self,
        rt: &R,
        alloc: Global,
        pass: &mut Pass,
        object: &ObjectId,
        visit: &Visit<'_, G>,
    ) -> Turn<Result<Answer, NoMemory>>
        requires lock { pass.old.lock ≡ self.now }
        ensures call { CallsAsk pass.old pass.new result.place object.now result.answer }
        ensures lock { pass.new.lock ≡ pass.old.lock }
    {
        let node = self.lock.enter(rt, &mut pass.inner, visit);
        let answer = node.answer(alloc, object);
        let before = node.places();
        let place = self.put_back(&mut pass.inner, node, before);
        Turn { answer, place }
    }

    /// Copies of the oldest messages of the outbox, so many or all, in a turn of the pass. They are of the store.
    pub fn outbox<R: Wait, G: Gate>(
        &self,
        rt: &R,
        alloc: Global,
        pass: &mut Pass,
        most: usize,
        visit: &Visit<'_, G>,
    ) -> Turn<Result<MessageList, NoMemory>>
        requires lock { pass.old.lock ≡ self.now }
        ensures call { CallsOutbox pass.old pass.new result.place most result.answer }
        ensures lock { pass.new.lock ≡ pass.old.lock }
    {
        let node = self.lock.enter(rt, &mut pass.inner, visit);
        let answer = oldest(alloc, node.replica().outbox.messages(), most);
        let before = node.places();
        let place = self.put_back(&mut pass.inner, node, before);
        Turn { answer, place }
    }

    /// The node, once all passes are joined. Its journal has the notes of the turns that the opener has seen, which are those
    /// of the passes that it joined and no others.
    pub fn close(self, opener: Opener) -> Node<Journal>
        requires lock { opener.lock ≡ self }
        requires none { opener.out ≡ 0 }
        ensures fits { Fits self.key opener.seen result }
        ensures turns { IsPermutation opener.own opener.seen }
        ensures fronts { All (StartsWith opener.seen) opener.fronts }
        ensures order { (number : ℕ) → turns_of number opener.own ≡ turns_of number opener.seen }
    {
        let SharedNode { lock } = self;
        lock.close(opener)
    }

    /// Puts the node back and ends the turn: with what was noted since there were so many notes. How many there are.
    fn put_back(
        &self,
        pass: &mut turn_lock::Pass<Node<Journal>, LinkedList<Note>, Settings>,
        node: Node<Journal>,
        before: u64,
    ) -> u64
        requires lock { pass.old.lock ≡ self.now }
        requires turn { pass.old.in_turn ≡ true }
        requires counted { IsCount before (notes_in pass.old.seen) }
        requires is_node { IsNodeOf self.now.key node }
        requires grows { (what : List ANote) × (node.journal.notes ≡ notes_in pass.old.seen ++ what) }
        ensures turn { (what : List ANote) → node.journal.notes ≡ notes_in pass.old.seen ++ what → pass.new ≡ after_turn (turn_with pass.old.number what) pass.old }
        ensures own { turns_of pass.new.number pass.new.seen ≡ pass.new.own }
        ensures place { result ≡ length node.journal.notes }
    {
        let place = node.places();
        if place > before {
            self.lock.act(pass, node);
        } else {
            self.lock.leave(pass, node);
        }
        place
    }
}

/// Copies of the first messages, so many or all.
fn oldest(alloc: Global, messages: &[Message], most: usize) -> Result<MessageList, NoMemory>
    ensures { IfOk result (λ list. list ≡ take most messages.now) }
{
    let some = &messages[..most.min(messages.len())];
    let mut list = MessageList::with_capacity(alloc, some.len())?;
    for message in some {
        list.push(message.copy(alloc)?)?;
    }
    Ok(list)
}
