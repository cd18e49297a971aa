//! One step of a replica: a message becomes the next of its history.

ghost use Rattle.std.specs.Prelude.{false, ◌≡◌, ◌+◌, ◌<◌, ◌≤◌, not, length, All, IsTrue};
ghost use Rattle.op_base.specs.Message.{fits};
ghost use Rattle.causal_model.specs.State.{with_own, State};
ghost use Rattle.causal_model.specs.Stability.{carries_operation};
ghost use Rattle.causal_model.specs.States.{IsState};
ghost use Rattle.outbox.specs.Sent.{ComesAfter, room_of};
ghost use Rattle.list_type.specs.Shown.{shown as lists_shown};
ghost use Rattle.stable_state.specs.Shown.{shown};
ghost use Rattle.replica_core.specs.Insertions.{insertions, element_room};
ghost use Rattle.stability_matrix.specs.Rows.{stable_of};
ghost use Rattle.stability_matrix.specs.Standing.{KeepsStable};
ghost use Rattle.replica_core.specs.Steps.{IsSender, KeepsMatrix, is_due_after, with_own_in, left_unstable};

use crate::replica::Replica;
use crate::settling::settle;
use op_base::{CopyRoom, Message, Op, Tag};
use outbox::Outbox;
use stability_matrix::Matrix;

/// Who sent a message that is delivered, and what a step needs for it.
#[derive(Drop)]
pub(crate) enum Sender<'a> {
    /// The replica itself: memory for a copy of the message, which is sent again until it is stable.
    Own(CopyRoom),
    /// Another member: what is stable once the message is delivered, where that isn't what is stable now.
    Other(Option<&'a Tag>),
}

impl Replica {
    ghost use Rattle.replica_core.specs.Rules.{StandsFor, SameSettings};

    /// Makes a message the next of the history. There is room for what it and each early message can make of items and lists.
    /// The operation is taken out of the message where it is kept.
    pub(crate) fn step(&mut self, message: &mut Message, sender: Sender<'_>)
        requires next { ∥ ((s : State) × StandsFor self.old s × IsState self.old.w self.old.limit (with_own s message.old)) ∥₁ }
        requires sender { IsSender self.old.me self.old.matrix message.old sender }
        requires room { length self.old.log.entries + length self.old.buffer.early + 1 ≤ (shown self.old.items).spare }
        requires lists_room { insertions self.old.buffer.early + element_room message.old.op ≤ (lists_shown self.old.lists).spare }
        ensures stands { (s : State) → StandsFor self.old s → IsState self.old.w self.old.limit (with_own s message.old) → StandsFor self.new (with_own s message.old) }
        ensures settings { SameSettings self.old self.new }
        ensures buffer { self.new.buffer ≡ self.old.buffer }
    {
        let origin = message.origin;
        let moved = note(&mut self.matrix, &mut self.outbox, message, sender);
        self.counts.set(origin, message.tag.at(origin));
        self.due = is_due(self.due, self.me, message);
        let stable = self.matrix.stable_counts();
        self.window.push(origin, message.tag, is_noop(&message.op));
        self.window.drop_stable(stable);
        self.outbox.drop_stable(stable);
        let epoch = self.epoch;
        settle(
            &mut self.log,
            &mut self.items,
            &mut self.lists,
            epoch,
            message,
            moved,
            stable,
        );
    }
}

/// Notes a member's next message in its matrix, and puts a copy of an own one behind those that are sent again, unless it is
/// stable at once, as in a store of one member. What isn't stable is then what it is with the message among them. Says whether other
/// messages are stable then.
fn note(matrix: &mut Matrix, outbox: &mut Outbox, message: &Message, sender: Sender<'_>) -> bool
    requires origin { message.now.origin < length matrix.old.rows }
    requires entries { length message.now.tag ≡ length matrix.old.rows }
    requires sender { IsSender matrix.old.me matrix.old message.now sender }
    requires room { message.now.origin ≡ matrix.old.me → length outbox.old.messages < room_of outbox.old.n outbox.old.w }
    requires fits { message.now.origin ≡ matrix.old.me → IsTrue (fits outbox.old.n message.now) }
    requires next { message.now.origin ≡ matrix.old.me → All (λ e. ComesAfter e message.now) outbox.old.messages }
    ensures members { length matrix.new.rows ≡ length matrix.old.rows }
    ensures known { KeepsMatrix message.now matrix.old matrix.new }
    ensures stays { result ≡ false → KeepsStable matrix.old matrix.new }
    ensures outbox { left_unstable (stable_of matrix.new.rows) outbox.new ≡ left_unstable (stable_of matrix.new.rows) (with_own_in matrix.old.me message.now outbox.old) }
{
    match sender {
        Sender::Own(room) => {
            let moved = matrix.note_own_moving(&message.tag);
            if !matrix.is_stable(message.id()) {
                outbox.push(message.copied(room));
            }
            moved
        }
        Sender::Other(moved) => {
            matrix.note_moved(message.origin, &message.tag, moved);
            moved.is_some()
        }
    }
}

/// Whether a no-op is due at a member after its next message, where one was due before it or wasn't.
fn is_due(due: bool, me: u8, message: &Message) -> bool
    ensures { result ≡ is_due_after me due message.now }
{
    message.origin != me && (due || !is_noop(&message.op))
}

/// Whether an operation is the no-op.
fn is_noop(op: &Op) -> bool
    ensures { result ≡ not (carries_operation op.now) }
{
    matches!(op, Op::NoOp)
}
