//! Notes of messages, each a copy for which memory was taken before.
//!
//! What a message carries is told apart first, and each case has a function of its own, which makes the note where it is put in:
//! a copy that was made and then noted would be moved twice more, and the places of all cases would be cleared for each.

ghost use Rattle.std.specs.Prelude.{◌≡◌, ◌+◌, ◌≤◌, ◌++◌, ◌∷◌, []};
ghost use Rattle.op_base.specs.CopyRooms.{IsCopyRoomFor, IsCopyRoomForAct};
ghost use Rattle.op_base.specs.declared.operation.Op.TheVariants as op;
ghost use Rattle.replica_node.specs.Noting.{noted_as, message_of};

use crate::recorder::Recorder;
use causal_model::Note;
use op_base::{Act, CopyRoom, Message, Op, Tag, Update};

/// As what a message is noted.
#[derive(Clone, Copy, Drop)]
pub enum NotedAs {
    /// As one that is sent.
    Sent,
    /// As one that is accepted.
    Kept,
}

impl NotedAs {
    /// The note of a message.
    #[inline(always)]
    fn note(self, message: Message) -> Note
        ensures { result ≡ noted_as self message }
    {
        match self {
            NotedAs::Sent => Note::Sent(message),
            NotedAs::Kept => Note::Kept(message),
        }
    }
}

/// Notes a message, by a copy.
#[inline(always)]
pub(crate) fn note_copy<R: Recorder>(
    journal: &mut R,
    noted: NotedAs,
    message: &Message,
    room: CopyRoom,
)
    requires spare { 1 ≤ R.spare journal.old }
    requires room { IsCopyRoomFor room message.now.op }
    ensures noted { R.notes journal.new ≡ R.notes journal.old ++ noted_as noted message.now ∷ [] }
    ensures spare { R.spare journal.old ≤ R.spare journal.new + 1 }
    ensures asked { R.asked journal.new ≡ R.asked journal.old }
{
    let Message { origin, tag, op } = message;
    match op {
        Op::NoOp => note_noop(journal, noted, *origin, tag),
        Op::Update(update) => match &update.act {
            Act::Add(value) => note_act(
                journal,
                noted,
                *origin,
                tag,
                update,
                Act::Add(value.copied(room)),
            ),
            Act::Rmv(value) => note_act(
                journal,
                noted,
                *origin,
                tag,
                update,
                Act::Rmv(value.copied(room)),
            ),
            Act::Write(value) => note_act(
                journal,
                noted,
                *origin,
                tag,
                update,
                Act::Write(value.copied(room)),
            ),
            _ => note_update(journal, noted, *origin, tag, update, room),
        },
    }
}

/// Notes a no-op.
#[inline(always)]
fn note_noop<R: Recorder>(journal: &mut R, noted: NotedAs, origin: u8, tag: &Tag)
    requires spare { 1 ≤ R.spare journal.old }
    ensures noted { R.notes journal.new ≡ R.notes journal.old ++ noted_as noted (message_of origin tag.now op.NoOp) ∷ [] }
    ensures spare { R.spare journal.old ≤ R.spare journal.new + 1 }
    ensures asked { R.asked journal.new ≡ R.asked journal.old }
{
    journal.note(noted.note(Message {
        origin,
        tag: *tag,
        op: Op::NoOp,
    }));
}

/// Notes an update, by a copy of its act: most messages of many stores carry an act that has one value.
#[inline(always)]
fn note_act<R: Recorder>(
    journal: &mut R,
    noted: NotedAs,
    origin: u8,
    tag: &Tag,
    update: &Update,
    act: Act,
)
    requires spare { 1 ≤ R.spare journal.old }
    requires act { act ≡ update.now.act }
    ensures noted { R.notes journal.new ≡ R.notes journal.old ++ noted_as noted (message_of origin tag.now (op.Update update.now)) ∷ [] }
    ensures spare { R.spare journal.old ≤ R.spare journal.new + 1 }
    ensures asked { R.asked journal.new ≡ R.asked journal.old }
{
    journal.note(noted.note(Message {
        origin,
        tag: *tag,
        op: Op::Update(Update {
            object: update.object,
            act,
        }),
    }));
}

/// Notes any update.
#[inline(always)]
fn note_update<R: Recorder>(
    journal: &mut R,
    noted: NotedAs,
    origin: u8,
    tag: &Tag,
    update: &Update,
    room: CopyRoom,
)
    requires spare { 1 ≤ R.spare journal.old }
    requires room { IsCopyRoomForAct room update.now.act }
    ensures noted { R.notes journal.new ≡ R.notes journal.old ++ noted_as noted (message_of origin tag.now (op.Update update.now)) ∷ [] }
    ensures spare { R.spare journal.old ≤ R.spare journal.new + 1 }
    ensures asked { R.asked journal.new ≡ R.asked journal.old }
{
    journal.note(noted.note(Message {
        origin,
        tag: *tag,
        op: Op::Update(update.copied(room)),
    }));
}
