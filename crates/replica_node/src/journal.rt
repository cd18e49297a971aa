//! A journal: a recorder that keeps its list.

ghost use Rattle.std.specs.Prelude.{◌≡◌, ◌+◌, ◌≤◌, [], ◌∷◌, ◌++◌, IfOk, OnOk};

use crate::count::AskCount;
use crate::noting::{NotedAs, note_copy};
use crate::recorder::Recorder;
use causal_model::Note;
use op_base::NoMemory;
use std::alloc::Global;
use std::marker::Model;

/// Notes in memory, oldest first. Contracts see them, the room for more, and how often room was asked for.
#[derive(Debug, Drop)]
pub struct Journal {
    notes: Vec<Note>,
    asked: AskCount,
}

impl Model for Journal {
    ghost use Rattle.std.specs.Prelude.{◌-◌, length, vec_capacity};
    ghost use Rattle.replica_node.specs.Notes.{Notes};

    ghost Value = { Notes };

    ghost view = { λ j. record { notes = j.notes.items; spare = vec_capacity j.notes - length j.notes.items; asked = j.asked.asked } };
}

impl Journal {
    /// The journal with no notes. It takes no memory.
    pub fn new(alloc: Global) -> Journal
        ensures { result.notes ≡ [] }
    {
        Journal {
            notes: Vec::new(alloc),
            asked: AskCount::none(),
        }
    }

    /// The notes, oldest first.
    pub fn notes(&self) -> &[Note]
        ensures { result.now ≡ self.now.notes }
    {
        self.notes.as_slice()
    }

    /// A journal with equal notes. `NoMemory` leaves nothing behind.
    pub fn copy(&self, alloc: Global) -> Result<Journal, NoMemory>
        ensures { IfOk result (λ copy. copy.notes ≡ self.now.notes) }
    {
        // By the powers of two, as notes grow: one at least comes next, and what was let go serves the next copy.
        let len = self.notes.len();
        let room = len.checked_next_power_of_two().ok_or(NoMemory)?;
        let mut copy = Journal {
            notes: Vec::with_capacity(alloc, room)?,
            asked: AskCount::none(),
        };
        for note in &self.notes {
            put_copy(&mut copy, note, alloc)?;
        }
        Ok(copy)
    }
}

/// Notes what another note tells, in a journal that has room for it. The memory for a message's copy is taken first.
fn put_copy(journal: &mut Journal, note: &Note, alloc: Global) -> Result<(), NoMemory>
    requires room { 1 ≤ journal.old.spare }
    ensures copied { OnOk result (journal.new.notes ≡ journal.old.notes ++ note.now ∷ []) }
    ensures spare { OnOk result (journal.old.spare ≤ journal.new.spare + 1) }
{
    match note {
        Note::Sent(message) => {
            note_copy(journal, NotedAs::Sent, message, message.op.room(alloc)?);
        }
        Note::Kept(message) => {
            note_copy(journal, NotedAs::Kept, message, message.op.room(alloc)?);
        }
        Note::Took(id) => journal.note(Note::Took(*id)),
        Note::Crook(id) => journal.note(Note::Crook(*id)),
        Note::Regroup { epoch, n, me } => journal.note(Note::Regroup {
            epoch: *epoch,
            n: *n,
            me: *me,
        }),
    }
    Ok(())
}

impl Recorder for Journal {
    ghost notes = { λ j. j.notes };

    ghost spare = { λ j. j.spare };

    ghost asked = { λ j. j.asked };

    fn reserve(&mut self, _alloc: Global, count: usize) -> Result<(), NoMemory> {
        self.asked = self.asked.one_more();
        // It grows by a factor, so that many single reserves take constant time each.
        self.notes.reserve(count)?;
        Ok(())
    }

    fn note(&mut self, note: Note) {
        self.notes.push_reserved(note);
    }
}
