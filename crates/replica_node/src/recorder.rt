//! Where a node's notes go.

ghost use Rattle.std.specs.Prelude.{◌≡◌, ◌+◌, ◌<◌, ◌≤◌, ◌^◌, ◌++◌, ◌∷◌, [], ℕ, List, length, OnOk};
ghost use Rattle.causal_model.specs.declared.note.Note.{Note as ANote};

use causal_model::Note;
use op_base::NoMemory;
use std::alloc::Global;

/// A list of notes that grows. It has no call that reads, so nothing but want of memory can depend on what it holds.
pub trait Recorder {
    /// The notes, oldest first.
    ghost notes: { Self → List ANote };

    /// How many notes more there is room for.
    ghost spare: { Self → ℕ };

    /// How often room was asked for. `AskCount` keeps such a count in no bytes.
    ghost asked: { Self → ℕ };

    /// Takes room for so many notes more, where there are then fewer than 2^63. `NoMemory` leaves the notes, and no less
    /// room.
    fn reserve(&mut self, alloc: Global, count: usize) -> Result<(), NoMemory>
        ensures room { OnOk result (count ≤ spare self.new) }
        ensures few { OnOk result (length (notes self.old) + count < 2 ^ 63) }
        ensures kept { notes self.new ≡ notes self.old }
        ensures spare { spare self.old ≤ spare self.new }
        ensures asked { asked self.new ≡ asked self.old + 1 };

    /// Puts a note at the end. It takes no memory.
    fn note(&mut self, note: Note)
        requires { 1 ≤ spare self.old }
        ensures noted { notes self.new ≡ notes self.old ++ note ∷ [] }
        ensures spare { spare self.old ≤ spare self.new + 1 }
        ensures asked { asked self.new ≡ asked self.old };
}
