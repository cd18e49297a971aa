//! What the entries of free rows say.

ghost use Rattle.std.specs.Prelude.{◌≡◌, IsTrue};
ghost use Rattle.op_base.specs.Operation.{has_act};
ghost use Rattle.polog.specs.Rows.{idle_act, idle_of};

use op_base::{Act, Entry, Kind, ObjectId, Tag, Update};

/// What the entries of rows say that are free for an object's. They are no entries of the log.
#[derive(Clone, Copy, Debug)]
pub struct Idle {
    /// A member of the store.
    pub origin: u8,
    /// A timestamp of one of its messages.
    pub tag: Tag,
    /// The object.
    pub object: ObjectId,
}

impl Idle {
    /// That of rows that are free for an entry's object.
    pub fn of(entry: &Entry) -> Idle
        ensures { result ≡ idle_of entry.now }
    {
        Idle {
            origin: entry.origin,
            tag: entry.tag,
            object: entry.update.object,
        }
    }

    /// An entry that says so. It takes no memory.
    pub fn entry(&self) -> Entry
        ensures origin { result.origin ≡ self.now.origin }
        ensures tag { result.tag ≡ self.now.tag }
        ensures object { result.update.object ≡ self.now.object }
        ensures act { result.update.act ≡ idle_act self.now.object.kind }
    {
        Entry {
            origin: self.origin,
            tag: self.tag,
            update: Update {
                object: self.object,
                act: idle_act(self.object.kind),
            },
        }
    }
}

/// An act of a kind that names no value and turns nothing on.
fn idle_act(kind: Kind) -> Act
    ensures act { result ≡ idle_act kind }
    ensures of_kind { IsTrue (has_act kind result) }
{
    match kind {
        Kind::Counter => Act::Inc(0),
        _ => Act::Clear,
    }
}
