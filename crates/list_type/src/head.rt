//! What the sender of a message had seen, told from the message's head.

ghost use Rattle.std.specs.Prelude.{◌≡◌, ◌&&◌, sum};
ghost use Rattle.std.specs.List.{list_any};
ghost use Rattle.op_base.specs.Timestamp.{entry};
ghost use Rattle.causal_model.specs.Elements.{takes_out};
ghost use Rattle.causal_model.specs.ListSteps.{had_seen};
ghost use Rattle.causal_model.specs.Log.{message_of};
ghost use Rattle.causal_model.specs.Order.{happened_before};
ghost use Rattle.list_type.specs.Heads.{head_of, takes_by};
ghost use Rattle.list_type.specs.Removals.{seen_below};

use op_base::{Act, ElementId, Entry, Tag};

/// The head of a message: its epoch, its sender and its timestamp.
#[derive(Clone, Copy)]
pub(crate) struct Head {
    pub epoch: u32,
    pub origin: u8,
    pub tag: Tag,
}

/// A member's number in a timestamp: 0 where the timestamp has no such member.
pub(crate) fn number_of(tag: &Tag, x: u8) -> u32
    ensures { result ≡ entry tag.now x }
{
    if x < tag.members() { tag.at(x) } else { 0 }
}

/// The sum of a timestamp's numbers.
pub(crate) fn sum_of(tag: &Tag) -> u64
    ensures { result ≡ sum tag.now }
{
    let mut sum = 0;
    for x in 0..tag.members() {
        sum += u64::from(tag.at(x));
    }
    sum
}

impl Head {
    /// The head of an entry of an epoch.
    pub(crate) fn of(epoch: u32, entry: &Entry) -> Head
        ensures { result ≡ record { epoch = epoch; origin = entry.now.origin; tag = entry.now.tag } }
    {
        Head {
            epoch,
            origin: entry.origin,
            tag: entry.tag,
        }
    }

    /// The id of the element that the message puts in.
    pub(crate) fn element(&self) -> ElementId
        ensures { result ≡ record { epoch = self.now.epoch; origin = self.now.origin; seq = entry self.now.tag self.now.origin } }
    {
        ElementId {
            epoch: self.epoch,
            origin: self.origin,
            seq: number_of(&self.tag, self.origin),
        }
    }

    /// Whether the sender had seen an element when it sent the message.
    pub(crate) fn had_seen(&self, id: ElementId) -> bool
        ensures { result ≡ had_seen self.now.epoch (head_of self.now) id }
    {
        if id.epoch != self.epoch {
            return id.epoch < self.epoch;
        }
        id != self.element() && id.seq <= number_of(&self.tag, id.origin)
    }

    /// The sender had seen those elements of a member, of the message's epoch, whose numbers are below this.
    pub(crate) fn seen_below(&self, x: u8) -> u64
        ensures { result ≡ seen_below (head_of self.now) x }
    {
        let number = u64::from(number_of(&self.tag, x));
        if x == self.origin { number } else { number + 1 }
    }

    /// Whether an entry's message happened before.
    fn follows(&self, entry: &Entry) -> bool
        ensures { result ≡ happened_before (message_of entry.now) (head_of self.now) }
    {
        let number = number_of(&entry.tag, entry.origin);
        let is_same = entry.origin == self.origin && number == number_of(&self.tag, self.origin);
        !is_same && number <= number_of(&self.tag, entry.origin)
    }
}

/// Whether an act takes an element out, if it has seen it.
fn takes_out(act: &Act, id: ElementId) -> bool
    ensures { result ≡ takes_out id act.now }
{
    match act {
        Act::Del(other) => *other == id,
        Act::Clear => true,
        Act::Add(_) | Act::Rmv(_) | Act::Write(_) | Act::Enable | Act::Disable => false,
        Act::Inc(_) | Act::Dec(_) | Act::Ins(_, _) => false,
    }
}

/// Whether an entry of an epoch takes an element of its object out.
fn takes(epoch: u32, entry: &Entry, id: ElementId) -> bool
    ensures { result ≡ takes_by epoch entry.now id }
{
    takes_out(entry.update.act(), id) && Head::of(epoch, entry).had_seen(id)
}

/// Whether one of the entries of an object, which the sender of a message had seen, takes an element of it out.
pub(crate) fn was_taken(head: &Head, entries: &[Entry], id: ElementId) -> bool
    ensures { result ≡ list_any (λ e. takes_by head.now.epoch e id && happened_before (message_of e) (head_of head.now)) entries.now }
{
    entries.iter().any(|entry| takes(head.epoch, entry, id) && head.follows(entry))
}
