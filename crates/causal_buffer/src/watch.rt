//! What is known of early messages that can't be delivered, so that few of them are looked at.

ghost use Rattle.std.specs.Prelude.{◌≡◌, ℕ, ◌<◌, ◌≤◌, true, false, nat_le, length, List};
ghost use Rattle.op_base.specs.Timestamp.{entry};
ghost use Rattle.op_base.specs.Message.{number};
ghost use Rattle.op_base.specs.declared.message.Message.{Message as AMessage};
ghost use Rattle.op_base.specs.declared.tag.TheConstants.{MOST_MEMBERS};
ghost use Rattle.causal_model.specs.Early.{put_early};
ghost use Rattle.causal_buffer.specs.Watch.{IsClosed, IsWatch, KeepsWatch, HasNoneAfter};

use op_base::{MessageId, Tag};

/// Of which members no early message can be delivered, where so many of each member were: of all but some that stand side by
/// side. Each other member's next message waits for one of a member beside it.
#[derive(Debug, Drop)]
pub struct Watch {
    /// How many of each member were delivered.
    pub counts: Tag,
    /// None of the messages that are known to wait does so for fewer of a member.
    pub awaited: Tag,
    /// The first of the members of which nothing is known.
    pub from: u8,
    /// The first member behind these.
    pub end: u8,
}

impl Watch {
    /// Nothing is known of any of so many members.
    pub fn create(n: u8) -> Watch
        requires some { 1 ≤ n }
        requires few { n ≤ MOST_MEMBERS }
        ensures { (early : List AMessage) → IsWatch n result early }
    {
        Watch {
            counts: Tag::zero(n),
            awaited: Tag::zero(n),
            from: 0,
            end: n,
        }
    }

    /// Goes on where so many of each member were delivered. Where these are others than before, nothing is known.
    #[inline(always)]
    pub fn go_on(&mut self, counts: &Tag)
        requires { length self.old.counts ≡ length counts.now }
        ensures counts { self.new.counts ≡ counts.now }
        ensures kept { KeepsWatch self.old self.new }
    {
        if self.counts != *counts {
            self.counts = *counts;
            self.from = 0;
            self.end = counts.members();
        }
    }

    /// Of a member nothing is known any more.
    pub fn open(&mut self, member: u8)
        requires { member < MOST_MEMBERS }
        ensures from { self.new.from ≤ member }
        ensures end { member < self.new.end }
        ensures counts { self.new.counts ≡ self.old.counts }
        ensures awaited { self.new.awaited ≡ self.old.awaited }
        ensures kept { KeepsWatch self.old self.new }
    {
        if self.from < self.end {
            self.from = self.from.min(member);
            self.end = self.end.max(member + 1);
        } else {
            self.from = member;
            self.end = member + 1;
        }
    }

    /// Goes on where the message of a member's number becomes early. Where it is next, nothing is known of the member.
    pub fn keep(&mut self, member: u8, seq: u32)
        requires member { member < length self.old.counts }
        requires few { length self.old.counts ≤ MOST_MEMBERS }
        requires some { 1 ≤ seq }
        ensures { (n : ℕ) (m : AMessage) (early : List AMessage) → IsWatch n self.old early → m.origin ≡ member → number m ≡ seq → IsWatch n self.new (put_early m early) }
    {
        if seq - 1 == self.counts.at(member) {
            self.open(member);
        }
    }

    /// Whether a message that is known to wait may wait for the one of an id.
    pub fn wakes(&self, id: MessageId) -> bool
        requires { id.origin < length self.now.awaited }
        ensures { result ≡ nat_le (entry self.now.awaited id.origin) id.seq }
    {
        self.awaited.at(id.origin) <= id.seq
    }

    /// Before the message of an id is counted. Where one may wait for it nothing is known any more, and of its member nothing
    /// where the one after it is early.
    fn wake(&mut self, id: MessageId, follows: bool)
        requires member { id.origin < length self.old.counts }
        requires few { length self.old.counts ≤ MOST_MEMBERS }
        requires awaited { length self.old.awaited ≡ length self.old.counts }
        ensures counts { self.new.counts ≡ self.old.counts }
        ensures kept { KeepsWatch self.old self.new }
        ensures unawaited { (x : ℕ) → x < length self.old.counts → IsClosed self.new x → id.seq < entry self.new.awaited id.origin }
        ensures unknown { follows ≡ true → IsClosed self.new id.origin → ⊥ }
    {
        if self.wakes(id) {
            self.awaited.set(id.origin, u32::MAX);
            self.from = 0;
            self.end = self.counts.members();
        } else if follows {
            self.open(id.origin);
        }
    }

    /// Goes on where the message of an id is counted. `follows` tells whether the one after it is early.
    pub fn count(&mut self, id: MessageId, follows: bool)
        requires member { id.origin < length self.old.counts }
        requires few { length self.old.counts ≤ MOST_MEMBERS }
        requires awaited { length self.old.awaited ≡ length self.old.counts }
        ensures { (n : ℕ) (early : List AMessage) → IsWatch n self.old early → (follows ≡ false → HasNoneAfter id early) → IsWatch n self.new early }
    {
        self.wake(id, follows);
        self.counts.set(id.origin, id.seq);
    }
}
