//! The log.

ghost use Rattle.std.specs.Prelude.{◌≡◌, ℕ, ◌+◌, ◌*◌, ◌^◌, ◌<◌, ◌≤◌, Bool, ◌&&◌, not, List, [], ◌∷◌, ◌++◌, length, map, filter, IfOk, IsTrue, true, Some, None};
ghost use Rattle.std.specs.List.{find};
ghost use Rattle.std.specs.Ordering.{is_le};
ghost use Rattle.op_base.specs.Message.{fits, id_of};
ghost use Rattle.op_base.specs.Order.{object_cmp};
ghost use Rattle.op_base.specs.declared.message.Entry.{Entry};
ghost use Rattle.op_base.specs.declared.name.ObjectId.{ObjectId};
ghost use Rattle.op_base.specs.declared.operation.Op.TheVariants as op;
ghost use Rattle.op_base.specs.declared.operation.Update.{Update};
ghost use Rattle.causal_model.specs.Log.{message_of};
ghost use Rattle.polog.specs.Value.{Log, with_entries, with_entry, with_update, with_stripped, without_covered, without_stable, without_first, is_stable_entry, is_of, stays};
ghost use Rattle.polog.specs.Marks.{Reaches};
ghost use Rattle.polog.specs.Order.{Pairwise};
ghost use Rattle.polog.specs.Standing.{IsLogOf, KeepsPruned, KeepsLogged, KeepsTakenIn, KeepsStripped, KeepsHandingOut, KeepsStripping, AreLoggedOf, TellWhatIsLogged, FailsOnIdle};

use crate::guesses::{Guesses, Stand, slot_of};
use crate::idle::Idle;
use crate::ids::{numbered_ids, without_numbers};
use crate::leaving::Leaving;
use crate::marks::{Stamp, mark_of};
use crate::placing::{free_gone, place};
use crate::reach::Reach;
use crate::rows::Rows;
use crate::search::stand_of;
use crate::sweep::{
    Swept, close, do_all_go, first_stable, keep_unstable, make_room, sort, sweep_object,
};
use causal_model::TypeRule;
use op_base::{Entry, IdList, Message, NoMemory, ObjectId, Op, Tag};
use std::alloc::Global;
use std::marker::Model;
use std::mem::replace;

/// A log with room for `n * w` entries, all of which `create` takes.
#[derive(Debug, Drop)]
pub struct Polog {
    n: u8,
    /// The number that the next entry gets.
    next: u64,
    /// Side by side by object, and within an object in the order of arrival. Of two entries that with the lesser number
    /// arrived first. Behind those of an object there may be free rows for its next ones.
    rows: Rows,
    /// How many of the rows aren't free.
    live: usize,
    /// What was stripped and waits to be handed out, the last to arrive first.
    leaving: Leaving,
    /// Where a search for an object's entries looks first. Others may stand there by now.
    guesses: Guesses,
}

impl Model for Polog {
    ghost use Rattle.std.specs.Prelude.{◌≡◌, ◌≤◌, length, reverse};
    ghost use Rattle.polog.specs.Order.{items_of};
    ghost use Rattle.polog.specs.Rows.{IsLaid, IsSpread, arrived, live_rows};
    ghost use Rattle.polog.specs.Value.{Log};

    ghost Value = { Log };

    ghost view = { λ p. record { n = p.n; room = p.rows.room; pushed = p.next; entries = arrived (live_rows p.rows.rows); stripped = reverse (items_of p.leaving.rows) } };

    ghost invariant = { λ p. (1 ≤ p.n) × (p.n ≤ 16) × IsLaid p.n p.next (live_rows p.rows.rows) × IsSpread p.n p.rows.rows
        × (p.live ≡ length (live_rows p.rows.rows)) × (length p.rows.rows ≤ p.rows.room) × (p.rows.room ≤ p.leaving.room) };
}

impl Polog {
    /// An empty log of a store of `n` members, with room for `n * w` entries, whoever sent them. `NoMemory` leaves nothing
    /// behind.
    pub fn create(alloc: Global, n: u8, w: u8) -> Result<Polog, NoMemory>
        requires some { 1 ≤ n }
        requires few { n ≤ 16 }
        requires open { 1 ≤ w }
        requires narrow { w ≤ 64 }
        ensures empty { IfOk result (λ log. log ≡ record { n = n; room = n * w; pushed = 0; entries = []; stripped = [] }) }
        ensures nothing { IfOk result (λ log. (keeps : Update → Bool) (covers : Update → Update → Bool) (me : ℕ) → IsLogOf keeps covers n me [] log) }
    {
        let room = usize::from(n) * usize::from(w);
        Ok(Polog {
            n,
            next: 0,
            rows: Rows::create(alloc, room)?,
            live: 0,
            leaving: Leaving::create(alloc, room)?,
            guesses: Guesses::none(),
        })
    }

    /// Lets all entries go, those that were stripped too: it is as `create` makes it. It takes no memory.
    pub fn clear(&mut self)
        ensures empty { self.new ≡ record { n = self.old.n; room = self.old.room; pushed = 0; entries = []; stripped = [] } }
        ensures nothing { (keeps : Update → Bool) (covers : Update → Update → Bool) (me : ℕ) → IsLogOf keeps covers self.old.n me [] self.new }
    {
        self.rows.cut(0, self.rows.len());
        self.live = 0;
        self.leaving.clear();
        self.next = 0;
        self.guesses = Guesses::none();
    }

    /// How many entries there are.
    pub fn len(&self) -> usize
        ensures { result ≡ length self.now.entries }
    {
        self.live
    }

    /// For how many entries more there is room.
    pub fn room_left(&self) -> usize
        ensures { result + length self.now.entries ≡ self.now.room }
    {
        self.rows.room() - self.live
    }

    /// How many entries were pushed since the log was created.
    pub fn pushed(&self) -> u64
        ensures { result ≡ self.now.pushed }
    {
        self.next
    }

    /// Takes out the entries that happened before a message and that it covers. It looks at those of the message's object
    /// alone, and takes no memory.
    pub fn prune<T: TypeRule>(&mut self, message: &Message, rule: &T)
        requires fits { IsTrue (fits self.old.n message.now) }
        ensures kept { self.new ≡ with_entries self.old (filter (stays (T.covers rule.now) message.now) self.old.entries) }
        // where it was the log of what a member delivered, it is the same without what the message covers
        ensures pruned { KeepsPruned (T.covers rule.now) message.now self.old self.new }
    {
        self.prune_within(message, rule, Reach::Object);
    }

    /// Prunes as `prune` does, where it is known what the message's operation may reach: where `reach` is `Value`, entries with
    /// another mark are passed over, but where the object has two at most; where it is `Nothing`, none is looked at.
    ///
    /// It stands where it is called, so that a message that reaches nothing costs no call.
    #[inline(always)]
    pub fn prune_within<T: TypeRule>(&mut self, message: &Message, rule: &T, reach: Reach)
        requires fits { IsTrue (fits self.old.n message.now) }
        requires reach { Reaches reach (T.covers rule.now) message.now.op }
        ensures kept { self.new ≡ with_entries self.old (filter (stays (T.covers rule.now) message.now) self.old.entries) }
        ensures pruned { KeepsPruned (T.covers rule.now) message.now self.old self.new }
    {
        if reach == Reach::Nothing {
            return;
        }
        if let Op::Update(update) = &message.op {
            let mark = mark_of(update.act());
            let slot = slot_of(&update.object);
            let swept = sweep_object(
                &mut self.rows,
                self.guesses.at(slot),
                message,
                update,
                rule,
                reach,
                mark,
            );
            let idle = Idle {
                origin: message.origin,
                tag: message.tag,
                object: update.object,
            };
            free_gone(&mut self.rows, swept, idle);
            let Swept { stand, kept } = swept;
            self.live -= stand.end - kept;
            self.guesses.note(
                slot,
                Stand { end: kept, ..stand },
                stand.to,
                self.rows.len(),
            );
        }
    }

    /// Prunes as `prune_within` does, takes the update out of the message, and puts it at the end. Where entries go, it stands in
    /// the place of one of them.
    pub fn take_in<T: TypeRule>(&mut self, message: &mut Message, rule: &T, reach: Reach)
        requires fits { IsTrue (fits self.old.n message.old) }
        requires reach { Reaches reach (T.covers rule.now) message.old.op }
        requires room { length (filter (stays (T.covers rule.now) message.old) self.old.entries) < self.old.room }
        requires numbers { self.old.pushed + 1 < 2 ^ 64 }
        ensures put { self.new ≡ with_update message.old.origin message.old.tag message.old.op (without_covered self.old (T.covers rule.now) message.old) }
        ensures taken { message.new ≡ record { origin = message.old.origin; tag = message.old.tag; op = op.NoOp } }
        // where it was the log of what a member delivered, and the message is kept, the message is in it
        ensures taken_in { KeepsTakenIn (T.covers rule.now) message.old self.old self.new }
    {
        let Op::Update(update) = &message.op else {
            return;
        };
        make_room(&mut self.rows, self.n, self.live);
        let mark = mark_of(update.act());
        let slot = slot_of(&update.object);
        let swept = sweep_object(
            &mut self.rows,
            self.guesses.at(slot),
            message,
            update,
            rule,
            reach,
            mark,
        );
        if let Op::Update(update) = replace(&mut message.op, Op::NoOp) {
            let stamp = Stamp {
                number: self.next,
                mark,
            };
            let entry = Entry {
                origin: message.origin,
                tag: message.tag,
                update,
            };
            let stand = place(&mut self.rows, swept, stamp, entry);
            self.guesses
                .note(slot, stand, swept.stand.to, self.rows.len());
            self.live = self.live - (swept.stand.end - swept.kept) + 1;
            self.next += 1;
        }
    }

    /// Puts an entry at the end. `room_left` tells whether there is room, and `pushed` how many were put in.
    pub fn push(&mut self, entry: Entry)
        requires fits { IsTrue (fits self.old.n (message_of entry)) }
        requires room { length self.old.entries < self.old.room }
        requires numbers { self.old.pushed + 1 < 2 ^ 64 }
        ensures put { self.new ≡ with_entry self.old entry }
        // where the log was pruned for the entry's message, the message is in it
        ensures logged { KeepsLogged entry self.old self.new }
    {
        make_room(&mut self.rows, self.n, self.live);
        let slot = slot_of(&entry.update.object);
        let stand = stand_of(&self.rows, &entry.update.object, self.guesses.at(slot));
        let stamp = Stamp {
            number: self.next,
            mark: mark_of(entry.update.act()),
        };
        let swept = Swept {
            stand,
            kept: stand.end,
        };
        let now = place(&mut self.rows, swept, stamp, entry);
        self.guesses.note(slot, now, stand.to, self.rows.len());
        self.live += 1;
        self.next += 1;
    }

    /// Takes out all entries that are stable where these are the stable counts, in one pass and one move of what stays. They
    /// wait to be handed out by `next_stripped`. Where many go that are of several objects, and none stays, their places stay free for
    /// the next entries of their objects.
    pub fn strip(&mut self, stable: &Tag)
        requires tag { length stable.now ≡ self.old.n }
        requires handed_out { self.old.stripped ≡ [] }
        ensures taken { self.new ≡ without_stable self.old stable.now }
        // where the log had the last message that a member delivered, what is stable with it is taken out
        ensures stripped { KeepsStripped stable.now self.old self.new }
    {
        if self.live >= MANY && self.rows.are_mixed() && do_all_go(&self.rows, stable) {
            self.leaving.take_all(&mut self.rows);
            self.live = 0;
            return;
        }
        let kept = keep_unstable(&mut self.rows, stable);
        self.leaving.take_tail(&mut self.rows, kept);
        self.live = kept;
    }

    /// Hands out the first entry, in history order, of those that were stripped. It is `None` exactly where none is left.
    pub fn next_stripped(&mut self) -> Option<Entry>
        ensures none { self.old.stripped ≡ [] → (result ≡ None) × (self.new ≡ self.old) }
        ensures first { (e : Entry) (rest : List Entry) → self.old.stripped ≡ e ∷ rest → (result ≡ Some e) × (self.new ≡ with_stripped self.old rest) }
        // where k of what is stable with a message were handed out, it is the one after these; where it is `None`, all
        // were, and the log is that of what the member delivered, up to that message
        ensures of { KeepsHandingOut result self.old self.new }
    {
        self.leaving.pop()
    }

    /// Takes out the first entry, in history order, that is stable where these are the stable counts. It is `None` exactly
    /// where none is.
    pub fn strip_one(&mut self, stable: &Tag) -> Option<Entry>
        requires { length stable.now ≡ self.old.n }
        ensures taken { result ≡ find (is_stable_entry stable.now) self.old.entries }
        ensures others { self.new ≡ with_entries self.old (without_first (is_stable_entry stable.now) self.old.entries) }
        // where the log had the last message that a member delivered, and these are the counts with it, it loses nothing
        // else; where the result is `None`, the log is that of what the member delivered, up to that message
        ensures of { KeepsStripping stable.now result self.old self.new }
    {
        close(&mut self.rows, self.n);
        let at = first_stable(&self.rows, stable)?;
        self.live -= 1;
        Some(self.rows.remove(at))
    }

    /// The ids of all entries, in history order. `NoMemory` leaves nothing behind.
    pub fn ids(&self, alloc: Global) -> Result<IdList, NoMemory>
        ensures { IfOk result (λ ids. ids ≡ map (λ e. id_of (message_of e)) self.now.entries) }
    {
        let mut numbered = numbered_ids(&self.rows, alloc)?;
        sort(&mut numbered)?;
        without_numbers(&numbered, alloc)
    }

    /// The entries of an object, in history order.
    pub fn of_object(&self, object: &ObjectId) -> &[Entry]
        ensures entries { result.now ≡ filter (is_of object.now) self.now.entries }
        // of a log of what a member delivered they are those of the object in it
        ensures of { AreLoggedOf object.now self.now result.now }
    {
        let Stand { from, end, .. } = stand_of(
            &self.rows,
            object,
            self.guesses.at(slot_of(object)),
        );
        &self.rows.entries()[from..end]
    }

    /// Every entry once, side by side by object in the order of objects, and those of one object in history order. Behind those of an
    /// object there may be others, which say that it was cleared, or that nothing was added to it: they keep a place for its next
    /// entries. Of an empty log there are none.
    pub fn grouped(&self) -> &[Entry]
        // what passes a test that these fail are the log's entries that pass it
        ensures members { (object : ObjectId) (passes : Entry → Bool) → FailsOnIdle passes → filter (λ e. is_of object e && passes e) result.now ≡ filter (λ e. is_of object e && passes e) self.now.entries }
        // of a log of what a member delivered, such a test finds something among them exactly where it does in that log
        ensures of { TellWhatIsLogged self.now result.now }
        ensures by_object { Pairwise (λ a b. is_le (object_cmp a.update.object b.update.object) ≡ true) result.now }
    {
        if self.live == 0 {
            return &self.rows.entries()[..0];
        }
        self.rows.entries()
    }
}

/// Fewer entries than these leave no free rows where all leave at once: to open places for next ones then moves few rows, and costs less
/// than to pass free ones over.
const MANY: usize = 64;
