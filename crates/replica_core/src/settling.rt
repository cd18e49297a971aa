//! Log, items and lists, when a message has come.

ghost use Rattle.std.specs.Prelude.{◌≡◌, ◌+◌, ◌≤◌, ◌<◌, ◌^◌, ℕ, suc, [], length, slice_get, Some, IsTrue, true, is_some};
ghost use Rattle.op_base.specs.Message.{fits};
ghost use Rattle.op_base.specs.declared.message.Message.{Message as AMessage};
ghost use Rattle.op_base.specs.declared.name.Kind.TheVariants as kinds;
ghost use Rattle.op_base.specs.declared.operation.Op.TheVariants as op;
ghost use Rattle.causal_model.specs.Log.{stripped_of, is_kept, message_of};
ghost use Rattle.causal_model.specs.Covering.{store_keeps, store_covers};
ghost use Rattle.causal_model.specs.History.{History, with_message, is_history, epoch_of};
ghost use Rattle.causal_model.specs.ListSteps.{pruned};
ghost use Rattle.list_type.specs.Listed.{AreListsOf, AreListsMoved, AreWithin};
ghost use Rattle.list_type.specs.Shown.{shown as lists_shown};
ghost use Rattle.polog.specs.Standing.{IsLogOf, IsLogged};
ghost use Rattle.polog.specs.Value.{with_stripped, without_covered};
ghost use Rattle.stable_state.specs.Laws.{HasRange};
ghost use Rattle.stable_state.specs.Standing.{AreSettledOf, AreAbsorbed, AreMoved};
ghost use Rattle.stable_state.specs.Shown.{shown};
ghost use Rattle.replica_core.specs.Insertions.{is_insertion, element_room, entry_put, CanBePut};
ghost use Rattle.replica_core.specs.Settling.{AreOf, AreReady, AreReadyForSome, AreLogged, AreLoggedForSome, AreWaiting, AreWaitingForSome, with_logged, applied_of, room_of, CanBeApplied};

use crate::reach::reach_of;
use causal_model::TypeRule;
use list_type::Lists;
use op_base::{Act, Entry, Kind, Message, MessageId, Op, Tag, Update};
use polog::Polog;
use stable_state::Items;
use std::mem::replace;
use type_rules::StoreRule;

/// Takes out of log and items what a message covers, puts the message into the log where its kind keeps it, and its element
/// into a list where it has one, and moves what is stable now from the log into items and lists. Then the items' marks are
/// settled. `stable` has the stable counts with the message; where they haven't moved, they are those without it too. The operation is
/// taken out of the message where it is logged, put into a list or applied.
pub fn settle(
    log: &mut Polog,
    items: &mut Items,
    lists: &mut Lists,
    epoch: u32,
    message: &mut Message,
    moved: bool,
    stable: &Tag,
)
    requires ready { ∥ AreReadyForSome log.old (shown items.old) (lists_shown lists.old) epoch message.old moved stable.now ∥₁ }
    requires spare { length log.old.entries + 1 ≤ (shown items.old).spare }
    requires lists_spare { element_room message.old.op ≤ (lists_shown lists.old).spare }
    requires deep { AreWithin (2 ^ 63) (lists_shown lists.old) }
    ensures are_of { (w limit : ℕ) (h : History) → AreReady w limit h log.old (shown items.old) (lists_shown lists.old) epoch message.old moved stable.now
        → AreOf (with_message h message.old) log.new (shown items.new) (lists_shown lists.new) }
    ensures room { log.new.room ≡ log.old.room }
    // the room for items falls by no more than the log does, and one for the message
    ensures spare { (shown items.old).spare + length log.new.entries ≤ (shown items.new).spare + (length log.old.entries + 1) }
    ensures lists_spare { (lists_shown lists.old).spare ≤ (lists_shown lists.new).spare + element_room message.old.op }
    ensures deep { (most : ℕ) → AreWithin most (lists_shown lists.old) → AreWithin (most + 1) (lists_shown lists.new) }
{
    cover(items, &message.op);
    let id = message.id();
    note(log, lists, epoch, message);
    move_stable(log, items, lists, epoch, id, moved, stable);
    apply(items, message);
    items.settle_marks(log.grouped());
}

/// Lets what an operation covers of the items go.
fn cover(items: &mut Items, op: &Op)
    ensures of { (h : History) (m : AMessage) → m.op ≡ op.now → AreSettledOf h (shown items.old) → AreAbsorbed h m 0 (shown items.new) }
    ensures spare { (shown items.old).spare ≤ (shown items.new).spare }
{
    if let Op::Update(update) = op {
        items.cover(update);
    }
}

/// Whether an operation puts an element into a list.
pub(crate) fn is_insertion(op: &Op) -> bool
    ensures { result ≡ is_insertion op.now }
{
    match op {
        Op::NoOp => false,
        Op::Update(update) => matches!(update.act(), Act::Ins(_, _)),
    }
}

/// Takes out of the log what a message covers, and puts the message where its kind keeps it: into the log, until it is stable, or
/// its element into a list. Its operation is taken out of it there. That of a counter that can't be cleared is kept in neither,
/// and stays in the message.
fn note(log: &mut Polog, lists: &mut Lists, epoch: u32, message: &mut Message)
    requires fits { IsTrue (fits log.old.n message.old) }
    requires room { IsTrue (is_kept store_keeps message.old.op) → length (without_covered log.old store_covers message.old).entries < log.old.room }
    requires numbers { log.old.pushed + 1 < 2 ^ 64 }
    requires can { CanBePut epoch (entry_put message.old.origin message.old.tag message.old.op) (lists_shown lists.old) }
    ensures log { log.new ≡ with_logged message.old.origin message.old.tag message.old.op (without_covered log.old store_covers message.old) }
    ensures room { log.new.room ≡ log.old.room }
    ensures applied { applied_of message.new.op ≡ applied_of message.old.op }
    ensures of { (w : ℕ) (h : History) → IsTrue (is_history w (with_message h message.old)) → epoch ≡ epoch_of h
        → IsLogged store_keeps store_covers h.present.n h.present.me h.present.messages message.old log.new
        → AreListsOf h (lists_shown lists.old) → AreListsMoved h message.old 0 (lists_shown lists.new) }
    ensures spare { (lists_shown lists.old).spare ≤ (lists_shown lists.new).spare + element_room message.old.op }
    ensures deep { (most : ℕ) → AreWithin most (lists_shown lists.old) → AreWithin (most + 1) (lists_shown lists.new) }
{
    let reach = reach_of(&message.op);
    if is_insertion(&message.op) {
        log.prune_within(message, &StoreRule, reach);
        insert(lists, epoch, message, log);
    } else if is_logged(&message.op) {
        log.take_in(message, &StoreRule, reach);
    } else {
        log.prune_within(message, &StoreRule, reach);
    }
}

/// Whether an operation's kind keeps it in the log.
fn is_logged(op: &Op) -> bool
    ensures { result ≡ is_kept store_keeps op.now }
{
    match op {
        Op::NoOp => false,
        Op::Update(update) => StoreRule.keeps(update),
    }
}

/// Puts the element of an insertion into its list, and takes it out of the message. The log has what it had before the message.
///
/// A function of its own, so that other messages don't pay for its entry's place.
#[inline(never)]
fn insert(lists: &mut Lists, epoch: u32, message: &mut Message, log: &Polog)
    requires insertion { is_insertion message.old.op ≡ true }
    requires can { CanBePut epoch (entry_put message.old.origin message.old.tag message.old.op) (lists_shown lists.old) }
    ensures taken { message.new.op ≡ op.NoOp }
    ensures of { (w : ℕ) (h : History) → IsTrue (is_history w (with_message h message.old)) → epoch ≡ epoch_of h
        → IsLogged store_keeps store_covers h.present.n h.present.me h.present.messages message.old log.now
        → AreListsOf h (lists_shown lists.old) → AreListsMoved h message.old 0 (lists_shown lists.new) }
    ensures spare { (lists_shown lists.old).spare ≤ (lists_shown lists.new).spare + 1 }
    ensures deep { (most : ℕ) → AreWithin most (lists_shown lists.old) → AreWithin (most + 1) (lists_shown lists.new) }
{
    if let Op::Update(update) = replace(&mut message.op, Op::NoOp) {
        let entry = Entry {
            origin: message.origin,
            tag: message.tag,
            update,
        };
        let entries = log.of_object(entry.update.object());
        lists.insert(epoch, entry, entries);
    }
}

/// Moves what is stable from the log into items and lists. Where the stable counts haven't moved with the log's last message, and this
/// isn't stable, no entry is, and none is looked at.
fn move_stable(
    log: &mut Polog,
    items: &mut Items,
    lists: &mut Lists,
    epoch: u32,
    id: MessageId,
    moved: bool,
    stable: &Tag,
)
    requires logged { ∥ AreLoggedForSome log.old (shown items.old) (lists_shown lists.old) epoch id moved stable.now ∥₁ }
    requires spare { length log.old.entries ≤ (shown items.old).spare }
    ensures absorbed { (w limit : ℕ) (h : History) (m : AMessage) → AreLogged w limit h m log.old (shown items.old) (lists_shown lists.old) epoch id moved stable.now
        → AreAbsorbed h m (length (stripped_of h m)) (shown items.new) }
    ensures moved { (w limit : ℕ) (h : History) (m : AMessage) → AreLogged w limit h m log.old (shown items.old) (lists_shown lists.old) epoch id moved stable.now
        → AreListsMoved h m (length (stripped_of h m)) (lists_shown lists.new) }
    ensures log { (w limit : ℕ) (h : History) (m : AMessage) → AreLogged w limit h m log.old (shown items.old) (lists_shown lists.old) epoch id moved stable.now
        → IsLogOf store_keeps store_covers h.present.n h.present.me (with_message h m).present.messages log.new }
    ensures room { log.new.room ≡ log.old.room }
    ensures spare { (shown items.old).spare + length log.new.entries ≤ (shown items.new).spare + length log.old.entries }
    ensures lists_spare { (lists_shown lists.old).spare ≤ (lists_shown lists.new).spare }
    ensures deep { (most : ℕ) → AreWithin most (lists_shown lists.old) → AreWithin most (lists_shown lists.new) }
{
    if !moved && !stable.covers_id(id) {
        return;
    }
    log.strip(stable);
    absorb_stripped(log, items, lists, epoch);
}

/// Moves what was stripped from the log into items and lists.
fn absorb_stripped(log: &mut Polog, items: &mut Items, lists: &mut Lists, epoch: u32)
    requires waiting { ∥ AreWaitingForSome log.old (shown items.old) (lists_shown lists.old) epoch ∥₁ }
    requires spare { length log.old.stripped ≤ (shown items.old).spare }
    ensures absorbed { (w limit : ℕ) (h : History) (m : AMessage) → AreWaiting w limit h m 0 log.old (shown items.old) (lists_shown lists.old) epoch
        → AreAbsorbed h m (length (stripped_of h m)) (shown items.new) }
    ensures moved { (w limit : ℕ) (h : History) (m : AMessage) → AreWaiting w limit h m 0 log.old (shown items.old) (lists_shown lists.old) epoch
        → AreListsMoved h m (length (stripped_of h m)) (lists_shown lists.new) }
    ensures log { (w limit : ℕ) (h : History) (m : AMessage) → AreWaiting w limit h m 0 log.old (shown items.old) (lists_shown lists.old) epoch
        → IsLogOf store_keeps store_covers h.present.n h.present.me (with_message h m).present.messages log.new }
    ensures others { log.new ≡ with_stripped log.old [] }
    ensures spare { (shown items.old).spare ≤ (shown items.new).spare + length log.old.stripped }
    ensures lists_spare { (lists_shown lists.old).spare ≤ (lists_shown lists.new).spare }
    ensures deep { (most : ℕ) → AreWithin most (lists_shown lists.old) → AreWithin most (lists_shown lists.new) }
{
    while let Some(entry) = log.next_stripped() {
        absorb(items, lists, epoch, entry);
    }
}

/// Moves an entry that goes from the log into the lists, where it is of one, and into the items. One of a list makes no item.
fn absorb(items: &mut Items, lists: &mut Lists, epoch: u32, entry: Entry)
    requires spare { 1 ≤ (shown items.old).spare }
    requires range { HasRange (shown items.old) entry.update }
    requires pruned { entry.update.object.kind ≡ kinds.List → pruned ((lists_shown lists.old).kept entry.update.object) ≡ (lists_shown lists.old).kept entry.update.object }
    ensures items { (h : History) (m : AMessage) (k : ℕ) → slice_get (stripped_of h m) k ≡ Some (message_of entry)
        → AreAbsorbed h m k (shown items.old) → AreAbsorbed h m (k + 1) (shown items.new) }
    ensures lists { (w : ℕ) (h : History) (m : AMessage) (k : ℕ) → IsTrue (is_history w (with_message h m)) → epoch ≡ epoch_of h → slice_get (stripped_of h m) k ≡ Some (message_of entry)
        → AreListsMoved h m k (lists_shown lists.old) → AreListsMoved h m (suc k) (lists_shown lists.new) }
    ensures spare { (shown items.old).spare ≤ (shown items.new).spare + 1 }
    ensures lists_spare { (lists_shown lists.old).spare ≤ (lists_shown lists.new).spare }
    ensures deep { (most : ℕ) → AreWithin most (lists_shown lists.old) → AreWithin most (lists_shown lists.new) }
{
    if entry.update.object().kind == Kind::List {
        lists.settle(epoch, &entry);
    }
    items.absorb(entry);
}

/// Applies an update of a counter that can't be cleared, where a message has one, and takes it out of the message.
fn apply(items: &mut Items, message: &mut Message)
    requires { CanBeApplied (applied_of message.old.op) (shown items.old) }
    ensures of { (h : History) (m : AMessage) → applied_of message.old.op ≡ applied_of m.op
        → AreAbsorbed h m (length (stripped_of h m)) (shown items.old) → AreMoved h m (shown items.new) }
    ensures spare { (shown items.old).spare ≤ (shown items.new).spare + room_of (applied_of message.old.op) }
{
    if is_applied(&message.op) {
        apply_update(items, message);
    }
}

/// Applies the update of a counter that can't be cleared, which a message has, and takes it out of the message.
fn apply_update(items: &mut Items, message: &mut Message)
    requires applied { is_some (applied_of message.old.op) ≡ true }
    requires can { CanBeApplied (applied_of message.old.op) (shown items.old) }
    ensures of { (h : History) (m : AMessage) → applied_of message.old.op ≡ applied_of m.op
        → AreAbsorbed h m (length (stripped_of h m)) (shown items.old) → AreMoved h m (shown items.new) }
    ensures spare { (shown items.old).spare ≤ (shown items.new).spare + room_of (applied_of message.old.op) }
{
    if let Op::Update(update) = replace(&mut message.op, Op::NoOp) {
        items.apply(update);
    }
}

/// Whether an operation is the update of a counter that can't be cleared.
fn is_applied(op: &Op) -> bool
    ensures { result ≡ is_some (applied_of op.now) }
{
    match op {
        Op::NoOp => false,
        Op::Update(update) => update.object().kind == Kind::Counter,
    }
}
