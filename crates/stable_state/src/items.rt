//! Settled items, and the steps that move one message more into them.
//!
//! That a message first covers what is settled, and that stable entries of the log are then absorbed without their
//! timestamps, is the idea of Baquero, Almeida and Shoker (arXiv 1710.04469); the cells are this project's own profile.

ghost use Rattle.std.specs.Prelude.{◌≡◌, ◌↔◌, ℕ, ◌+◌, ◌^◌, ◌<◌, ◌≤◌, true, false, [], List, length, map, filter, if◌then◌else◌, Option, Some, None, IsTrue, IfOk, OnOk, IsOk, IfSome, HoldsAt, slice_get, option_copied, is_some, MatchOption};
ghost use Rattle.std.specs.List.{between, list_any};
ghost use Rattle.op_base.specs.Object.{same_object};
ghost use Rattle.op_base.specs.declared.message.Message.{Message};
ghost use Rattle.op_base.specs.declared.name.ObjectId.{ObjectId};
ghost use Rattle.op_base.specs.declared.operation.Op.TheVariants as op;
ghost use Rattle.causal_model.specs.Acts.{acts_on, value_of};
ghost use Rattle.causal_model.specs.CellSteps.{covers_place, cell_uncovered, cell_with, cell_settled, puts_in, is_put_in};
ghost use Rattle.causal_model.specs.Log.{log_of, stripped_of, message_of};
ghost use Rattle.causal_model.specs.History.{History, no_history, with_message, is_history};
ghost use Rattle.causal_model.specs.Items.{cell_in, is_filled, Rise};
ghost use Rattle.stable_state.specs.Filled.{filled_of};
ghost use Rattle.stable_state.specs.Laws.{HasRange};
ghost use Rattle.stable_state.specs.Picked.{ArePicked, is_set, is_place, replaced};
ghost use Rattle.stable_state.specs.Places.{IsSpan};
ghost use Rattle.stable_state.specs.Ranks.{rank_of, IsNamed};
ghost use Rattle.stable_state.specs.Settling.{put_in_by, remove_wins, can_lose_mark, waits, IsSettledAt, AreSettled};
ghost use Rattle.stable_state.specs.Shelf.{put_at};
ghost use Rattle.stable_state.specs.Standing.{AreSettledOf, AreAbsorbed, AreMoved};
ghost use Rattle.stable_state.specs.Touched.{is_touched, IsMarkTouched, StayTouched, KeepTouched};

use crate::cell::{
    NO_CELL, comes_back, into_value, is_filled, is_in_range, puts_in, value_of, with_act,
    without_pending,
};
use crate::chunks::Spot;
use crate::shelf::{Gap, Shelf};
use crate::view::ItemSpan;
use causal_model::ItemView;
use op_base::{Act, Cell, Entry, Item, Kind, NoMemory, ObjectId, Update, Value};
use std::alloc::Global;

/// Settled items: a finite map from an object, and a value or none, to a cell, in the one order of items. An item with neither a
/// mark nor a sum is as none: it keeps the place of one that is to come back. `reserve` and `copy` alone take memory.
#[derive(Drop)]
pub struct Items {
    shelf: Shelf,
    ghost rise: { Rise shelf.items },
}

impl Items {
    ghost use Rattle.stable_state.specs.Shown.{shown, spanned};

    /// No items, and no room. It takes no memory.
    pub fn new(alloc: Global) -> Items
        ensures none { shown result ≡ record { items = []; slots = []; touched = []; spare = 0 } }
        ensures settled { (n me : ℕ) → AreSettledOf (no_history n me) (shown result) }
    {
        Items {
            shelf: Shelf::new(alloc),
        }
    }

    /// Takes room for `k` items more. `NoMemory` leaves the items, and no less room.
    pub fn reserve(&mut self, k: usize) -> Result<(), NoMemory>
        ensures room { OnOk result (k ≤ (shown self.new).spare) }
        ensures had_room { k ≤ (shown self.old).spare → IsOk result }
        ensures items { (shown self.new).items ≡ (shown self.old).items }
        ensures touched { (shown self.new).touched ≡ (shown self.old).touched }
        ensures spare { (shown self.old).spare ≤ (shown self.new).spare }
    {
        self.shelf.reserve(k)
    }

    /// How many entries or updates more can be put in without memory.
    pub fn spare(&self) -> usize
        ensures { result ≡ (shown self.now).spare }
    {
        self.shelf.spare()
    }

    /// Whether an update can be put in: the sum that it gives is one of 128 bits, but not the least.
    pub fn has_range(&self, update: &Update) -> bool
        ensures { (result ≡ true) ↔ HasRange (shown self.now) update.now }
    {
        let cell = self.cell(&update.object, value_of(&update.act));
        is_in_range(&update.act, cell)
    }

    /// Lets exactly what an update covers go. Where the update will put it in again, its item stays without marks. It takes no
    /// memory, and changes no other object's items.
    pub fn cover(&mut self, update: &Update)
        ensures cells { (object : ObjectId) (value : Option (List ℕ)) → cell_in (shown self.new).items object value
            ≡ cell_uncovered object value (op.Update update.now) (cell_in (shown self.old).items object value) }
        // where the items were a history's settled ones, they are those without what a message covers
        ensures of { (h : History) (m : Message) → m.op ≡ op.Update update.now
            → AreSettledOf h (shown self.old) → AreAbsorbed h m 0 (shown self.new) }
        ensures touched { StayTouched (shown self.old) (shown self.new) }
        ensures spare { (shown self.old).spare ≤ (shown self.new).spare }
    {
        if comes_back(update) {
            self.shelf.empty(&update.object, value_of(&update.act));
        } else if let Some((from, to)) = self.covered_span(update) {
            self.shelf.remove_span(from, to);
        }
    }

    /// The places of the items that an update covers. `None` if it covers none, whatever items there are.
    fn covered_span(&self, update: &Update) -> Option<(Spot, usize)>
        ensures { MatchOption result (ArePicked (covers_place (op.Update update.now)) (shown self.now).items 0 0)
            (λ span. ArePicked (covers_place (op.Update update.now)) (shown self.now).items span.0.place span.1) }
    {
        match (update.object.kind, value_of(&update.act)) {
            (kind, Some(value)) if is_set(kind) => {
                Some(self.place_span(&update.object, Some(value)))
            }
            (Kind::Counter | Kind::List, _) => None,
            (Kind::RCounter, _) if !matches!(update.act, Act::Clear) => None,
            _ => Some(self.object_span(self.shelf.hint_to_go(), &update.object)),
        }
    }

    /// The place of the item of an object and a value, as the span of one item or of none.
    fn place_span(&self, object: &ObjectId, value: Option<&Value>) -> (Spot, usize)
        ensures { ArePicked (is_place object.now (option_copied value.entry)) (shown self.now).items result.0.place result.1 }
    {
        match self.shelf.find(self.shelf.hint_to_go(), object, value) {
            Ok(spot) => (spot, spot.place + 1),
            Err(gap) => (gap.spot, gap.spot.place),
        }
    }

    /// The places of an object's items: where the first is, and the one behind the last. A spot is looked at first, if one is
    /// given.
    fn object_span(&self, near: Option<Spot>, object: &ObjectId) -> (Spot, usize)
        ensures picked { ArePicked (λ other value. same_object object.now other) (shown self.now).items result.0.place result.1 }
        ensures span { IsSpan object.now (shown self.now).items result.0.place result.1 }
    {
        self.shelf.span(near, object)
    }

    /// How many items have a mark or a sum.
    pub fn filled_len(&self) -> usize
        ensures { result ≡ length (filled_of (shown self.now).items) }
    {
        self.shelf.filled_len()
    }

    /// The places of an object's items: the first, and the one behind the last.
    pub fn span(&self, object: &ObjectId) -> (usize, usize)
        ensures picked { ArePicked (λ other value. same_object object.now other) (shown self.now).items result.0 result.1 }
        ensures span { IsSpan object.now (shown self.now).items result.0 result.1 }
    {
        let (from, to) = self.object_span(None, object);
        (from.place, to)
    }

    /// An object's items. They have its cells.
    pub fn of_object(&self, object: &ObjectId) -> ItemSpan<'_>
        ensures items { spanned result
            ≡ filter (λ item. same_object object.now item.object) (shown self.now).items }
        ensures cells { (value : Option (List ℕ))
            → cell_in (spanned result) object.now value
            ≡ cell_in (shown self.now).items object.now value }
    {
        let (from, to) = self.span(object);
        ItemSpan::new(&self.shelf, from, to)
    }

    /// Equal items, none of them touched. `NoMemory` leaves nothing behind.
    pub fn copy(&self, alloc: Global) -> Result<Items, NoMemory>
        ensures items { IfOk result (λ copy. (shown copy).items ≡ (shown self.now).items) }
        ensures untouched { IfOk result (λ copy. (shown copy).touched ≡ []) }
    {
        let shelf = self.shelf.copy(alloc)?;
        Ok(Items { shelf })
    }

    /// Absorbs an entry that goes from the log: its mark is set, or its amount added. Where the cell has an off mark then, it
    /// is touched. It takes no memory: `spare` tells whether there is room, and `has_range` whether the sum fits.
    pub fn absorb(&mut self, entry: Entry)
        requires spare { 1 ≤ (shown self.old).spare }
        requires range { HasRange (shown self.old) entry.update }
        ensures cells { (object : ObjectId) (value : Option (List ℕ)) → cell_in (shown self.new).items object value
            ≡ cell_with object value (cell_in (shown self.old).items object value) (op.Update entry.update) }
        // where it is the next of the entries that go from a history's log, the items have one entry more
        ensures of { (h : History) (m : Message) (k : ℕ) → slice_get (stripped_of h m) k ≡ Some (message_of entry)
            → AreAbsorbed h m k (shown self.old) → AreAbsorbed h m (k + 1) (shown self.new) }
        ensures touched { StayTouched (shown self.old) (shown self.new) }
        ensures marked { IsMarkTouched (shown self.new) entry.update.object (value_of entry.update.act) }
        ensures spare { (shown self.old).spare ≤ (shown self.new).spare + 1 }
    {
        self.change(entry.update);
    }

    /// Applies an update of a counter that can't be cleared, which no log keeps. It takes no memory: `spare` tells whether
    /// there is room, and `has_range` whether the sum fits.
    pub fn apply(&mut self, update: Update)
        requires counter { update.object.kind ≡ Kind.Counter }
        requires spare { 1 ≤ (shown self.old).spare }
        requires range { HasRange (shown self.old) update }
        ensures cells { (object : ObjectId) (value : Option (List ℕ)) → cell_in (shown self.new).items object value
            ≡ cell_with object value (cell_in (shown self.old).items object value) (op.Update update) }
        // where it is a message's and all entries are absorbed, the items are moved
        ensures of { (h : History) (m : Message) → m.op ≡ op.Update update
            → AreAbsorbed h m (length (stripped_of h m)) (shown self.old) → AreMoved h m (shown self.new) }
        ensures touched { StayTouched (shown self.old) (shown self.new) }
        ensures spare { (shown self.old).spare ≤ (shown self.new).spare + 1 }
    {
        self.change(update);
    }

    /// Sets the mark of an update, or adds its amount.
    fn change(&mut self, update: Update)
        requires spare { 1 ≤ (shown self.old).spare }
        requires range { HasRange (shown self.old) update }
        ensures cells { (object : ObjectId) (value : Option (List ℕ)) → cell_in (shown self.new).items object value
            ≡ cell_with object value (cell_in (shown self.old).items object value) (op.Update update) }
        ensures touched { StayTouched (shown self.old) (shown self.new) }
        ensures marked { IsMarkTouched (shown self.new) update.object (value_of update.act) }
        ensures spare { (shown self.old).spare ≤ (shown self.new).spare + 1 }
    {
        if self.shelf.change_found(&update) {
            return;
        }
        match self.shelf.find(
            self.shelf.hint_to_come(),
            &update.object,
            value_of(&update.act),
        ) {
            Ok(spot) => {
                let cell = with_act(&update.act, self.shelf.at_near(spot).cell);
                self.replace(spot, cell);
            }
            Err(gap) => {
                let cell = with_act(&update.act, NO_CELL);
                let Update { object, act } = update;
                let value = into_value(act);
                self.put(
                    gap,
                    Item {
                        object,
                        value,
                        cell,
                    },
                );
            }
        }
    }

    /// Gives the item at a spot's place another cell, or lets the item go where the cell has no mark and no sum.
    fn replace(&mut self, spot: Spot, cell: Cell)
        requires within { spot.place < length (shown self.old).items }
        requires few { length (shown self.old).items < 2 ^ 64 }
        requires spare { IsTrue cell.off → 1 ≤ (shown self.old).spare }
        ensures items { (shown self.new).items ≡ replaced spot.place cell (shown self.old).items }
        ensures stay { StayTouched (shown self.old) (shown self.new) }
        ensures marked { cell.off ≡ true → HoldsAt (λ item. is_touched (shown self.new).touched item.object item.value ≡ true) (shown self.old).items spot.place }
        ensures unmarked { cell.off ≡ false → KeepTouched (shown self.old) (shown self.new) }
        ensures spare { (shown self.old).spare ≤ (shown self.new).spare + 1 }
        ensures kept { cell.off ≡ false → (shown self.old).spare ≤ (shown self.new).spare }
    {
        if is_filled(&cell) {
            self.shelf.set_cell(spot, cell);
        } else {
            self.shelf.remove_span(spot, spot.place + 1);
        }
    }

    /// Puts an item into its gap, where its cell has a mark or a sum.
    fn put(&mut self, gap: Gap, item: Item)
        requires spare { 1 ≤ (shown self.old).spare }
        requires within { gap.spot.place ≤ length (shown self.old).items }
        requires rise { Rise (put_at gap.spot.place item (shown self.old).items) }
        requires rank { gap.rank ≡ rank_of item.object item.value }
        requires named { IsNamed item.object item.value }
        ensures items { (shown self.new).items
            ≡ (if is_filled item.cell then put_at gap.spot.place item (shown self.old).items else (shown self.old).items) }
        ensures stay { StayTouched (shown self.old) (shown self.new) }
        ensures marked { item.cell.off ≡ true → is_touched (shown self.new).touched item.object item.value ≡ true }
        ensures spare { (shown self.old).spare ≤ (shown self.new).spare + 1 }
    {
        if is_filled(&item.cell) {
            self.shelf.insert(gap, item);
        }
    }

    /// Settles the marks of the kinds in which a remove wins, by the log's entries: an off mark stays while an add is
    /// pending, and otherwise goes with the on mark. It takes no memory, and looks at what was touched alone: an off mark of
    /// any other item was looked at before, and waits still.
    pub fn settle_marks(&mut self, entries: &[Entry])
        ensures cells { (object : ObjectId) (value : Option (List ℕ)) → cell_in (shown self.new).items object value
            ≡ (if is_touched (shown self.old).touched object value
            then cell_settled object.kind (is_put_in (map message_of entries.now) object value)
            (cell_in (shown self.old).items object value)
            else cell_in (shown self.old).items object value) }
        // where the entries put in what a history's log does, the moved items are the settled ones of the history
        ensures of { (w : ℕ) (h : History) (m : Message) → IsTrue (is_history w (with_message h m))
            → ((object : ObjectId) (value : Option (List ℕ)) → is_put_in (map message_of entries.now) object value
            ≡ is_put_in (log_of (with_message h m)) object value)
            → AreMoved h m (shown self.old) → AreSettledOf (with_message h m) (shown self.new) }
        ensures touched { (shown self.new).touched ≡ [] }
        ensures spare { (shown self.old).spare ≤ (shown self.new).spare }
    {
        let mut near = entries.len();
        for _left in (0..self.shelf.touched_len()).rev() {
            near = self.settle_last(entries, near);
        }
    }

    /// Settles the marks of the item that was touched last. It is touched no more by that. Entries ahead of a place are
    /// looked at first, and it tells the place of one that it found: what was touched in turn was often logged in turn.
    fn settle_last(&mut self, entries: &[Entry], near: usize) -> usize
        requires some { 0 < length (shown self.old).touched }
        requires near { near ≤ length entries.now }
        ensures near { result ≤ length entries.now }
        ensures count { length (shown self.new).touched + 1 ≡ length (shown self.old).touched }
        ensures settled { AreSettled (put_in_by entries.now) (shown self.old) (shown self.new) }
        ensures spare { (shown self.old).spare ≤ (shown self.new).spare }
    {
        match self.shelf.take_touched() {
            Some(place) => self.settle_at(place, entries, near),
            None => near,
        }
    }

    /// Settles the marks of the item at a place.
    fn settle_at(&mut self, place: usize, entries: &[Entry], near: usize) -> usize
        requires within { place < length (shown self.old).items }
        requires few { length (shown self.old).items < 2 ^ 64 }
        requires near { near ≤ length entries.now }
        ensures near { result ≤ length entries.now }
        ensures cells { IsSettledAt (put_in_by entries.now) place (shown self.old).items (shown self.new).items }
        ensures touched { KeepTouched (shown self.old) (shown self.new) }
        ensures spare { (shown self.old).spare ≤ (shown self.new).spare }
    {
        let spot = self.shelf.spot_at(place);
        let item = self.shelf.at_near(spot);
        let (waits, found) = does_wait(item, entries, near);
        if !waits {
            let cell = without_pending(item.cell);
            self.replace(spot, cell);
        }
        found
    }
}

impl ItemView for Items {
    ghost items = { λ all. all.shelf.items };

    fn cell(&self, object: &ObjectId, value: Option<&Value>) -> Cell {
        match self.shelf.find(self.shelf.hint_to_come(), object, value) {
            Ok(spot) => self.shelf.at_near(spot).cell,
            Err(_) => NO_CELL,
        }
    }

    fn len(&self) -> usize {
        self.shelf.len()
    }

    fn item_at(&self, place: usize) -> (&ObjectId, Option<&Value>, Cell) {
        let item = self.shelf.at(place);
        (&item.object, item.value.as_ref(), item.cell)
    }

    ghost rise = { λ all. all.rise };
}

/// Whether a kind is a set's, in which a value that is added or removed is covered alone.
fn is_set(kind: Kind) -> bool
    ensures { result ≡ is_set kind }
{
    matches!(kind, Kind::AwSet | Kind::RwSet)
}

/// Whether a remove wins in a kind.
fn remove_wins(kind: Kind) -> bool
    ensures { result ≡ remove_wins kind }
{
    matches!(kind, Kind::RwSet | Kind::DwFlag)
}

/// Whether an item has an off mark, in a kind in which a remove wins.
fn can_lose_mark(item: &Item) -> bool
    ensures { result ≡ can_lose_mark item.now }
{
    item.cell.off && remove_wins(item.object.kind)
}

/// Whether an item's marks stay: it can't lose its off mark, or an add is pending. Entries ahead of a place are looked at
/// first, and the place of the add is told, or this one again.
fn does_wait(item: &Item, entries: &[Entry], near: usize) -> (bool, usize)
    requires { near ≤ length entries.now }
    ensures waits { result.0 ≡ waits (put_in_by entries.now) item.now }
    ensures near { result.1 ≤ length entries.now }
{
    if !can_lose_mark(item) {
        return (true, near);
    }
    match put_in_near(&item.object, item.value.as_ref(), entries, near) {
        Some(found) => (true, found),
        None => (false, near),
    }
}

/// The place of an entry that puts in what an object's value says, or turns the object on: the last one ahead of a place, or
/// the last.
fn put_in_near(
    object: &ObjectId,
    value: Option<&Value>,
    entries: &[Entry],
    near: usize,
) -> Option<usize>
    requires { near ≤ length entries.now }
    ensures some { is_some result
        ≡ list_any (λ e. acts_on object.now (puts_in (option_copied value.entry)) (message_of e).op) entries.now }
    ensures within { IfSome result (λ place. place < length entries.now) }
{
    match put_in_last(object, value, &entries[..near]) {
        Some(place) => Some(place),
        None => match put_in_last(object, value, &entries[near..]) {
            Some(place) => Some(near + place),
            None => None,
        },
    }
}

/// The place of the last entry that puts in what an object's value says, or turns the object on.
fn put_in_last(object: &ObjectId, value: Option<&Value>, entries: &[Entry]) -> Option<usize>
    ensures some { is_some result
        ≡ list_any (λ e. acts_on object.now (puts_in (option_copied value.entry)) (message_of e).op) entries.now }
    ensures within { IfSome result (λ place. place < length entries.now) }
{
    for place in (0..entries.len()).rev() {
        if does_put_in(object, value, &entries[place]) {
            return Some(place);
        }
    }
    None
}

/// Whether an entry puts in what an object's value says, or turns the object on.
fn does_put_in(object: &ObjectId, value: Option<&Value>, entry: &Entry) -> bool
    ensures { result ≡ acts_on object.now (puts_in (option_copied value.entry)) (message_of entry.now).op }
{
    puts_in(value, &entry.update.act) && entry.update.object.is_same(object)
}
