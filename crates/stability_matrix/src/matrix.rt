//! A matrix of timestamps: what a replica knows that each member has.

ghost use Rattle.std.specs.Prelude.{◌≡◌, ◌≢◌, ◌↔◌, ℕ, ◌<◌, ◌≤◌, false, List, [], length, slice_set, replicate, is_some, option_copied, unwrap_or, IfSome, IsTrue};
ghost use Rattle.op_base.specs.Message.{id_of};
ghost use Rattle.op_base.specs.Timestamp.{zero_tag, covers};
ghost use Rattle.op_base.specs.declared.message.Message.{Message};
ghost use Rattle.causal_model.specs.Stability.{known_vector, stable_vector, is_stable};

use crate::columns::{least_stays, least_with, note_in, set_row};
use op_base::{MOST_MEMBERS, MessageId, Tag};
use std::marker::Model;

/// What member `me` of a store knows that each member has: a row for each. Contracts see `me` and the rows.
///
/// The least of each column is kept. A message of another member may move all of them, so all are computed together then,
/// row by row; where no entry that it moves was or becomes a least, all stay. The next own one moves the
/// column of the own member alone.
#[derive(Debug, Drop)]
pub struct Matrix {
    n: u8,
    me: u8,
    rows: [Tag; MOST_MEMBERS],
    stable: Tag,
}

impl Model for Matrix {
    ghost use Rattle.stability_matrix.specs.Rows.{Known};

    ghost Value = { Known };

    ghost use Rattle.stability_matrix.specs.Fields.{known_of, IsKept};

    ghost view = { known_of };

    ghost invariant = { IsKept };
}

impl Matrix {
    ghost use Rattle.stability_matrix.specs.Rows.{row_of, stable_of, noted};
    ghost use Rattle.stability_matrix.specs.Standing.{IsMatrixOf, KeepsKnown, KeepsKnownOfOwn, KeepsStable, StableAfter};

    /// The matrix of a member of `n` before anything was delivered: all zeros.
    pub fn new(n: u8, me: u8) -> Matrix
        requires some { 1 ≤ n }
        requires few { n ≤ 16 }
        requires member { me < n }
        ensures zeros { result ≡ record { me = me; rows = replicate n (zero_tag n) } }
        ensures known { IsMatrixOf n me [] result }
    {
        let zero = Tag::zero(n);
        Matrix {
            n,
            me,
            rows: [zero; MOST_MEMBERS],
            stable: zero,
        }
    }

    /// What a member is known to have.
    pub fn row(&self, y: u8) -> Tag
        requires { y < length self.now.rows }
        ensures row { result ≡ row_of self.now.rows y }
        ensures entries { length result ≡ length self.now.rows }
        ensures known { (n me : ℕ) (messages : List Message) → IsMatrixOf n me messages self.now → result ≡ known_vector n me messages y }
    {
        *self.row_at(y)
    }

    /// The same, where it stands.
    pub fn row_at(&self, y: u8) -> &Tag
        requires { y < length self.now.rows }
        ensures row { result.now ≡ row_of self.now.rows y }
        ensures entries { length result.now ≡ length self.now.rows }
        ensures known { (n me : ℕ) (messages : List Message) → IsMatrixOf n me messages self.now → result.now ≡ known_vector n me messages y }
    {
        &self.rows[y as usize]
    }

    /// Notes a message of another member: its row becomes the timestamp, and the own row's entry at it the message's number.
    pub fn note(&mut self, origin: u8, tag: Tag)
        requires origin { origin < length self.old.rows }
        requires other { origin ≢ self.old.me }
        requires entries { length tag ≡ length self.old.rows }
        ensures noted { self.new ≡ record { me = self.old.me; rows = noted self.old.me origin tag self.old.rows } }
        ensures members { length self.new.rows ≡ length self.old.rows }
        ensures known { KeepsKnown origin tag self.old self.new }
    {
        let moved = self.stable_moved(origin, &tag);
        self.note_moved(origin, &tag, moved.as_ref());
    }

    /// As `note`, where it is known what `stable_moved` gives: no least is computed.
    pub fn note_moved(&mut self, origin: u8, tag: &Tag, moved: Option<&Tag>)
        requires origin { origin < length self.old.rows }
        requires other { origin ≢ self.old.me }
        requires entries { length tag.now ≡ length self.old.rows }
        requires moved { unwrap_or (option_copied moved) (stable_of self.old.rows) ≡ stable_of (noted self.old.me origin tag.now self.old.rows) }
        ensures noted { self.new ≡ record { me = self.old.me; rows = noted self.old.me origin tag.now self.old.rows } }
        ensures members { length self.new.rows ≡ length self.old.rows }
        ensures known { KeepsKnown origin tag.now self.old self.new }
        ensures stays { is_some (option_copied moved.entry) ≡ false → KeepsStable self.old self.new }
    {
        note_in(&mut self.rows[..self.n as usize], self.me, origin, tag);
        become_moved(&mut self.stable, moved);
    }

    /// Notes an own message: the own row becomes the timestamp.
    pub fn note_own(&mut self, tag: Tag)
        requires { length tag ≡ length self.old.rows }
        ensures noted { self.new ≡ record { me = self.old.me; rows = slice_set self.old.rows self.old.me tag } }
        ensures members { length self.new.rows ≡ length self.old.rows }
        ensures known { KeepsKnownOfOwn tag self.old self.new }
    {
        self.note_own_moving(&tag);
    }

    /// As `note_own`, and says whether `stable` gives something else then.
    pub fn note_own_moving(&mut self, tag: &Tag) -> bool
        requires { length tag.now ≡ length self.old.rows }
        ensures noted { self.new ≡ record { me = self.old.me; rows = slice_set self.old.rows self.old.me tag.now } }
        ensures members { length self.new.rows ≡ length self.old.rows }
        ensures known { KeepsKnownOfOwn tag.now self.old self.new }
        ensures moved { IsTrue result ↔ (stable_of self.new.rows ≢ stable_of self.old.rows) }
        ensures stays { result ≡ false → KeepsStable self.old self.new }
    {
        let rows = &mut self.rows[..self.n as usize];
        let stable = set_row(rows, self.me, tag, &self.stable);
        let moved = stable != self.stable;
        self.stable = stable;
        moved
    }

    /// The least entry of each column: how many messages of each member every member is known to have.
    pub fn stable(&self) -> Tag
        ensures least { result ≡ stable_of self.now.rows }
        ensures known { (n me : ℕ) (messages : List Message) → IsMatrixOf n me messages self.now → result ≡ stable_vector n me messages }
    {
        self.stable
    }

    /// The same, where they stand.
    pub fn stable_counts(&self) -> &Tag
        ensures least { result.now ≡ stable_of self.now.rows }
        ensures known { (n me : ℕ) (messages : List Message) → IsMatrixOf n me messages self.now → result.now ≡ stable_vector n me messages }
    {
        &self.stable
    }

    /// What `stable` gives after `note` with the same arguments.
    pub fn stable_after(&self, origin: u8, tag: Tag) -> Tag
        requires origin { origin < length self.now.rows }
        requires other { origin ≢ self.now.me }
        requires entries { length tag ≡ length self.now.rows }
        ensures least { result ≡ stable_of (noted self.now.me origin tag self.now.rows) }
        ensures known { StableAfter origin tag self.now result }
    {
        self.stable_moved(origin, &tag).unwrap_or(self.stable)
    }

    /// The same, where it isn't what `stable` gives now, and `None` exactly where it is.
    pub fn stable_moved(&self, origin: u8, tag: &Tag) -> Option<Tag>
        requires origin { origin < length self.now.rows }
        requires other { origin ≢ self.now.me }
        requires entries { length tag.now ≡ length self.now.rows }
        ensures least { unwrap_or result (stable_of self.now.rows) ≡ stable_of (noted self.now.me origin tag.now self.now.rows) }
        ensures moved { IfSome result (λ stable. stable ≢ stable_of self.now.rows) }
        ensures known { StableAfter origin tag.now self.now (unwrap_or result (stable_of self.now.rows)) }
    {
        if self.keeps_least(origin, tag) {
            return None;
        }
        let least = least_with(&self.rows[..self.n as usize], self.me, origin, tag);
        if least == self.stable {
            None
        } else {
            Some(least)
        }
    }

    /// Whether every member is known to have a message.
    pub fn is_stable(&self, id: MessageId) -> bool
        requires { id.origin < length self.now.rows }
        ensures least { result ≡ covers (stable_of self.now.rows) id }
        ensures known { (n me : ℕ) (messages : List Message) (m : Message) → IsMatrixOf n me messages self.now → id_of m ≡ id → result ≡ is_stable (stable_vector n me messages) m }
    {
        self.stable.covers_id(id)
    }

    /// Whether no entry that a message of `origin` moves was or becomes its column's least: each least stays then. There is no
    /// early end, so that several columns are told at once.
    fn keeps_least(&self, origin: u8, tag: &Tag) -> bool
        requires origin { origin < length self.now.rows }
        requires entries { length tag.now ≡ length self.now.rows }
        ensures { IsTrue result → stable_of (noted self.now.me origin tag.now self.now.rows) ≡ stable_of self.now.rows }
    {
        let row = &self.rows[origin as usize];
        let own = self.rows[self.me as usize].at(origin);
        self.stable.is_below_changes(row, tag)
            & least_stays(self.stable.at(origin), own, tag.at(origin))
    }
}

/// Gives a timestamp other numbers, where it moves to others.
fn become_moved(stable: &mut Tag, moved: Option<&Tag>)
    ensures { stable.new ≡ unwrap_or (option_copied moved.entry) stable.old }
{
    if let Some(moved) = moved {
        *stable = *moved;
    }
}
