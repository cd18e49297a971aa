//! The rows of a matrix, as a message is noted in them, and the least of each of their columns.

ghost use Rattle.std.specs.Prelude.{◌≡◌, ◌≢◌, ◌<◌, ◌≤◌, ℕ, min, length, slice_set, All, IsTrue};
ghost use Rattle.op_base.specs.Timestamp.{entry, IsBelowChange};
ghost use Rattle.causal_model.specs.Stability.{minimum};
ghost use Rattle.stability_matrix.specs.Rows.{column_of, stable_of, noted};

use op_base::Tag;

/// Puts the timestamp of a message of `origin` into its row, and its number into member `me`'s.
pub(crate) fn note_in(rows: &mut [Tag], me: u8, origin: u8, tag: &Tag)
    requires own { me < length rows.old }
    requires origin { origin < length rows.old }
    requires entries { length tag.now ≡ length rows.old }
    requires square { All (λ row. length row ≡ length rows.old) rows.old }
    ensures { rows.new ≡ noted me origin tag.now rows.old }
{
    rows[origin as usize] = *tag;
    rows[me as usize].set(origin, tag.at(origin));
}

/// A row with the number of a message of `origin` in it.
fn raised(row: &Tag, origin: u8, tag: &Tag) -> Tag
    requires row { origin < length row.now }
    requires tag { origin < length tag.now }
    ensures { result ≡ slice_set row.now origin (entry tag.now origin) }
{
    let mut raised = *row;
    raised.set(origin, tag.at(origin));
    raised
}

/// The least entry of each column, once a message of `origin` were noted in the rows, of which one is member `me`'s.
pub(crate) fn least_with(rows: &[Tag], me: u8, origin: u8, tag: &Tag) -> Tag
    requires own { me < length rows.now }
    requires origin { origin < length rows.now }
    requires other { origin ≢ me }
    requires entries { length tag.now ≡ length rows.now }
    requires square { All (λ row. length row ≡ length rows.now) rows.now }
    ensures { result ≡ stable_of (noted me origin tag.now rows.now) }
{
    let own = raised(&rows[me as usize], origin, tag);
    let mut least = own.meet(tag);
    for y in 0..rows.len() {
        if y == origin as usize || y == me as usize {
            continue;
        }
        least = least.meet(&rows[y]);
    }
    least
}

/// Puts a timestamp into a member's row, and gives the least entry of each column, where `before` has what they were. Only
/// columns are gone through whose least may move.
pub(crate) fn set_row(rows: &mut [Tag], member: u8, tag: &Tag, before: &Tag) -> Tag
    requires member { member < length rows.old }
    requires entries { length tag.now ≡ length rows.old }
    requires square { All (λ row. length row ≡ length rows.old) rows.old }
    requires least { before.now ≡ stable_of rows.old }
    ensures rows { rows.new ≡ slice_set rows.old member tag.now }
    ensures least { result ≡ stable_of rows.new }
{
    let was = rows[member as usize];
    rows[member as usize] = *tag;
    let mut least = *before;
    for x in 0..tag.members() {
        if !least_stays(before.at(x), was.at(x), tag.at(x)) {
            least.set(x, least_in(rows, x));
        }
    }
    least
}

/// The least entry of a column.
fn least_in(rows: &[Tag], x: u8) -> u32
    requires some { 1 ≤ length rows.now }
    requires square { All (λ row. length row ≡ length rows.now) rows.now }
    requires member { x < length rows.now }
    ensures { result ≡ minimum (column_of rows.now x) }
{
    let mut least = rows[0].at(x);
    for row in rows.iter() {
        least = least.min(row.at(x));
    }
    least
}

/// Whether a column's least stays where an entry of it moves: it doesn't, or was and is above the least.
pub(crate) fn least_stays(least: u32, was: u32, now: u32) -> bool
    ensures { IsTrue result → IsBelowChange least was now }
{
    (was == now) | (least < was) & (least < now)
}
