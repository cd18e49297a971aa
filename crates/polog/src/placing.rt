//! Where an entry is put among rows: in the place of one that goes, in a free row, or in between.

ghost use Rattle.std.specs.Prelude.{◌≡◌, ◌-◌, ◌^◌, ◌<◌, ◌≤◌, length};
ghost use Rattle.polog.specs.Marks.{mark_of};
ghost use Rattle.polog.specs.Rows.{IsFreed, IsPlaced, IsPutIn};

use crate::guesses::Stand;
use crate::idle::Idle;
use crate::marks::Stamp;
use crate::rows::Rows;
use crate::sweep::Swept;
use op_base::Entry;

/// An object with fewer entries, or with fewer rows behind it, gets no free rows of its own.
const FEW: usize = 8;

/// So many rows are opened at once at most: what rows turn by waits on the stack, where these have room.
const MOST_OPENED: usize = 24;

/// And at most this part of the rows for which there is room.
const SHARE: usize = 8;

/// Frees the rows of an object that go, of those that were swept.
#[inline(always)]
pub fn free_gone(rows: &mut Rows, swept: Swept, idle: Idle)
    requires most { swept.kept ≤ swept.stand.end }
    requires places { swept.stand.end ≤ length rows.old.rows }
    ensures { IsFreed idle (swept.stand.end - swept.kept) swept.kept swept.stand.end rows.old rows.new }
{
    if swept.kept < swept.stand.end {
        rows.release(swept.kept, swept.stand.end, idle);
    }
}

/// Puts an entry behind those of its object that stay, and says where the object's rows stand then: in the place of one that goes,
/// and frees those of the others; or in that of a free row; or in between, which moves all rows behind it, and where these are
/// many opens some for the next entries.
#[inline(always)]
pub fn place(rows: &mut Rows, swept: Swept, stamp: Stamp, entry: Entry) -> Stand
    requires least { swept.stand.from ≤ swept.kept }
    requires most { swept.kept ≤ swept.stand.end }
    requires end { swept.stand.end ≤ swept.stand.to }
    requires places { swept.stand.to ≤ length rows.old.rows }
    requires room { swept.kept ≡ swept.stand.to → length rows.old.rows < rows.old.room }
    requires small { swept.stand.to < 2 ^ 63 }
    requires mark { stamp.mark ≡ mark_of entry.update.act }
    ensures placed { IsPlaced swept stamp.number entry rows.old rows.new }
    ensures few { length rows.old.rows ≤ rows.old.room → length rows.new.rows ≤ rows.old.room }
{
    let Swept { stand, kept } = swept;
    let mut to = stand.to;
    if kept + 1 < stand.end {
        rows.release(kept + 1, stand.end, Idle::of(&entry));
    }
    if kept < to {
        rows.set(kept, stamp, entry);
    } else if rows.len() - to < FEW || to - stand.from < FEW {
        rows.insert(kept, stamp, entry);
        to += 1;
    } else {
        to += put_among_more(rows, kept, stamp, entry);
    }
    Stand {
        from: stand.from,
        end: kept + 1,
        to,
    }
}

/// Opens some rows at a place, and puts an entry into the first. Says how many were opened.
#[inline(never)]
fn put_among_more(rows: &mut Rows, at: usize, stamp: Stamp, entry: Entry) -> usize
    requires place { at ≤ length rows.old.rows }
    requires room { length rows.old.rows < rows.old.room }
    requires mark { stamp.mark ≡ mark_of entry.update.act }
    ensures placed { IsPutIn at stamp.number entry rows.old rows.new }
    ensures few { length rows.new.rows ≤ rows.old.room }
    ensures most { result ≤ 24 }
{
    let many = (rows.room() - rows.len()).div_ceil(SHARE).min(MOST_OPENED);
    rows.open(at, Idle::of(&entry), many);
    rows.set(at, stamp, entry);
    many
}
