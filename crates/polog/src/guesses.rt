//! Guesses where the entries of objects stand. Nothing but speed hangs on whether they are right.

ghost use Rattle.std.specs.Prelude.{◌+◌, ◌<◌, ◌≤◌, length};
ghost use Rattle.polog.specs.declared.guesses.TheConstants.{SLOTS};

use op_base::ObjectId;

/// So many guesses there are.
pub const SLOTS: usize = 16;

/// Among fewer rows a search is as fast as a guess.
const FEW: usize = 8;

/// What the sum of a name's numbers is multiplied by, so that the product's highest bits hang on all of it.
const FACTOR: u64 = 0x9E37_79B9_7F4A_7C15;

/// For each slot the first and the last place at which rows of the object stand that was found last of those with this slot, and
/// where its entries end. Places are short, so that several are moved at once.
#[derive(Clone, Copy, Debug)]
pub struct Guesses {
    firsts: [u16; SLOTS],
    ends: [u16; SLOTS],
    lasts: [u16; SLOTS],
}

/// Where the rows of an object stand, or may stand.
#[derive(Clone, Copy, Debug)]
pub struct Stand {
    /// From which place on its entries stand.
    pub from: usize,
    /// Up to which place they stand.
    pub end: usize,
    /// Up to which place free rows stand behind them.
    pub to: usize,
}

impl Guesses {
    /// Guesses that are wrong, but for an object whose entry is the first of all.
    pub fn none() -> Guesses {
        Guesses {
            firsts: [0; SLOTS],
            ends: [1; SLOTS],
            lasts: [0; SLOTS],
        }
    }

    /// Where the rows of a slot's object may stand.
    pub fn at(&self, slot: usize) -> Stand
        requires { slot < SLOTS }
    {
        Stand {
            from: usize::from(self.firsts[slot]),
            end: usize::from(self.ends[slot]),
            to: usize::from(self.lasts[slot]) + 1,
        }
    }

    /// Notes where the rows of a slot's object stand now, of so many in all, which stood up to a place. What stands behind them moves
    /// as far as their end does.
    #[inline(always)]
    pub fn note(&mut self, slot: usize, stand: Stand, was: usize, len: usize)
        requires { slot < SLOTS }
    {
        if len < FEW {
            return;
        }
        if was != stand.to && stand.to < len {
            self.shift(was, stand.to);
        }
        self.firsts[slot] = short(stand.from);
        self.ends[slot] = short(stand.end);
        self.lasts[slot] = short(stand.to.saturating_sub(1));
    }

    /// Moves all places that aren't before one of them as far as this goes.
    fn shift(&mut self, was: usize, is: usize) {
        shift(&mut self.firsts, short(was), short(is));
        shift(&mut self.ends, short(was), short(is));
        shift(&mut self.lasts, short(was), short(is));
    }
}

/// Moves those places that aren't before one of them as far as this goes. Each is written, so that several are moved at once.
fn shift(places: &mut [u16], was: u16, is: u16) {
    for place in places.iter_mut() {
        let moved = place.wrapping_add(is).wrapping_sub(was);
        *place = if *place < was { *place } else { moved };
    }
}

/// A place, or the greatest that is short.
fn short(place: usize) -> u16 {
    place.min(usize::from(u16::MAX)) as u16
}

/// The slot of an object's guess, which hangs on its kind and on all of its key.
pub fn slot_of(object: &ObjectId) -> usize
    ensures { result < SLOTS }
{
    let key = object.key.padded();
    let sum = (object.kind as u64)
        .wrapping_add(number_at(key, 0))
        .wrapping_add(number_at(key, 8))
        .wrapping_add(number_at(key, 16))
        .wrapping_add(number_at(key, 24));
    (sum.wrapping_mul(FACTOR) >> 60) as usize
}

/// The number that eight bytes from a place on make, the first of them the lowest.
#[inline(always)]
fn number_at(bytes: &[u8], at: usize) -> u64
    requires { at + 8 ≤ length bytes.now }
{
    u64::from_le_bytes([
        bytes[at],
        bytes[at + 1],
        bytes[at + 2],
        bytes[at + 3],
        bytes[at + 4],
        bytes[at + 5],
        bytes[at + 6],
        bytes[at + 7],
    ])
}
