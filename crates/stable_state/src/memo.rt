//! In which slots items were found of late. Nothing is told of it, since any slot would do.

ghost use Rattle.std.specs.Prelude.{◌<◌, vec_len};

use crate::rank::Rank;
use op_base::NoMemory;
use std::alloc::Global;

/// The slots of items that were found of late, each where its item's rank says, until that of another comes there.
#[derive(Drop)]
pub struct Memo {
    slots: Vec<u32>,
    // Whether what was looked for last was there.
    helps: bool,
}

impl Memo {
    /// No slots. It takes no memory.
    pub fn new(alloc: Global) -> Memo {
        Memo {
            slots: Vec::new(alloc),
            helps: false,
        }
    }

    /// Takes room for the slots of so many items. `NoMemory` leaves it as it was.
    pub fn reserve(&mut self, many: usize) -> Result<(), NoMemory> {
        if self.slots.len() < many {
            self.slots.resize(many, 0)?;
        }
        Ok(())
    }

    /// Whether a look may help: what was looked for last was there.
    #[inline(always)]
    pub fn helps(&self) -> bool {
        self.helps
    }

    /// In which slot the item of a rank may stand.
    #[inline(always)]
    pub fn slot(&self, rank: Rank) -> Option<usize> {
        if self.slots.is_empty() {
            return None;
        }
        Some(self.slots[self.place(rank)] as usize)
    }

    /// The item of a rank was found in a slot.
    pub fn find(&mut self, rank: Rank, slot: usize) {
        self.helps = true;
        let Ok(slot) = u32::try_from(slot) else {
            return;
        };
        if !self.slots.is_empty() {
            let place = self.place(rank);
            self.slots[place] = slot;
        }
    }

    /// An item that was looked for isn't there.
    pub fn miss(&mut self) {
        self.helps = false;
    }

    /// Where the slot of a rank's item stands.
    #[inline(always)]
    fn place(&self, rank: Rank) -> usize
        requires { 0 < vec_len self.now.slots }
        ensures { result < vec_len self.now.slots }
    {
        // The upper half of the product is below the length, and takes no division.
        ((u128::from(rank.mix()) * self.slots.len() as u128) >> 64) as usize
    }
}
