//! Where items stood of late, and so where others are looked for first. Nothing is told of it, since any place would do.

ghost use Rattle.std.specs.Prelude.{◌≡◌, true, Some, None, if◌then◌else◌};
ghost use Rattle.stable_state.specs.Near.{is_near};

use crate::chunks::Spot;

/// Where an item came, changed or went last, and whether that was a good place to look at first.
#[derive(Clone, Copy, Drop)]
pub struct Recent {
    last: Spot,
    // Whether what went last was near where an item stood last then.
    went_near: bool,
    // The same of what came or changed last.
    came_near: bool,
}

impl Recent {
    /// Where no item stood yet.
    pub fn new() -> Recent
        ensures { result ≡ record { last = record { place = 0; chunk = 0 }; went_near = true; came_near = true } }
    {
        Recent {
            last: Spot { place: 0, chunk: 0 },
            went_near: true,
            came_near: true,
        }
    }

    /// Where an item came, changed or went last.
    pub fn last(&self) -> Spot
        ensures { result ≡ self.now.last }
    {
        self.last
    }

    /// The same, where it is to be looked at first for what is to go: it helped with what went before.
    pub fn to_go(&self) -> Option<Spot>
        ensures { result ≡ (if self.now.went_near then Some self.now.last else None) }
    {
        if self.went_near {
            Some(self.last)
        } else {
            None
        }
    }

    /// The same for what is to come or to change.
    pub fn to_come(&self) -> Option<Spot>
        ensures { result ≡ (if self.now.came_near then Some self.now.last else None) }
    {
        if self.came_near {
            Some(self.last)
        } else {
            None
        }
    }

    /// An item goes at a spot.
    pub fn go(&mut self, spot: Spot)
        ensures { self.new ≡ record self.old { last = spot; went_near = is_near spot self.old.last } }
    {
        self.went_near = spot.is_near(self.last);
        self.last = spot;
    }

    /// An item comes or changes at a spot.
    pub fn come(&mut self, spot: Spot)
        ensures { self.new ≡ record self.old { last = spot; came_near = is_near spot self.old.last } }
    {
        self.came_near = spot.is_near(self.last);
        self.last = spot;
    }
}
