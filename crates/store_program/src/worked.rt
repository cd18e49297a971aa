//! Worked words: that the definitions mean what was meant. Each is the contract of a function that does nothing.

ghost use Rattle.store_program.specs.Worked.{ModesAreAsked, OthersAreRefused};

/// A mode is asked for by its word, with the numbers that are said and the usual ones.
pub fn modes_are_asked()
    ensures { ModesAreAsked }
{}

/// No other words are taken.
pub fn others_are_refused()
    ensures { OthersAreRefused }
{}
