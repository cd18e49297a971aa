//! Why a line is no command.

ghost use Rattle.std.specs.Prelude.{◌≡◌, ◌≢◌};
ghost use Rattle.script_lang.specs.Fault.{number_of_fault};

use op_base::{NameFault, NoMemory};

/// A command line, and a header, has at most so many bytes.
pub const MOST_LINE_BYTES: usize = 16384;

/// Why a line is no command: the first of these tests that it fails.
#[derive(Clone, Copy, Debug, PartialEq, Eq)]
pub enum Fault {
    /// The line has more than 16384 bytes.
    TooLong,
    /// The first word is no command's; of a client's line the second.
    Keyword,
    /// The number of words is wrong.
    Words,
    /// A member, or a client, is no number below how many there are.
    Member,
    /// The object is none, or isn't a list where one is meant.
    Object,
    /// The object's kind has no such operation, or its arguments are too few or too many.
    Operation,
    /// The value is none, or the hexadecimal has an odd number of digits or another character.
    Value,
    /// The amount, or the number of a message, is no number, that of members is none from 1 to 16, or the id or the place is
    /// none.
    Number,
    /// There is no memory for what the command keeps. The line sends an update with a value of more than 24 bytes, or has bytes, or
    /// its fault is `Value` or `Number`.
    NoMemory,
}

impl Fault {
    /// The fault's number, 1 to 8. Want of memory has none.
    pub fn number(self) -> Option<u8>
        ensures { result ≡ number_of_fault self }
    {
        match self {
            Fault::TooLong => Some(1),
            Fault::Keyword => Some(2),
            Fault::Words => Some(3),
            Fault::Member => Some(4),
            Fault::Object => Some(5),
            Fault::Operation => Some(6),
            Fault::Value => Some(7),
            Fault::Number => Some(8),
            Fault::NoMemory => None,
        }
    }

    /// Want of memory for a name, or this fault where the text is no name.
    pub fn of_name(self, why: NameFault) -> Fault
        ensures memory { why ≡ NameFault.NoMemory → result ≡ Fault.NoMemory }
        ensures name { why ≢ NameFault.NoMemory → result ≡ self }
    {
        if why == NameFault::NoMemory {
            Fault::NoMemory
        } else {
            self
        }
    }
}

impl From<NoMemory> for Fault {
    ghost use Rattle.std.specs.Prelude.{◌≡◌};
    ghost use Rattle.script_lang.specs.declared.fault.Fault.TheVariants as faults;

    ghost from_gives = { λ _ e. e ≡ faults.NoMemory };

    fn from(_error: NoMemory) -> Fault {
        Fault::NoMemory
    }
}
