//! Why bytes are no frame.

ghost use Rattle.std.specs.Prelude.{◌≡◌};
ghost use Rattle.frame_codec.specs.Fault.{fault_number};

use op_base::NoMemory;
use std::error::Error;
use std::fmt;

/// Why bytes are no frame. Where several apply, the fault is the first of them in this order.
#[derive(Clone, Copy, Debug, PartialEq, Eq)]
pub enum FrameFault {
    /// What stands in front of the key isn't all there.
    Short,
    /// The version is none that is read: neither 2 nor, in epoch 0, 1.
    Version,
    /// The epoch of a frame of version 2 isn't the store's.
    Epoch,
    /// The number of members isn't the store's.
    Members,
    /// The origin is no member.
    Origin,
    /// The version has no operation of this code.
    Code,
    /// The timestamp's entry at the origin is 0, or some entry is above the limit.
    Number,
    /// The key of an update is missing, cut or no key.
    BadKey,
    /// The value is missing, cut or none that the version has; the amount is missing or cut; or a place or an id is missing,
    /// cut or none.
    Argument,
    /// Bytes follow the last field.
    Rest,
}

/// Why bytes were not decoded.
#[derive(Clone, Copy, Debug, PartialEq, Eq)]
pub enum DecodeFault {
    /// The bytes are no frame.
    Frame(FrameFault),
    /// The bytes are a frame, and there is no memory for its message.
    NoMemory,
}

impl FrameFault {
    /// The fault's number, 1 to 10. `Epoch` has 10 and comes behind 2; the others come in the order of their numbers.
    pub fn number(self) -> u8
        ensures { result ≡ fault_number self }
    {
        match self {
            FrameFault::Short => 1,
            FrameFault::Version => 2,
            FrameFault::Members => 3,
            FrameFault::Origin => 4,
            FrameFault::Code => 5,
            FrameFault::Number => 6,
            FrameFault::BadKey => 7,
            FrameFault::Argument => 8,
            FrameFault::Rest => 9,
            FrameFault::Epoch => 10,
        }
    }
}

impl fmt::Display for FrameFault {
    fn fmt<W: fmt::Write>(&self, f: &mut fmt::Formatter<W>) -> fmt::Result {
        f.write_str(match self {
            FrameFault::Short => "too few bytes",
            FrameFault::Version => "another version",
            FrameFault::Epoch => "another epoch",
            FrameFault::Members => "another number of members",
            FrameFault::Origin => "no such origin",
            FrameFault::Code => "no such operation",
            FrameFault::Number => "a number out of range",
            FrameFault::BadKey => "no key",
            FrameFault::Argument => "no argument",
            FrameFault::Rest => "bytes behind the last field",
        })
    }
}

impl Error for FrameFault {}

impl fmt::Display for DecodeFault {
    fn fmt<W: fmt::Write>(&self, f: &mut fmt::Formatter<W>) -> fmt::Result {
        match self {
            DecodeFault::Frame(fault) => write!(f, "no frame: {fault}"),
            DecodeFault::NoMemory => f.write_str("out of memory"),
        }
    }
}

impl Error for DecodeFault {}

impl From<FrameFault> for DecodeFault {
    ghost use Rattle.std.specs.Prelude.{◌≡◌};
    ghost use Rattle.frame_codec.specs.declared.fault.DecodeFault.TheVariants as faults;

    ghost from_gives = { λ fault e. e ≡ faults.Frame fault };

    fn from(fault: FrameFault) -> DecodeFault {
        DecodeFault::Frame(fault)
    }
}

impl From<NoMemory> for DecodeFault {
    ghost use Rattle.std.specs.Prelude.{◌≡◌};
    ghost use Rattle.frame_codec.specs.declared.fault.DecodeFault.TheVariants as faults;

    ghost from_gives = { λ _ e. e ≡ faults.NoMemory };

    fn from(_error: NoMemory) -> DecodeFault {
        DecodeFault::NoMemory
    }
}
