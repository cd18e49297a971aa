//! What was put in and what was taken out, and what comes of the two in each kind. The kinds are this project's own
//! profile.

ghost use Rattle.std.specs.Prelude.{◌≡◌, ◌||◌, option_copied};
ghost use Rattle.causal_model.specs.Parts.{is_in, puts, takes};

use op_base::{Act, Kind, Value};

/// Whether something was put in, and whether it was taken out.
#[derive(Clone, Copy, Debug, PartialEq, Eq, PartialOrd, Ord)]
pub struct Marks {
    /// A settled or logged act puts it in.
    pub put: bool,
    /// A settled or logged act takes it out.
    pub taken: bool,
}

impl Marks {
    /// The marks that are in the one or in the other.
    pub fn join(self, other: Marks) -> Marks
        ensures { result ≡ record { put = self.put || other.put; taken = self.taken || other.taken } }
    {
        Marks {
            put: self.put || other.put,
            taken: self.taken || other.taken,
        }
    }

    /// Whether it is in an object of a kind by these marks.
    pub fn is_in(self, kind: Kind) -> bool
        ensures { result ≡ is_in kind self.put self.taken }
    {
        match kind {
            Kind::RwSet | Kind::DwFlag => self.put && !self.taken,
            Kind::AwSet | Kind::EwFlag | Kind::MvReg => self.put,
            Kind::Counter | Kind::RCounter | Kind::List => self.put,
        }
    }
}

/// Whether an act puts in a value, or turns on a flag where none is given.
pub fn puts(value: Option<&Value>, act: &Act) -> bool
    ensures { result ≡ puts (option_copied value.entry) act.now }
{
    match (value, act) {
        (None, Act::Enable) => true,
        (Some(value), Act::Add(named) | Act::Write(named)) => named == value,
        _ => false,
    }
}

/// Whether an act takes out a value, or turns off a flag where none is given.
pub fn takes(value: Option<&Value>, act: &Act) -> bool
    ensures { result ≡ takes (option_copied value.entry) act.now }
{
    match (value, act) {
        (None, Act::Disable) => true,
        (Some(value), Act::Rmv(named)) => named == value,
        _ => false,
    }
}
