//! Why a replica isn't made.

use op_base::NoMemory;

/// Why a replica wasn't made.
#[derive(Clone, Copy, Debug, PartialEq, Eq)]
pub enum CreateFault {
    /// A number is out of its range: 1 to 16 members, a window of 1 to 64, a limit of 1 to 1000000, a member below the
    /// number of members.
    BadNumbers,
    /// There is no memory.
    NoMemory,
}

impl From<NoMemory> for CreateFault {
    ghost use Rattle.std.specs.Prelude.{◌≡◌};
    ghost use Rattle.replica_core.specs.declared.create_fault.CreateFault.TheVariants as faults;

    ghost from_gives = { λ _ e. e ≡ faults.NoMemory };

    fn from(_error: NoMemory) -> CreateFault {
        CreateFault::NoMemory
    }
}
