//! The numbers that a replica is made with.

ghost use Rattle.std.specs.Prelude.{◌≡◌};
ghost use Rattle.replica_core.specs.Numbers.{are_numbers};

use causal_model::{MOST_LIMIT, MOST_WINDOW};
use op_base::MOST_MEMBERS;

/// Whether a replica may be made with these numbers: 1 to 16 members, a window of 1 to 64, a limit of 1 to 1000000, and a
/// member below the number of members. They may come from anywhere, so each has room for more.
pub fn are_numbers(me: u32, n: u32, w: u32, limit: u32) -> bool
    ensures { result ≡ are_numbers me n w limit }
{
    let members = n >= 1 && n <= MOST_MEMBERS as u32 && me < n;
    let window = w >= 1 && w <= u32::from(MOST_WINDOW);
    members && window && limit >= 1 && limit <= MOST_LIMIT
}
