//! How many messages of a member may be unstable at once, and how many it may send.

ghost use Rattle.std.specs.Prelude.{◌≡◌, ◌+◌, ◌≤◌};
ghost use Rattle.causal_model.specs.Stability.{noop_window};

use op_base::MOST_MEMBERS;

/// The greatest window: how many operations of a member may be unstable.
pub const MOST_WINDOW: u8 = 64;

/// The greatest limit: how many messages a member may send in an epoch.
pub const MOST_LIMIT: u32 = 1_000_000;

/// How many no-ops of a member may be unstable in a store of 1 to 16 members, where so many operations may, 0 to 64.
pub fn most_noops(n: u8, w: u8) -> u32
    requires some { 1 ≤ n }
    requires few { n ≤ MOST_MEMBERS }
    requires narrow { w ≤ MOST_WINDOW }
    ensures value { result ≡ noop_window n w }
    ensures few { result ≤ 1921 }
{
    2 * (u32::from(n) - 1) * u32::from(w) + 1
}

/// How many messages of a member may be unstable: as many operations and as many no-ops. So many of its messages may be
/// early, too.
pub fn most_unstable(n: u8, w: u8) -> u32
    requires some { 1 ≤ n }
    requires few { n ≤ MOST_MEMBERS }
    requires narrow { w ≤ MOST_WINDOW }
    ensures value { result ≡ w + noop_window n w }
    ensures few { result ≤ 1985 }
{
    u32::from(w) + most_noops(n, w)
}
