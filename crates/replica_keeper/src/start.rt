//! Starting: what a keeper holds is read, replayed and cut to its whole records.

ghost use Rattle.std.specs.Prelude.{◌≡◌, ◌≢◌, ◌<◌, ◌≤◌, ◌++◌, ℕ, [], length, take, min, IfOk, OnOk, OnErr, Err, Some, None};
ghost use Rattle.store_io.specs.Keeping.{Leaves, LeavesEither, LeavesOnly};
ghost use Rattle.replica_keeper.specs.Keeping.{groups_of};
ghost use Rattle.replica_keeper.specs.Open.{settings_by, IsOpen};
ghost use Rattle.replica_keeper.specs.Open.{IsSame};
ghost use Rattle.replica_keeper.specs.Starting.{MayLeave};
ghost use Rattle.world_model.specs.Records.{kept_prefix, kept_fault};

use crate::durable::Durable;
use crate::keeping::Unkept;
use crate::reading::{Unread, replay};
use replica_core::CreateFault;
use replica_node::{Journal, Node};
use std::alloc::Global;
use store_io::{Failed, Keeper};

/// Why a durable replica isn't started.
#[derive(Clone, Copy, Debug, PartialEq, Eq)]
pub enum StartFault {
    /// A number is out of its range, as where a replica is created.
    BadNumbers,
    /// The bytes have a fault: the first stands at this byte. It is a length of 0 or above 8192, or a whole record that isn't
    /// what one call gives at the records before it, and stands where the record begins.
    Damaged { at: u64 },
    /// The keeper failed in this call.
    KeeperFault,
    /// There is no memory.
    NoMemory,
}

/// Puts the first bytes of a buffer behind others.
fn put(bytes: &mut Vec<u8>, buf: &[u8], count: usize) -> Result<(), Unkept>
    requires { count ≤ length buf.now }
    ensures put { OnOk result (bytes.new.items ≡ bytes.old.items ++ take count buf.now) }
    ensures memory { result ≢ Err Unkept.Failed }
{
    match bytes.extend_from_slice(&buf[..count]) {
        Ok(()) => Ok(()),
        Err(_) => Err(Unkept::NoMemory),
    }
}

/// All bytes that a keeper holds.
fn read_all<K: Keeper>(alloc: Global, keeper: &mut K) -> Result<Vec<u8>, Unkept>
    ensures bytes { IfOk result (λ bytes. bytes.items ≡ K.held keeper.old) }
    ensures held { K.held keeper.new ≡ K.held keeper.old }
    ensures synced { K.synced keeper.new ≡ K.synced keeper.old }
    ensures steady { result ≢ Err Unkept.Failed → K.faults keeper.new ≡ K.faults keeper.old }
    ensures fault { result ≡ Err Unkept.Failed → K.faults keeper.old < K.faults keeper.new }
    ensures any_moment { LeavesOnly K.moment K.left_since keeper.old keeper.new (Leaves (K.held keeper.old) (K.synced keeper.old)) }
{
    let mut bytes = Vec::new(alloc);
    'pieces: loop {
        let mut buf = [0; 512];
        let count = keeper.read(bytes.len() as u64, &mut buf)?;
        if count == 0 {
            return Ok(bytes);
        }
        put(&mut bytes, &buf, count)?;
    }
}

/// Cuts what a keeper holds to a length where it is longer, and syncs it.
fn settle<K: Keeper>(keeper: &mut K, len: u64) -> Result<(), Failed>
    requires { len ≤ length (K.held keeper.old) }
    ensures held { OnOk result (K.held keeper.new ≡ take len (K.held keeper.old)) }
    ensures synced { OnOk result (K.synced keeper.new ≡ length (K.held keeper.new)) }
    ensures steady { OnOk result (K.faults keeper.new ≡ K.faults keeper.old) }
    ensures fault { OnErr result (K.faults keeper.old < K.faults keeper.new) }
    ensures any_moment { LeavesOnly K.moment K.left_since keeper.old keeper.new (LeavesEither (K.held keeper.old) (K.synced keeper.old) (take len (K.held keeper.old)) (min len (K.synced keeper.old))) }
{
    if len < keeper.len() {
        keeper.cut(len)?;
    }
    keeper.sync()
}

/// Replays what a keeper holds to a node that has noted nothing, cuts it to its whole records, and syncs it.
pub(crate) fn fill<K: Keeper>(
    alloc: Global,
    node: &mut Node<Journal>,
    keeper: &mut K,
) -> Result<(), StartFault>
    requires first { node.old.first ≡ (node.old.inner.me, node.old.inner.n) }
    requires none { node.old.journal.notes ≡ [] }
    ensures numbers { result ≢ Err StartFault.BadNumbers }
    ensures damaged { (at : ℕ) → result ≡ Err (StartFault.Damaged at) → kept_fault (settings_by node.old) (K.held keeper.old) ≡ Some at }
    ensures steady { result ≢ Err StartFault.KeeperFault → K.faults keeper.new ≡ K.faults keeper.old }
    ensures fault { result ≡ Err StartFault.KeeperFault → K.faults keeper.old < K.faults keeper.new }
    ensures faultless { OnOk result (kept_fault (settings_by node.old) (K.held keeper.old) ≡ None) }
    ensures open { OnOk result (IsOpen node.new (K.held keeper.new) (K.synced keeper.new)) }
    ensures groups { OnOk result (groups_of node.new.journal.notes ≡ kept_prefix (settings_by node.old) (K.held keeper.old)) }
    ensures synced { OnOk result (K.synced keeper.new ≡ length (K.held keeper.new)) }
    ensures same { IsSame node.old node.new }
    ensures held { (at : ℕ) → kept_fault (settings_by node.old) (K.held keeper.old) ≡ Some at → K.held keeper.new ≡ K.held keeper.old }
    ensures held_synced { (at : ℕ) → kept_fault (settings_by node.old) (K.held keeper.old) ≡ Some at → K.synced keeper.new ≡ K.synced keeper.old }
    ensures any_moment { LeavesOnly K.moment K.left_since keeper.old keeper.new (MayLeave (settings_by node.old) (K.held keeper.old) (K.synced keeper.old)) }
{
    let bytes = match read_all(alloc, keeper) {
        Ok(bytes) => bytes,
        Err(Unkept::NoMemory) => return Err(StartFault::NoMemory),
        Err(Unkept::Failed) => return Err(StartFault::KeeperFault),
    };
    let len = match replay(alloc, node, bytes.as_slice()) {
        Ok(len) => len,
        Err(Unread::NoMemory) => return Err(StartFault::NoMemory),
        Err(Unread::Damaged(at)) => return Err(StartFault::Damaged { at: at as u64 }),
    };
    match settle(keeper, len as u64) {
        Ok(()) => Ok(()),
        Err(Failed) => Err(StartFault::KeeperFault),
    }
}

impl<K: Keeper> Durable<K> {
    ghost use Rattle.std.specs.Result.{IfErr};
    ghost use Rattle.std.specs.Prelude.{◌↔◌, true, false};
    ghost use Rattle.std.specs.Option.{IsSome};
    ghost use Rattle.replica_core.specs.Numbers.{are_numbers};
    ghost use Rattle.replica_keeper.specs.Durably.{numbers};
    ghost use Rattle.replica_keeper.specs.Open.{notes_in};

    /// A durable replica of what a keeper holds: its whole records are replayed, a torn end is cut off, and all is synced. Of a
    /// fault the keeper comes back. All memory is taken before the first change.
    pub fn start(
        alloc: Global,
        me: u8,
        n: u8,
        w: u8,
        limit: u32,
        keeper: K,
    ) -> Result<Durable<K>, (StartFault, K)>
        ensures numbers { OnOk result (are_numbers me n w limit ≡ true) }
        ensures bad_numbers { IfErr result (λ e. (e.0 ≡ StartFault.BadNumbers) ↔ (are_numbers me n w limit ≡ false)) }
        ensures damaged { IfErr result (λ e. (at : ℕ) → e.0 ≡ StartFault.Damaged at → kept_fault (numbers me n w limit) (K.held keeper) ≡ Some at) }
        ensures fault { IfErr result (λ e. e.0 ≡ StartFault.KeeperFault → K.faults keeper < K.faults e.1) }
        ensures steady { IfOk result (λ it. K.faults it.keeper ≡ K.faults keeper) }
        ensures steady_err { IfErr result (λ e. e.0 ≢ StartFault.KeeperFault → K.faults e.1 ≡ K.faults keeper) }
        ensures faultless { OnOk result (kept_fault (numbers me n w limit) (K.held keeper) ≡ None) }
        ensures open { IfOk result (λ it. IsSome it.node) }
        ensures groups { IfOk result (λ it. groups_of (notes_in it.node) ≡ kept_prefix (numbers me n w limit) (K.held keeper)) }
        ensures synced { IfOk result (λ it. K.synced it.keeper ≡ length (K.held it.keeper)) }
        ensures settings { IfOk result (λ it. numbers it.me it.n it.w it.limit ≡ numbers me n w limit) }
        ensures held { IfErr result (λ e. (at : ℕ) → kept_fault (numbers me n w limit) (K.held keeper) ≡ Some at → K.held e.1 ≡ K.held keeper) }
        ensures held_synced { IfErr result (λ e. (at : ℕ) → kept_fault (numbers me n w limit) (K.held keeper) ≡ Some at → K.synced e.1 ≡ K.synced keeper) }
        ensures any_moment { IfOk result (λ it. LeavesOnly K.moment K.left_since keeper it.keeper (MayLeave (numbers me n w limit) (K.held keeper) (K.synced keeper))) }
        ensures any_moment_err { IfErr result (λ e. LeavesOnly K.moment K.left_since keeper e.1 (MayLeave (numbers me n w limit) (K.held keeper) (K.synced keeper))) }
    {
        let mut keeper = keeper;
        let mut node = match Node::create(alloc, me, n, w, limit, Journal::new(alloc)) {
            Ok(node) => node,
            Err(CreateFault::BadNumbers) => return Err((StartFault::BadNumbers, keeper)),
            Err(CreateFault::NoMemory) => return Err((StartFault::NoMemory, keeper)),
        };
        match fill(alloc, &mut node, &mut keeper) {
            Ok(()) => Ok(Durable {
                me,
                n,
                w,
                limit,
                keeper,
                node: Some(node),
            }),
            Err(fault) => Err((fault, keeper)),
        }
    }
}
