//! Redundancy of operations, as a trait: which operations a log keeps, and which later one makes an earlier one
//! redundant. That an operation may not need to be logged, and may make logged ones redundant, is the idea of Baquero,
//! Almeida and Shoker (arXiv 1710.04469); the laws are those on which pruning a log one message at a time rests.

ghost use Rattle.std.specs.Prelude.{◌≡◌, Bool, IsTrue};
ghost use Rattle.op_base.specs.Object.{same_object};
ghost use Rattle.op_base.specs.declared.operation.Update.{Update};

use op_base::Update;

/// Which operations a log keeps, and which later operation covers an earlier one. No call takes memory.
pub trait TypeRule {
    /// Whether an operation is logged while it is unstable and uncovered.
    ghost keeps: { Self → Update → Bool };

    /// Whether a later operation covers an earlier one.
    ghost covers: { Self → Update → Update → Bool };

    /// Whether an operation is logged while it is unstable and uncovered.
    fn keeps(&self, update: &Update) -> bool
        ensures { result ≡ keeps self.now update.now };

    /// Whether a later operation covers an earlier one. It makes no difference here which happened first.
    fn covers(&self, later: &Update, earlier: &Update) -> bool
        ensures { result ≡ covers self.now later.now earlier.now };

    /// An operation covers those of its own object alone.
    ghost one_object: { (r : Self) (later earlier : Update) → IsTrue (covers r later earlier)
        → IsTrue (same_object later.object earlier.object) };

    /// Only what is logged is covered.
    ghost kept_alone: { (r : Self) (later earlier : Update) → IsTrue (covers r later earlier) → IsTrue (keeps r earlier) };

    /// What covers an operation covers what that covers.
    ghost transitive: { (r : Self) (last later earlier : Update) → IsTrue (covers r last later)
        → IsTrue (covers r later earlier) → IsTrue (covers r last earlier) };
}
