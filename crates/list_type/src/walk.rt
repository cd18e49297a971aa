//! Walks over rows.

ghost use Rattle.std.specs.Prelude.{◌≡◌, ℕ, Bool, List, ◌++◌, Option};
ghost use Rattle.std.specs.Fn.{FnReturnsAt};
ghost use Rattle.list_type.specs.Chained.{passed, from_unpassed, IsParted, IsPlace, OfPlace};

use crate::Chains;

/// The place behind those that stand in a row behind a slot, or from its front on at `None`, and pass a test, as far as
/// each does: the last of them, or the slot itself where the first doesn't pass.
pub fn past<T, P: Fn(&T) -> bool>(
    chains: &Chains<T>,
    row: usize,
    ahead: Option<usize>,
    test: P,
) -> Option<usize>
    requires callable { P.IsAlwaysCallable test }
    requires place { IsPlace chains.now.rows row ahead }
    ensures place { IsPlace chains.now.rows row result }
    ensures past { (p : T → Bool) → ((value : T) (answer : Bool) → FnReturnsAt P.Fn test value answer → answer ≡ p value)
        → OfPlace chains.now.rows row ahead (λ before after. IsParted chains.now.rows row (before ++ passed p after) result (from_unpassed p after)) }
{
    let mut at = ahead;
    for _ in 0..chains.len(row) {
        let Some(slot) = chains.behind(row, at) else {
            return at;
        };
        if !test(chains.get(slot)) {
            return at;
        }
        at = Some(slot);
    }
    at
}
