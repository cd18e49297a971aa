//! Letting go of what is stable, of the members of which something is.

ghost use Rattle.std.specs.Prelude.{◌≡◌, ℕ, ◌<◌, [], length, slice_index_or, slice_set, IsTrue};
ghost use Rattle.op_base.specs.Timestamp.{entry};
ghost use Rattle.tag_window.specs.Queue.{Line, left_of};
ghost use Rattle.tag_window.specs.Queues.{AreOfMembers, AreFirsts};

use crate::queue::Queue;
use op_base::Tag;

/// Whether a timestamp is everywhere below another of as many members.
pub fn is_everywhere_below(low: &Tag, high: &Tag) -> bool
    requires { length low.now ≡ length high.now }
    ensures { IsTrue result → (x : ℕ) → x < length low.now → entry low.now x < entry high.now x }
{
    high.count_above(low) == u32::from(high.members())
}

/// Lets go of all timestamps that are stable where these are the stable counts. `firsts` has a number for each member that is
/// not above any number held of it, so that nothing is looked at where nothing is stable.
pub fn drop_of_each(queues: &mut Vec<Queue>, firsts: &mut Tag, stable: &Tag)
    requires members { AreOfMembers queues.old.items }
    requires entries { length stable.now ≡ length queues.old.items }
    requires firsts { AreFirsts firsts.old queues.old.items }
    ensures same { length queues.new.items ≡ length queues.old.items }
    ensures left { (x : ℕ) (q : Line) → x < length queues.old.items → slice_index_or queues.new.items x q ≡ left_of stable.now (slice_index_or queues.old.items x q) }
    ensures firsts { AreFirsts firsts.new queues.new.items }
{
    for x in 0..stable.members() {
        drop_of(queues, firsts, stable, x);
    }
}

/// Lets go of what is stable of one member.
fn drop_of(queues: &mut Vec<Queue>, firsts: &mut Tag, stable: &Tag, x: u8)
    requires member { x < length queues.old.items }
    requires entries { length stable.now ≡ length queues.old.items }
    requires of_store { (q : Line) → (slice_index_or queues.old.items x q).n ≡ length queues.old.items }
    requires of_member { (q : Line) → (slice_index_or queues.old.items x q).origin ≡ x }
    requires firsts { AreFirsts firsts.old queues.old.items }
    ensures left { (q : Line) → queues.new.items ≡ slice_set queues.old.items x (left_of stable.now (slice_index_or queues.old.items x q)) }
    ensures firsts { AreFirsts firsts.new queues.new.items }
{
    if stable.at(x) < firsts.at(x) {
        return;
    }
    let first = queues[x as usize].drop_stable(stable);
    firsts.set(x, first);
}

/// Lets go of all timestamps of all members.
pub fn clear_each(queues: &mut Vec<Queue>)
    ensures same { length queues.new.items ≡ length queues.old.items }
    ensures empty { (x : ℕ) (q : Line) → x < length queues.old.items → slice_index_or queues.new.items x q ≡ record (slice_index_or queues.old.items x q) { held = [] } }
{
    for x in 0..queues.len() {
        queues[x].clear();
    }
}
