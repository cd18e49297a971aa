//! Laws of the sums of counters.

ghost use Rattle.counter_types.specs.Laws.{SettledSumsAreInRange};

/// The sum of an item is in the range that `count_sum` asks for, after every history.
pub fn sums_of_histories_are_in_range()
    ensures { SettledSumsAreInRange }
{}
