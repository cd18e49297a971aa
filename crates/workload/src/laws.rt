//! Laws of made scripts.

ghost use Rattle.workload.specs.Laws.{HasHeader};

/// A made script begins with the header of its store.
pub fn made_scripts_begin_with_a_header()
    ensures { HasHeader }
{}
