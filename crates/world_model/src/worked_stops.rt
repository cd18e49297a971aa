//! A worked store whose replicas are stopped: that the definitions mean what was meant. Each is the contract of a function that
//! does nothing.

ghost use Rattle.world_model.specs.WorkedStops.{RecordsAreRead, StopsLoseWhatIsNotSynced};

/// A member is stopped before what it received outlives it, after that, and after it confirmed it.
pub fn stops_lose_what_is_not_synced()
    ensures { StopsLoseWhatIsNotSynced }
{}

/// Whole records are read back, up to the first fault; a torn end is none.
pub fn records_are_read_up_to_the_first_fault()
    ensures { RecordsAreRead }
{}
