//! Laws of records, and of what stops leave of them. Each is the contract of a function that does nothing.

ghost use Rattle.replica_keeper.specs.Laws.{FrontsAreRead, WhatWasSentStays};

/// Bytes that are cut anywhere are read as a front of what they were read as.
pub fn a_front_of_bytes_is_read_as_a_front()
    ensures { FrontsAreRead }
{}

/// What a replica sent is there after any stop.
pub fn what_was_sent_outlives_stops()
    ensures { WhatWasSentStays }
{}
