//! Laws over the words of the contracts. Each is the contract of a function that does nothing.

ghost use Rattle.live_run.specs.Mails.{PostedWasSent};
ghost use Rattle.live_run.specs.Meeting.{WhatWasMetWasSent};
ghost use Rattle.live_run.specs.Ended.{SettledIsRun, WorkersHaveRun};
ghost use Rattle.live_run.specs.Worked.{RunIsWorked};

/// Where every pass of a mailbox was joined, and each posted only what its courier's replica had sent, all that was ever
/// posted was sent by a replica.
pub fn what_was_posted_was_sent()
    ensures posted { PostedWasSent }
    ensures met { WhatWasMetWasSent }
{}

/// A client adds 5 to a counter and asks for it: the text.
pub fn a_run_is_worked()
    ensures { RunIsWorked }
{}

/// What clients were told and nodes noted is a run but for its settling, once all workers are back and all that was posted was
/// sent; it is one once that has settled.
pub fn what_workers_did_is_a_run()
    ensures run { WorkersHaveRun }
    ensures settled { SettledIsRun }
{}
