//! Worked transcripts: that the definition means what was meant. Each is the contract of a function that does nothing.

ghost use Rattle.script_net.specs.Worked.{OneMemberCounts, AMessageIsTaken, AWindowIsFull, BytesAreNoFrame, AMessageIsDropped, LinesArePassedOver, MembersChange, ReplicasAreStopped, NoStoreIsStopped};

/// One member counts, and is asked.
pub fn one_member_counts()
    ensures { OneMemberCounts }
{}

/// A message that is given is delivered.
pub fn a_message_is_taken()
    ensures { AMessageIsTaken }
{}

/// A window of one operation is full with one.
pub fn a_window_is_full()
    ensures { AWindowIsFull }
{}

/// Bytes that are no frame are told by their fault.
pub fn bytes_are_no_frame()
    ensures { BytesAreNoFrame }
{}

/// A message that its sender's window has no room for is dropped.
pub fn a_message_is_dropped()
    ensures { AMessageIsDropped }
{}

/// A comment and an empty line have no reply.
pub fn lines_are_passed_over()
    ensures { LinesArePassedOver }
{}

/// A member comes, and can't go until its update is stable.
pub fn members_change()
    ensures { MembersChange }
{}

/// A replica that is stopped forgets what wasn't synced, but for whole records that outlive it.
pub fn replicas_are_stopped()
    ensures stopped { ReplicasAreStopped }
    ensures store { NoStoreIsStopped }
{}
