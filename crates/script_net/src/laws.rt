//! Laws of transcripts. Each is the contract of a function that does nothing.

ghost use Rattle.script_net.specs.Laws.{CommandsAreRepliedTo, ScriptsKeepWorlds, MembersAreAsked, MembersStay, LogsAreBounded, KeepCommandsAreRepliedTo, BusyIsExact, EqualEventsAnswerAlike, OneLineMoreReplies, OneLineMoreLeaves, RefusedBytesChangeNothing, RefusedBytesGo};
ghost use Rattle.script_net.specs.HonestLaws.{ScriptsAreHonest, KeepScriptsAreHonest, TranscriptsAreFair};

/// Behind a header each line of a script leaves a world of the header's store, whose logs are bounded. A change of
/// members that is replied to by an epoch leaves as many as it asks for, in that epoch; a line that asks for none leaves them.
pub fn scripts_keep_worlds()
    ensures worlds { ScriptsKeepWorlds }
    ensures asked { MembersAreAsked }
    ensures stay { MembersStay }
    ensures logs { LogsAreBounded }
{}

/// What a line is replied to: something, where it has a command; `busy` exactly where the window is full, and the same answer
/// by replicas of the same events, at one point of a script or at two.
pub fn lines_are_replied_to()
    ensures each { CommandsAreRepliedTo }
    ensures each_kept { KeepCommandsAreRepliedTo }
    ensures busy { BusyIsExact }
    ensures answers { EqualEventsAnswerAlike }
{}

/// A script may be read as it comes: one line more adds its own reply.
pub fn one_line_more()
    ensures replies { OneLineMoreReplies }
    ensures leaves { OneLineMoreLeaves }
{}

/// A line whose bytes are refused changes nothing: where it is removed, its reply alone goes.
pub fn refused_bytes_change_nothing()
    ensures nothing { RefusedBytesChangeNothing }
    ensures goes { RefusedBytesGo }
{}

/// Where no line offers bytes the world is honest after every line, and no reply tells of a message that is far or dropped, of
/// a beat that is held or of a store that didn't settle. That the store hasn't settled may be told to a change of members. So
/// it is where replicas are stopped, since no line of such a script offers bytes.
pub fn unforged_scripts_are_honest()
    ensures worlds { ScriptsAreHonest }
    ensures stops { KeepScriptsAreHonest }
    ensures fair { TranscriptsAreFair }
{}
