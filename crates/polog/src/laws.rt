//! Laws of logs that stand for a history.

ghost use Rattle.polog.specs.Laws.{UnkeptIsLogged, PrunedHasRoom, LoggedIsStripping};

/// A message that isn't kept leaves the pruned log as it is.
pub fn what_is_not_kept_changes_nothing()
    ensures { UnkeptIsLogged }
{}

/// The pruned log has room for a next message that is kept.
pub fn a_pruned_log_has_room()
    ensures { PrunedHasRoom }
{}

/// A log that has a message can be stripped entry by entry of what is stable with it.
pub fn what_is_logged_can_be_stripped()
    ensures { LoggedIsStripping }
{}
