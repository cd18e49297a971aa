//! Laws of a state's buffer.

ghost use Rattle.causal_buffer.specs.Standing.{OwnKeepsBuffer, MemberIsInStore, CountsAreOfStore, EarlyAreAhead, EarlyAreNear, NextIdIsOfMessage, NextIsOfMember};

/// An own message leaves a state's buffer as it is, and makes none next.
pub fn own_messages_leave_a_buffer()
    ensures { OwnKeepsBuffer }
{}

/// What the calls ask of the member, the counts and the early messages holds of a state's buffer.
pub fn states_meet_what_is_asked()
    ensures member { MemberIsInStore }
    ensures counts { CountsAreOfStore }
    ensures ahead { EarlyAreAhead }
    ensures near { EarlyAreNear }
    ensures next { NextIdIsOfMessage }
    ensures next_member { NextIsOfMember }
{}
