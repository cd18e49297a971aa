//! What the calls answer, and the numbers that C sees of it.

ghost use Rattle.std.specs.Prelude.{◌≡◌};
ghost use Rattle.peer_c.specs.Codes.{code_of};

/// What a call answers.
#[derive(Clone, Copy, Debug, PartialEq, Eq)]
pub enum Outcome {
    /// It was done. Of bytes that were heard: messages were delivered or dropped.
    Done,
    /// There is no memory. Nothing changed.
    NoMemory,
    /// The handle has no peer.
    NoPeer,
    /// The handle has a peer already.
    HasPeer,
    /// There is too little room for what is handed out. Nothing was written.
    NoRoom,
    /// A number is out of its range.
    BadNumbers,
    /// As many own operations are unstable as the window has. Nothing was sent.
    Busy,
    /// The member has sent all the messages that it may. Nothing was sent.
    End,
    /// No no-op is due. Nothing was sent.
    Quiet,
    /// As many own no-ops are unstable as their window has. Nothing was sent.
    Held,
    /// The message is early: one that it has seen is missing.
    Kept,
    /// The message is an own one, or one of its member and number was delivered.
    Old,
    /// A message of its member and number is early already.
    Again,
    /// The message is too far ahead.
    Far,
    /// There is no frame at this place.
    NoFrame,
    /// The text is no update or no object, with the number of its fault.
    BadText(u8),
    /// The bytes are no frame of the store, with the number of their fault.
    BadFrame(u8),
}

impl Outcome {
    /// Its number.
    pub fn code(self) -> i32
        ensures { result ≡ code_of self }
    {
        match self {
            Outcome::Done => 0,
            Outcome::NoMemory => 1,
            Outcome::NoPeer => 2,
            Outcome::HasPeer => 3,
            Outcome::NoRoom => 4,
            Outcome::BadNumbers => 5,
            Outcome::Busy => 6,
            Outcome::End => 7,
            Outcome::Quiet => 8,
            Outcome::Held => 9,
            Outcome::Kept => 10,
            Outcome::Old => 11,
            Outcome::Again => 12,
            Outcome::Far => 13,
            Outcome::NoFrame => 14,
            Outcome::BadText(fault) => 20 + i32::from(fault),
            Outcome::BadFrame(fault) => 40 + i32::from(fault),
        }
    }
}
