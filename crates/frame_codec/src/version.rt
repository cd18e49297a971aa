//! The two versions of frames, and what differs between them.

ghost use Rattle.std.specs.Prelude.{◌≡◌, ◌≤◌};
ghost use Rattle.frame_codec.specs.Grammar.{version_byte, carries_length, last_code};
ghost use Rattle.frame_codec.specs.Fault.{version_at, head_len, length_len, is_read_in};

/// A version of frames.
#[derive(Clone, Copy, Debug, PartialEq, Eq)]
pub enum Version {
    /// It has no epoch and no lists, a length is one byte, and a value has at most 64 bytes. It is read in epoch 0 alone.
    One,
    /// It has an epoch, a length is two bytes, and a value may have any length. It is read and written.
    Two,
}

/// The most bytes of a value in version 1.
const MOST_OLD_VALUE_BYTES: usize = 64;

impl Version {
    /// The version by which bytes are read: the second where they begin with 2.
    pub fn at(bytes: &[u8]) -> Version
        ensures { result ≡ version_at bytes.now }
    {
        match bytes.first() {
            Some(2) => Version::Two,
            _ => Version::One,
        }
    }

    /// The byte that begins its frames.
    pub fn byte(self) -> u8
        ensures { result ≡ version_byte self }
    {
        match self {
            Version::One => 1,
            Version::Two => 2,
        }
    }

    /// How many bytes stand in front of the timestamp, 4 or 8.
    pub fn head_len(self) -> usize
        ensures exact { result ≡ head_len self }
        ensures least { 4 ≤ result }
        ensures most { result ≤ 8 }
    {
        match self {
            Version::One => 4,
            Version::Two => 8,
        }
    }

    /// How many bytes a length has.
    pub fn length_len(self) -> usize
        ensures { result ≡ length_len self }
    {
        match self {
            Version::One => 1,
            Version::Two => 2,
        }
    }

    /// Whether it is read in an epoch.
    pub fn is_read_in(self, epoch: u32) -> bool
        ensures { result ≡ is_read_in self epoch }
    {
        match self {
            Version::One => epoch == 0,
            Version::Two => true,
        }
    }

    /// The greatest code that it has, 19 or 22.
    pub fn last_code(self) -> u8
        ensures exact { result ≡ last_code self }
        ensures most { result ≤ 22 }
    {
        match self {
            Version::One => 19,
            Version::Two => 22,
        }
    }

    /// Whether it has values of so many bytes.
    pub fn carries(self, len: usize) -> bool
        ensures { result ≡ carries_length self len }
    {
        match self {
            Version::One => len <= MOST_OLD_VALUE_BYTES,
            Version::Two => true,
        }
    }
}
