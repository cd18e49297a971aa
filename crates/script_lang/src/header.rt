//! The headers of scripts and of live inputs.

ghost use Rattle.std.specs.Prelude.{◌≡◌, ◌&&◌, IfSome, IsTrue, map};
ghost use Rattle.script_lang.specs.Headers.{is_from_to, are_in_range, is_in_range, in_range, script_header, sized_header, live_header, header_words, header_of};

use crate::fault::MOST_LINE_BYTES;
use crate::number::read_number;
use crate::word::split;
use causal_model::{MOST_LIMIT, MOST_WINDOW};
use op_base::MOST_MEMBERS;

/// How many messages a member may send where the header doesn't say.
pub const USUAL_LIMIT: u32 = 10000;

/// How a script is run.
#[derive(Clone, Copy, Debug, PartialEq, Eq)]
pub enum Mode {
    /// On replicas that last as long as the script, behind a header `store`.
    Store,
    /// On durable replicas, which can be stopped, behind a header `keep`.
    Keep,
}

/// What an input begins with.
#[derive(Clone, Copy, Debug, PartialEq, Eq)]
pub enum Header {
    /// A script, at a store of `n` members, 1 to 16, with a window of `w`, 1 to 64, and a limit of 1 to 1000000
    /// messages a member.
    Store {
        n: u8,
        w: u8,
        limit: u32,
    },
    /// A script at durable replicas, which can be stopped, with numbers of the same ranges.
    Keep {
        n: u8,
        w: u8,
        limit: u32,
    },
    /// A live input, at a store of `n` members with a window of `w`, with 1 to 8 clients, at most 10000 turns and a loss
    /// of at most 1000000.
    Live {
        n: u8,
        w: u8,
        clients: u8,
        turns: u32,
        loss: u32,
    },
}

/// The header that a line is. `None` exactly where it is none: it has more than 16384 bytes or other words, or a number
/// is none or out of its range.
pub fn read_header(line: &[u8]) -> Option<Header>
    ensures header { result ≡ header_of line.now }
    ensures in_range { IfSome result (λ h. IsTrue (is_in_range h)) }
{
    if line.len() > MOST_LINE_BYTES {
        return None;
    }
    header_words(split(line).as_slice())
}

/// The header that words are.
fn header_words(words: &[&[u8]]) -> Option<Header>
    ensures header { result ≡ header_words (map (λ word. word.now) words.now) }
    ensures in_range { IfSome result (λ h. IsTrue (is_in_range h)) }
{
    match words {
        [b"store", words @ ..] => sized_header(Mode::Store, words),
        [b"keep", words @ ..] => sized_header(Mode::Keep, words),
        [b"live", words @ ..] => live_header(words),
        _ => None,
    }
}

/// The header of the words behind that of a script's mode.
fn sized_header(mode: Mode, words: &[&[u8]]) -> Option<Header>
    ensures header { result ≡ sized_header mode (map (λ word. word.now) words.now) }
    ensures in_range { IfSome result (λ h. IsTrue (is_in_range h)) }
{
    match words {
        [n, w] => script_header(mode, read_number(n)?, read_number(w)?, USUAL_LIMIT),
        [n, w, limit] => script_header(mode, read_number(n)?, read_number(w)?, read_number(limit)?),
        _ => None,
    }
}

/// The header of the words behind `live`.
fn live_header(words: &[&[u8]]) -> Option<Header>
    ensures header { result ≡ live_header (map (λ word. word.now) words.now) }
    ensures in_range { IfSome result (λ h. IsTrue (is_in_range h)) }
{
    match words {
        [n, w, clients, turns, loss] => live(
            read_number(n)?,
            read_number(w)?,
            read_number(clients)?,
            read_number(turns)?,
            read_number(loss)?,
        ),
        _ => None,
    }
}

/// Whether a store may have so many members, and such a window.
fn are_members_and_window(n: u32, w: u32) -> bool
    ensures { result ≡ (is_from_to 1 16 n && is_from_to 1 64 w) }
{
    is_from_to(1, MOST_MEMBERS as u32, n) && is_from_to(1, u32::from(MOST_WINDOW), w)
}

/// Whether a number is from the one to the other.
pub fn is_from_to(least: u32, most: u32, x: u32) -> bool
    ensures { result ≡ is_from_to least most x }
{
    least <= x && x <= most
}

/// The header of a script of a mode with these numbers, where they are in range.
fn script_header(mode: Mode, n: u32, w: u32, limit: u32) -> Option<Header>
    ensures { result ≡ in_range (script_header mode n w limit) }
{
    if !(are_members_and_window(n, w) && is_from_to(1, MOST_LIMIT, limit)) {
        return None;
    }
    let (n, w) = (n as u8, w as u8);
    Some(match mode {
        Mode::Store => Header::Store { n, w, limit },
        Mode::Keep => Header::Keep { n, w, limit },
    })
}

/// The header of a live input with these numbers, where they are in range.
fn live(n: u32, w: u32, clients: u32, turns: u32, loss: u32) -> Option<Header>
    ensures { result ≡ in_range (Header.Live n w clients turns loss) }
{
    if !(are_members_and_window(n, w)
        && is_from_to(1, 8, clients)
        && turns <= 10_000
        && loss <= 1_000_000)
    {
        return None;
    }
    Some(Header::Live {
        n: n as u8,
        w: w as u8,
        clients: clients as u8,
        turns,
        loss,
    })
}
