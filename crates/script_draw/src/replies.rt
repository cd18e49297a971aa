//! What replies say, read from their text.

use op_base::{MessageId, NoMemory};
use script_lang::read_number;
use std::alloc::Global;

/// One step of a reply: a message, and whether it was dropped.
#[derive(Clone, Copy, Debug, PartialEq, Eq)]
pub struct Told {
    pub id: MessageId,
    pub is_dropped: bool,
}

/// Whether a word is a text.
pub fn is_word(word: &[u8], text: &[u8]) -> bool {
    word == text
}

/// A text's first word, and what follows the space behind it.
pub fn first_word(text: &[u8]) -> (&[u8], &[u8]) {
    match text.iter().position(|b| *b == b' ') {
        Some(at) => (&text[..at], &text[at + 1..]),
        None => (text, b""),
    }
}

/// The id that a text `k:s` is.
pub fn read_id(text: &[u8]) -> Option<MessageId> {
    let colon = text.iter().position(|b| *b == b':')?;
    let origin = read_number(&text[..colon])?;
    let seq = read_number(&text[colon + 1..])?;
    if origin > 255 {
        return None;
    }
    Some(MessageId {
        origin: origin as u8,
        seq,
    })
}

/// The step that a word of a reply is: `k:s` or `!k:s`.
pub fn read_step(word: &[u8]) -> Option<Told> {
    match word {
        [b'!', rest @ ..] => Some(Told {
            id: read_id(rest)?,
            is_dropped: true,
        }),
        _ => Some(Told {
            id: read_id(word)?,
            is_dropped: false,
        }),
    }
}

/// How many members there are from now on, where a reply to a line's words says that an epoch begins.
pub fn members_by(words: &[&[u8]], reply: &[u8]) -> Option<u8> {
    let (first, _) = first_word(reply);
    match words {
        [b"members", count] if is_word(first, b"epoch") => {
            Some(read_number(count)?.min(16) as u8)
        }
        _ => None,
    }
}

/// The numbers in a text, whatever else is in it.
pub fn numbers_in(alloc: Global, text: &[u8]) -> Result<Vec<u32>, NoMemory> {
    let mut numbers = Vec::new(alloc);
    for word in text.split(|b| *b == b' ') {
        if let Some(number) = read_number(word) {
            numbers.push(number)?;
        }
    }
    Ok(numbers)
}
