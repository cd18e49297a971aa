//! Labels: short texts of names and replies.

use crate::escape::is_shown;
use op_base::NoMemory;
use std::alloc::Global;
use unicode_width::{UnicodeWidthChar, UnicodeWidthStr};

/// A label has at most so many columns, and an ellipsis where it was cut.
pub const MOST_COLUMNS: usize = 26;

/// The label of a text: its first characters, as many as there is room for.
pub fn label_of(alloc: Global, text: &[u8]) -> Result<String, NoMemory> {
    let text = String::from_utf8_lossy(alloc, text)?;
    cut(alloc, text.as_str(), MOST_COLUMNS)
}

/// The first characters of a text, as many as have room in so many columns, with U+FFFD for what can't be shown.
pub fn cut(alloc: Global, text: &str, most: usize) -> Result<String, NoMemory> {
    let mut label = String::new(alloc);
    let mut columns = 0usize;
    for c in text.chars() {
        columns = columns.saturating_add(c.width().unwrap_or(1));
        if columns > most {
            label.push('…')?;
            break;
        }
        label.push(if is_shown(c) { c } else { '\u{FFFD}' })?;
    }
    Ok(label)
}

/// Words with a space between them, as a label.
pub fn label_of_words(alloc: Global, words: &[&[u8]]) -> Result<String, NoMemory> {
    let mut text = Vec::new(alloc);
    for word in words {
        if !text.is_empty() {
            text.push(b' ')?;
        }
        text.extend_from_slice(word)?;
    }
    label_of(alloc, &text)
}

/// How wide a label is, in pixels.
pub fn width_of(label: &str) -> u32 {
    label.width().min(100) as u32 * 7
}
