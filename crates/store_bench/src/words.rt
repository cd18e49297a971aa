//! Numbers among the words.

use anyhow::{Context, Result};

/// The number that a word is.
pub fn number(word: &str) -> Result<u32> {
    Ok(word.parse::<u32>().context("reading a number")?)
}

/// The number below 256 that a word is.
pub fn small(word: &str) -> Result<u8> {
    Ok(word.parse::<u8>().context("reading a small number")?)
}
