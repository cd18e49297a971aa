//! Words of a line: the runs of bytes between spaces and tabs.

ghost use Rattle.std.specs.Prelude.{◌≡◌, ◌≤◌, ◌<◌, IfSome, [], ◌∷◌, length, take, map, MatchOption, not};
ghost use Rattle.std.specs.List.{position, position_or_len};
ghost use Rattle.op_base.specs.Name.{same_text};
ghost use Rattle.script_lang.specs.Words.{is_blank, words_of, is_passed_over, IsNotBlank};

use memchr::memchr2;

/// So many words of a line are looked at: one more than the longest line that means something has.
pub const MOST_WORDS: usize = 7;

/// A line of at most so many bytes is read byte by byte. A longer one has long words.
const MOST_SHORT: usize = 64;

/// The first words of a line, at most seven.
#[derive(Clone, Copy)]
pub struct Words<'a> {
    count: usize,
    parts: [&'a [u8]; MOST_WORDS],
    ghost few: { count ≤ 7 },
}

/// Whether a byte parts words: a space or a tab.
fn is_blank(b: u8) -> bool
    ensures { result ≡ is_blank b }
{
    b == b' ' || b == b'\t'
}

/// The place of a line's first byte that isn't blank.
fn first_letter(line: &[u8]) -> Option<usize>
    ensures { result ≡ position (λ b. not (is_blank b)) line.now }
{
    line.iter().position(|b| !is_blank(*b))
}

/// The place of a line's first blank, or the line's length.
fn first_blank(line: &[u8]) -> usize
    ensures place { result ≡ position_or_len is_blank line.now }
    ensures within { result ≤ length line.now }
{
    memchr2(b' ', b'\t', line).unwrap_or(line.len())
}

/// The line from its first byte on that isn't blank.
fn skip_blanks(line: &[u8]) -> &[u8]
    ensures words { words_of result.now ≡ words_of line.now }
    ensures shorter { length result.now ≤ length line.now }
    ensures begins { IsNotBlank result.now }
{
    &line[first_letter(line).unwrap_or(line.len())..]
}

/// The line's first word, and what follows it.
fn next_word(line: &[u8]) -> Option<(&[u8], &[u8])>
    ensures words { MatchOption result (words_of line.now ≡ []) (λ found. words_of line.now ≡ found.0.now ∷ words_of found.1.now) }
    ensures shorter { IfSome result (λ found. length found.1.now < length line.now) }
    ensures some { IfSome result (λ found. 0 < length found.0.now) }
{
    let line = skip_blanks(line);
    if line.is_empty() {
        return None;
    }
    Some(line.split_at(first_blank(line)))
}

/// The first words of a line, at most seven. Nothing behind them is looked at.
pub fn split(line: &[u8]) -> Words<'_>
    ensures { map (λ word. word.now) (take result.count result.parts) ≡ take 7 (words_of line.now) }
{
    let mut parts = [&line[..0]; MOST_WORDS];
    let count = find_words(line, &mut parts);
    Words { count, parts }
}

/// Puts the first words of a line into places, at most seven, and tells how many there are.
pub fn find_words<'a>(line: &'a [u8], parts: &mut [&'a [u8]; MOST_WORDS]) -> usize
    ensures few { result ≤ 7 }
    ensures places { length parts.new ≡ 7 }
    ensures words { map (λ word. word.now) (take result parts.new) ≡ take 7 (words_of line.now) }
{
    if line.len() <= MOST_SHORT {
        short_words(line, parts)
    } else {
        long_words(line, parts)
    }
}

/// The same in one loop over the bytes.
fn short_words<'a>(line: &'a [u8], parts: &mut [&'a [u8]; MOST_WORDS]) -> usize
    ensures few { result ≤ 7 }
    ensures places { length parts.new ≡ 7 }
    ensures words { map (λ word. word.now) (take result parts.new) ≡ take 7 (words_of line.now) }
{
    let mut count = 0;
    let mut start = 0;
    for (at, b) in line.iter().enumerate() {
        // One comparison tells of most bytes that they are in a word.
        if *b <= b' ' && is_blank(*b) {
            if start < at {
                parts[count] = &line[start..at];
                count += 1;
                if count == MOST_WORDS {
                    return count;
                }
            }
            start = at + 1;
        }
    }
    if start == line.len() {
        return count;
    }
    parts[count] = &line[start..];
    count + 1
}

/// The same, a search for each blank behind a word.
#[inline(never)]
fn long_words<'a>(line: &'a [u8], parts: &mut [&'a [u8]; MOST_WORDS]) -> usize
    ensures few { result ≤ 7 }
    ensures places { length parts.new ≡ 7 }
    ensures words { map (λ word. word.now) (take result parts.new) ≡ take 7 (words_of line.now) }
{
    let mut count = 0;
    let mut rest = line;
    while count < MOST_WORDS
        && let Some((word, after)) = next_word(rest)
    {
        parts[count] = word;
        count += 1;
        rest = after;
    }
    count
}

impl<'a> Words<'a> {
    /// The words.
    pub fn as_slice(&self) -> &[&'a [u8]]
        ensures { result.now ≡ take self.now.count self.now.parts }
    {
        &self.parts[..self.count]
    }
}

/// Whether a line is passed over: it has no word, or its first begins with `#`.
pub fn is_passed_over(line: &[u8]) -> bool
    ensures { result ≡ is_passed_over line.now }
{
    match skip_blanks(line) {
        [] => true,
        [first, ..] => *first == b'#',
    }
}

/// Whether a word is a text.
pub fn is_text(word: &[u8], text: &[u8]) -> bool
    ensures { result ≡ same_text word.now text.now }
{
    word == text
}
