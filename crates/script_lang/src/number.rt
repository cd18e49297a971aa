//! Numbers of a line: 1 to 10 digits, below 2^32.

ghost use Rattle.std.specs.Prelude.{◌≡◌};
ghost use Rattle.std.specs.List.{list_all};
ghost use Rattle.script_lang.specs.Numbers.{is_digit, number_of};

/// Whether each byte of a word is a decimal digit.
pub fn are_digits(word: &[u8]) -> bool
    ensures { result ≡ list_all is_digit word.now }
{
    word.iter().all(|b| *b >= b'0' && *b <= b'9')
}

/// The number that a word is, where it is one. Leading zeros are let in.
pub fn read_number(word: &[u8]) -> Option<u32>
    ensures { result ≡ number_of word.now }
{
    if word.is_empty() || word.len() > 10 {
        return None;
    }
    let mut value: u64 = 0;
    for b in word {
        if *b < b'0' || b'9' < *b {
            return None;
        }
        value = 10 * value + u64::from(*b - b'0');
    }
    if value > u64::from(u32::MAX) {
        return None;
    }
    Some(value as u32)
}
