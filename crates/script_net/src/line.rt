//! Lines of a script: what stands between newlines, without a carriage return at its end.

ghost use Rattle.std.specs.Prelude.{◌≡◌, ◌<◌, [], ◌∷◌, length, MatchOption, IfSome};
ghost use Rattle.std.specs.List.{position, slice_split};
ghost use Rattle.std.specs.Str.Lines.{strip_carriage_return};
ghost use Rattle.script_net.specs.Lines.{is_newline};

use memchr::memchr;

/// A line without the carriage return at its end, where it has one there.
pub fn without_return(line: &[u8]) -> &[u8]
    ensures { result.now ≡ strip_carriage_return line.now }
{
    match line {
        [front @ .., b'\r'] => front,
        _ => line,
    }
}

/// The place of the first newline.
fn first_newline(bytes: &[u8]) -> Option<usize>
    ensures { result ≡ position is_newline bytes.now }
{
    memchr(b'\n', bytes)
}

/// The bytes in front of the first newline and those behind it, where there is one.
pub fn split_line(bytes: &[u8]) -> Option<(&[u8], &[u8])>
    ensures parts { MatchOption result (slice_split is_newline bytes.now ≡ bytes.now ∷ [])
        (λ found. slice_split is_newline bytes.now ≡ found.0.now ∷ slice_split is_newline found.1.now) }
    ensures shorter { IfSome result (λ found. length found.1.now < length bytes.now) }
{
    match first_newline(bytes) {
        Some(at) => Some((&bytes[..at], &bytes[at + 1..])),
        None => None,
    }
}
