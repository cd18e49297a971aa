//! Text in a picture, whatever characters it has.

ghost use Rattle.std.specs.Prelude.{◌≡◌, ◌++◌, OnOk, string_bytes, chars};
ghost use Rattle.script_draw.specs.Escape.{is_shown, escaped_char, escaped};

use op_base::NoMemory;

/// Whether a character can stand in a picture's text by itself: it is no control character, and XML allows it.
pub fn is_shown(c: char) -> bool
    ensures { result ≡ is_shown c }
{
    c >= ' ' && !(c >= '\u{7F}' && c <= '\u{9F}') && c != '\u{FFFE}' && c != '\u{FFFF}'
}

/// Puts what stands for a character.
fn put_char(c: char, out: &mut String) -> Result<(), NoMemory>
    ensures { OnOk result (string_bytes out.new ≡ string_bytes out.old ++ escaped_char c) }
{
    match c {
        '&' => out.push_str("&amp;")?,
        '<' => out.push_str("&lt;")?,
        '>' => out.push_str("&gt;")?,
        '"' => out.push_str("&quot;")?,
        c if is_shown(c) => out.push(c)?,
        _ => out.push('\u{FFFD}')?,
    }
    Ok(())
}

/// Puts a text at the end of a picture: marks of XML by their names, and U+FFFD for what can't be shown. On `NoMemory` a
/// part of it may stand there.
pub fn put_escaped(text: &str, out: &mut String) -> Result<(), NoMemory>
    ensures { OnOk result (string_bytes out.new ≡ string_bytes out.old ++ escaped (chars text.now)) }
{
    for c in text.chars() {
        put_char(c, out)?;
    }
    Ok(())
}
