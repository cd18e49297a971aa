//! What a line is, whatever its commands are.

ghost use Rattle.std.specs.Prelude.{◌≡◌};
ghost use Rattle.script_lang.specs.Lines.{bad_line};

/// What a line is, with commands of a type.
#[derive(Debug, PartialEq, Eq, Drop)]
pub enum LineOf<C> {
    /// It has no word, or its first begins with `#`.
    Skip,
    /// It is a command.
    Run(C),
    /// It is no command, with the number of its fault, 1 to 8.
    Bad(u8),
    /// There is no memory for what it keeps.
    NoMemory,
}

/// The line of a fault's number.
pub fn bad_line<C>(number: Option<u8>) -> LineOf<C>
    ensures { result ≡ bad_line number }
{
    match number {
        Some(code) => LineOf::Bad(code),
        None => LineOf::NoMemory,
    }
}
