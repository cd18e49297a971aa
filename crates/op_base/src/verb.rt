//! The table of operations: what can be done to the objects of each kind, the code of each, its word, and what stands
//! behind it. This project's own profile.

ghost use Rattle.std.specs.Prelude.{◌≡◌, ◌≤◌};
ghost use Rattle.op_base.specs.Verb.{verb_word, verb_of_word, argument_of, code_of, operation_of};

use crate::name::Kind;

/// What an act does, without its argument.
#[derive(Clone, Copy, Debug, PartialEq, Eq)]
pub enum Verb {
    /// Puts a value into a set.
    Add,
    /// Takes a value out of a set.
    Rmv,
    /// Sets a flag.
    Enable,
    /// Unsets a flag.
    Disable,
    /// Writes a register.
    Write,
    /// Adds an amount to a counter.
    Inc,
    /// Takes an amount from a counter.
    Dec,
    /// Puts a value into a list.
    Ins,
    /// Takes an element out of a list.
    Del,
    /// Undoes what happened before it.
    Clear,
}

/// What stands behind a verb.
#[derive(Clone, Copy, Debug, PartialEq, Eq)]
pub enum Argument {
    /// Nothing.
    Nothing,
    /// A value.
    Value,
    /// An amount.
    Amount,
    /// A value, and its place in a list.
    Insertion,
    /// The id of an element of a list.
    Element,
}

/// The operations by their codes, the first with code 1: the kind of an object, and what is done to it.
const OPERATIONS: [(Kind, Verb); 22] = [
    (Kind::AwSet, Verb::Add),
    (Kind::AwSet, Verb::Rmv),
    (Kind::AwSet, Verb::Clear),
    (Kind::RwSet, Verb::Add),
    (Kind::RwSet, Verb::Rmv),
    (Kind::RwSet, Verb::Clear),
    (Kind::EwFlag, Verb::Enable),
    (Kind::EwFlag, Verb::Disable),
    (Kind::EwFlag, Verb::Clear),
    (Kind::DwFlag, Verb::Enable),
    (Kind::DwFlag, Verb::Disable),
    (Kind::DwFlag, Verb::Clear),
    (Kind::MvReg, Verb::Write),
    (Kind::MvReg, Verb::Clear),
    (Kind::Counter, Verb::Inc),
    (Kind::Counter, Verb::Dec),
    (Kind::RCounter, Verb::Inc),
    (Kind::RCounter, Verb::Dec),
    (Kind::RCounter, Verb::Clear),
    (Kind::List, Verb::Ins),
    (Kind::List, Verb::Del),
    (Kind::List, Verb::Clear),
];

/// The operation of a code, 1 to 22: the kind of its objects, and what is done to them.
pub fn operation_of(code: u8) -> (Kind, Verb)
    requires from { 1 ≤ code }
    requires to { code ≤ 22 }
    ensures { result ≡ operation_of code }
{
    OPERATIONS[code as usize - 1]
}

impl Verb {
    /// The word that names it in texts.
    pub fn word(self) -> &'static str
        ensures { result.now ≡ verb_word self }
    {
        match self {
            Verb::Add => "add",
            Verb::Rmv => "rmv",
            Verb::Enable => "enable",
            Verb::Disable => "disable",
            Verb::Write => "write",
            Verb::Inc => "inc",
            Verb::Dec => "dec",
            Verb::Ins => "ins",
            Verb::Del => "del",
            Verb::Clear => "clear",
        }
    }

    /// The verb whose word this is, or `None` where it is no verb's.
    pub fn read(bytes: &[u8]) -> Option<Verb>
        ensures { result ≡ verb_of_word bytes.now }
    {
        match bytes {
            b"add" => Some(Verb::Add),
            b"rmv" => Some(Verb::Rmv),
            b"enable" => Some(Verb::Enable),
            b"disable" => Some(Verb::Disable),
            b"write" => Some(Verb::Write),
            b"inc" => Some(Verb::Inc),
            b"dec" => Some(Verb::Dec),
            b"ins" => Some(Verb::Ins),
            b"del" => Some(Verb::Del),
            b"clear" => Some(Verb::Clear),
            _ => None,
        }
    }

    /// What stands behind it.
    pub fn argument(self) -> Argument
        ensures { result ≡ argument_of self }
    {
        match self {
            Verb::Add | Verb::Rmv | Verb::Write => Argument::Value,
            Verb::Inc | Verb::Dec => Argument::Amount,
            Verb::Ins => Argument::Insertion,
            Verb::Del => Argument::Element,
            Verb::Enable | Verb::Disable | Verb::Clear => Argument::Nothing,
        }
    }

    /// The code of what is done to an object of a kind, 1 to 22. `None` exactly where it isn't done to such objects.
    pub fn code(self, kind: Kind) -> Option<u8>
        ensures { result ≡ code_of kind self }
    {
        let code = match (kind, self) {
            (Kind::AwSet, Verb::Add) => 1,
            (Kind::AwSet, Verb::Rmv) => 2,
            (Kind::AwSet, Verb::Clear) => 3,
            (Kind::RwSet, Verb::Add) => 4,
            (Kind::RwSet, Verb::Rmv) => 5,
            (Kind::RwSet, Verb::Clear) => 6,
            (Kind::EwFlag, Verb::Enable) => 7,
            (Kind::EwFlag, Verb::Disable) => 8,
            (Kind::EwFlag, Verb::Clear) => 9,
            (Kind::DwFlag, Verb::Enable) => 10,
            (Kind::DwFlag, Verb::Disable) => 11,
            (Kind::DwFlag, Verb::Clear) => 12,
            (Kind::MvReg, Verb::Write) => 13,
            (Kind::MvReg, Verb::Clear) => 14,
            (Kind::Counter, Verb::Inc) => 15,
            (Kind::Counter, Verb::Dec) => 16,
            (Kind::RCounter, Verb::Inc) => 17,
            (Kind::RCounter, Verb::Dec) => 18,
            (Kind::RCounter, Verb::Clear) => 19,
            (Kind::List, Verb::Ins) => 20,
            (Kind::List, Verb::Del) => 21,
            (Kind::List, Verb::Clear) => 22,
            _ => return None,
        };
        Some(code)
    }
}
