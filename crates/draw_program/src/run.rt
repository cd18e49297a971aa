//! The top call: a run of the program over words, a source and a sink.

ghost use Rattle.std.specs.Prelude.{◌≡◌, ◌↔◌, ◌<◌, true, false, List, ℕ, None, Err, map, string_bytes, IfOk, IfErr};
ghost use Rattle.std.specs.Process.{exit_status};
ghost use Rattle.op_base.specs.Name.{same_text};
ghost use Rattle.store_io.specs.Bytes.{Took};
ghost use Rattle.script_draw.specs.Opening.{has_header};
ghost use Rattle.draw_program.specs.Asking.{asked_for};
ghost use Rattle.draw_program.specs.Reading.{GaveWhole, GaveTooMuch, GaveScript};
ghost use Rattle.draw_program.specs.Statuses.{number_of_status};

use script_draw::{DrawFault, picture, table};
use std::alloc::Global;
use std::process::ExitCode;
use store_io::{Sink, Source, write_whole};

/// An input has at most so many bytes.
pub const MOST_INPUT: usize = 4194304;

/// A read asks for at most so many bytes.
const MOST_PIECE: usize = 65536;

/// How a run ended. The numbers are the program's exit statuses.
#[derive(Clone, Copy, Debug, PartialEq, Eq)]
pub enum Status {
    /// All was written.
    Fine = 0,
    /// The words ask for nothing that is drawn.
    BadWords = 1,
    /// The input doesn't begin with a header of a script.
    BadHeader = 2,
    /// The input has more than 4194304 bytes.
    TooLong = 3,
    /// The source failed.
    ReadFault = 4,
    /// The sink failed.
    WriteFault = 5,
    /// There was no memory.
    NoMemory = 6,
}

impl Status {
    /// What the program ends with.
    pub fn exit_code(self) -> ExitCode
        ensures { exit_status result ≡ number_of_status self }
    {
        ExitCode::from(self as u8)
    }
}

/// What words ask for.
#[derive(Clone, Copy, Debug, PartialEq, Eq)]
pub enum Asked {
    Picture,
    Table,
}

/// Whether a word is a text.
fn is_word(word: &[u8], text: &[u8]) -> bool
    ensures { result ≡ same_text word.now text.now }
{
    word == text
}

/// What the words ask for, the program's own name first: a picture without any, and a table by `--table`.
fn asked_for(words: &[String]) -> Option<Asked>
    ensures { result ≡ asked_for (map string_bytes words.now) }
{
    match words {
        [_] => Some(Asked::Picture),
        [_, word] if is_word(word.as_bytes(), b"--table") => Some(Asked::Table),
        _ => None,
    }
}

/// The whole input.
fn read_all<S: Source>(alloc: Global, source: &mut S) -> Result<Vec<u8>, Status>
    ensures whole { IfOk result (λ input. GaveWhole (S.left source.old) (S.left source.new) input.items) }
    ensures long { result ≡ Err Status.TooLong → GaveTooMuch (S.left source.old) (S.left source.new) }
    ensures steady { IfOk result (λ _. S.faults source.new ≡ S.faults source.old) }
    ensures fault { result ≡ Err Status.ReadFault → S.faults source.old < S.faults source.new }
    ensures others { IfErr result (λ status. (status ≡ Status.Fine → ⊥) × (status ≡ Status.BadWords → ⊥) × (status ≡ Status.BadHeader → ⊥) × (status ≡ Status.WriteFault → ⊥)) }
{
    let mut buffer = [0; MOST_PIECE];
    let mut input = Vec::new(alloc);
    'reading: loop {
        // Where an input has all its bytes, one more shows that it is too long.
        let room = (MOST_INPUT - input.len()).min(MOST_PIECE).max(1);
        let Ok(taken) = source.read(&mut buffer[..room]) else {
            return Err(Status::ReadFault);
        };
        if taken == 0 {
            return Ok(input);
        }
        if input.len() == MOST_INPUT {
            return Err(Status::TooLong);
        }
        if input.extend_from_slice(&buffer[..taken]).is_err() {
            return Err(Status::NoMemory);
        }
    }
}

/// The text that is asked for, of a script.
fn text_of(alloc: Global, asked: Asked, script: &[u8]) -> Result<String, Status>
    ensures opens { IfOk result (λ _. has_header script.now ≡ true) }
    ensures headless { result ≡ Err Status.BadHeader → has_header script.now ≡ false }
    ensures others { IfErr result (λ status. (status ≡ Status.Fine → ⊥) × (status ≡ Status.BadWords → ⊥) × (status ≡ Status.TooLong → ⊥) × (status ≡ Status.ReadFault → ⊥) × (status ≡ Status.WriteFault → ⊥)) }
{
    let text = match asked {
        Asked::Picture => picture(alloc, script),
        Asked::Table => table(alloc, script),
    };
    match text {
        Ok(text) => Ok(text),
        Err(DrawFault::BadHeader) => Err(Status::BadHeader),
        Err(DrawFault::NoMemory) => Err(Status::NoMemory),
    }
}

/// Runs the program: reads a script, runs it, and writes its picture or its table. Where nothing is asked for, nothing is
/// read; and what is written is whole before its first byte is.
pub fn run<S: Source, K: Sink>(
    alloc: Global,
    words: &[String],
    source: &mut S,
    sink: &mut K,
) -> Status
    // The words decide first.
    ensures bad_words { (result ≡ Status.BadWords) ↔ (asked_for (map string_bytes words.now) ≡ None) }
    ensures unread { result ≡ Status.BadWords → source.new ≡ source.old }

    // What the source gave in the call.
    ensures drawn { result ≡ Status.Fine → GaveScript (S.left source.old) (S.left source.new) true }
    ensures headless { result ≡ Status.BadHeader → GaveScript (S.left source.old) (S.left source.new) false }
    ensures long { result ≡ Status.TooLong → GaveTooMuch (S.left source.old) (S.left source.new) }
    ensures read_whole { result ≡ Status.Fine → S.faults source.new ≡ S.faults source.old }
    ensures read_fault { result ≡ Status.ReadFault → S.faults source.old < S.faults source.new }

    // What the sink took: one text, or nothing but where a write failed.
    ensures written { result ≡ Status.Fine → (text : List ℕ) × Took (K.held sink.old) (K.held sink.new) text }
    ensures written_whole { result ≡ Status.Fine → K.faults sink.new ≡ K.faults sink.old }
    ensures unwritten { (result ≡ Status.Fine → ⊥) → (result ≡ Status.WriteFault → ⊥) → sink.new ≡ sink.old }
    ensures write_fault { result ≡ Status.WriteFault → K.faults sink.old < K.faults sink.new }
{
    let Some(asked) = asked_for(words) else {
        return Status::BadWords;
    };
    let script = match read_all(alloc, source) {
        Ok(script) => script,
        Err(status) => return status,
    };
    let text = match text_of(alloc, asked, &script) {
        Ok(text) => text,
        Err(status) => return status,
    };
    match write_whole(sink, text.as_bytes()) {
        Ok(()) => Status::Fine,
        Err(_) => Status::WriteFault,
    }
}
