//! The commands of a live input.

ghost use Rattle.std.specs.Prelude.{◌≡◌, ℕ, IfOk, IsTrue, map};
ghost use Rattle.script_lang.specs.LiveCommands.{client_command, client_words, client_do, client_do_words, client_ask, client_ask_words, named_words, live_words, live_command_of, live_line_of};
ghost use Rattle.script_lang.specs.Lines.{IsLineOrNoMemory, may_lack};
ghost use Rattle.script_lang.specs.Memory.{Reads, IsAmple, live_keeps};
ghost use Rattle.script_lang.specs.Ranges.{IsLiveWithin, LiveLineIsWithin};

use crate::act::{are_few, read_update};
use crate::fault::{Fault, MOST_LINE_BYTES};
use crate::line::{LineOf, bad_line};
use crate::name::{client_digits, read_member, read_object};
use crate::word::{is_passed_over, is_text, split};
use op_base::{ObjectId, Update};
use std::alloc::Global;

/// What a line of a live input asks for. Clients and members are below how many there are.
#[derive(Debug, PartialEq, Eq, Drop)]
pub enum LiveCommand {
    /// Client `c` works at member `r`.
    Client { c: u8, r: u8 },
    /// Client `c` sends an update.
    Do { c: u8, update: Update },
    /// Client `c` asks what an object is.
    Ask { c: u8, object: ObjectId },
}

/// What a line of a live input is.
pub type LiveLine = LineOf<LiveCommand>;

/// What a line of a live input is, with `n` members and so many clients. The line is without its newline and one
/// carriage return at its end.
pub fn read_live_line(alloc: Global, line: &[u8], n: u8, clients: u8) -> LiveLine
    ensures line { IsLineOrNoMemory (live_line_of n clients line.now) result }
    ensures within { LiveLineIsWithin n clients result }
    ensures ample { result ≡ LineOf.NoMemory → IsTrue (may_lack live_keeps (live_line_of n clients line.now)) }
{
    if is_passed_over(line) {
        return LiveLine::Skip;
    }
    match read_live_command(alloc, line, n, clients) {
        Ok(command) => LiveLine::Run(command),
        Err(fault) => bad_line(fault.number()),
    }
}

/// The command that a line is.
fn read_live_command(alloc: Global, line: &[u8], n: u8, clients: u8) -> Result<LiveCommand, Fault>
    ensures command { Reads (live_command_of n clients line.now) result }
    ensures ample { IsAmple live_keeps (live_command_of n clients line.now) result }
    ensures within { IfOk result (IsLiveWithin n clients) }
{
    if line.len() > MOST_LINE_BYTES {
        return Err(Fault::TooLong);
    }
    read_live_words(alloc, split(line).as_slice(), n, clients)
}

/// The command that words are.
fn read_live_words(alloc: Global, words: &[&[u8]], n: u8, clients: u8) -> Result<LiveCommand, Fault>
    ensures command { Reads (live_words n clients (map (λ word. word.now) words.now)) result }
    ensures ample { IsAmple live_keeps (live_words n clients (map (λ word. word.now) words.now)) result }
    ensures within { IfOk result (IsLiveWithin n clients) }
{
    let [first, words @ ..] = words else {
        return Err(Fault::Keyword);
    };
    if is_text(first, b"client") {
        return read_client(n, clients, words);
    }
    match client_digits(first) {
        Some(c) => read_named(alloc, clients, c, words),
        None => Err(Fault::Keyword),
    }
}

/// The words behind `client`.
fn read_client(n: u8, clients: u8, words: &[&[u8]]) -> Result<LiveCommand, Fault>
    ensures command { result ≡ client_words n clients (map (λ word. word.now) words.now) }
    ensures within { IfOk result (IsLiveWithin n clients) }
{
    match words {
        [c, r] => client_command(n, clients, c, r),
        _ => Err(Fault::Words),
    }
}

fn client_command(n: u8, clients: u8, c: &[u8], r: &[u8]) -> Result<LiveCommand, Fault>
    ensures command { result ≡ client_command n clients c.now r.now }
    ensures within { IfOk result (IsLiveWithin n clients) }
{
    Ok(LiveCommand::Client {
        c: read_member(clients, c)?,
        r: read_member(n, r)?,
    })
}

/// The words behind a client's digits and colon.
fn read_named(alloc: Global, clients: u8, c: &[u8], words: &[&[u8]]) -> Result<LiveCommand, Fault>
    ensures command { Reads (named_words clients c.now (map (λ word. word.now) words.now)) result }
    ensures ample { IsAmple live_keeps (named_words clients c.now (map (λ word. word.now) words.now)) result }
    ensures within { (n : ℕ) → IfOk result (IsLiveWithin n clients) }
{
    let [keyword, words @ ..] = words else {
        return Err(Fault::Words);
    };
    match *keyword {
        b"do" => read_client_do(alloc, clients, c, words),
        b"ask" => read_client_ask(alloc, clients, c, words),
        _ => Err(Fault::Keyword),
    }
}

/// The words behind a client's `do`.
fn read_client_do(
    alloc: Global,
    clients: u8,
    c: &[u8],
    words: &[&[u8]],
) -> Result<LiveCommand, Fault>
    ensures command { Reads (client_do_words clients c.now (map (λ word. word.now) words.now)) result }
    ensures ample { IsAmple live_keeps (client_do_words clients c.now (map (λ word. word.now) words.now)) result }
    ensures within { (n : ℕ) → IfOk result (IsLiveWithin n clients) }
{
    match words {
        [object, operation, arguments @ ..] if are_few(arguments) => {
            client_do(alloc, clients, c, object, operation, arguments)
        }
        _ => Err(Fault::Words),
    }
}

fn client_do(
    alloc: Global,
    clients: u8,
    c: &[u8],
    object: &[u8],
    operation: &[u8],
    arguments: &[&[u8]],
) -> Result<LiveCommand, Fault>
    ensures command { Reads (client_do clients c.now object.now operation.now (map (λ word. word.now) arguments.now)) result }
    ensures ample { IsAmple live_keeps (client_do clients c.now object.now operation.now (map (λ word. word.now) arguments.now)) result }
    ensures within { (n : ℕ) → IfOk result (IsLiveWithin n clients) }
{
    let c = read_member(clients, c)?;
    let update = read_update(alloc, object, operation, arguments)?;
    Ok(LiveCommand::Do { c, update })
}

/// The words behind a client's `ask`.
fn read_client_ask(
    alloc: Global,
    clients: u8,
    c: &[u8],
    words: &[&[u8]],
) -> Result<LiveCommand, Fault>
    ensures command { result ≡ client_ask_words clients c.now (map (λ word. word.now) words.now) }
    ensures within { (n : ℕ) → IfOk result (IsLiveWithin n clients) }
{
    match words {
        [object] => client_ask(alloc, clients, c, object),
        _ => Err(Fault::Words),
    }
}

fn client_ask(alloc: Global, clients: u8, c: &[u8], object: &[u8]) -> Result<LiveCommand, Fault>
    ensures command { result ≡ client_ask clients c.now object.now }
    ensures within { (n : ℕ) → IfOk result (IsLiveWithin n clients) }
{
    let c = read_member(clients, c)?;
    let object = read_object(alloc, object)?;
    Ok(LiveCommand::Ask { c, object })
}
