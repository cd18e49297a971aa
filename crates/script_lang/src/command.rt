//! The commands of a script.

ghost use Rattle.std.specs.Prelude.{◌≡◌, ℕ, ◌<◌, true, IfOk, IsTrue, map};
ghost use Rattle.op_base.specs.declared.name.Kind.TheVariants as kinds;
ghost use Rattle.script_lang.specs.Commands.{do_command, do_words, ask_command, ask_words, asked_list, lone_list, give_command, give_words, resend_command, resend_words, raw_command, raw_words, settle_words, members_words, stop_command, stop_words, has_lone_member, lone_member, has_keyword, doing_keywords, asking_keywords, keyword_among, keyword_named, keyword_of, keyword_words, command_words, command_of, line_of, keep_line_of, line_in};
ghost use Rattle.script_lang.specs.Lines.{IsLineOrNoMemory, may_lack};
ghost use Rattle.script_lang.specs.Memory.{Reads, IsAmple, keeps};
ghost use Rattle.script_lang.specs.Ranges.{IsWithin, LineIsWithin};

use crate::act::{are_few, read_update};
use crate::fault::{Fault, MOST_LINE_BYTES};
use crate::header::Mode;
use crate::line::{LineOf, bad_line};
use crate::name::{read_amount, read_hex, read_list, read_member, read_object, read_size};
use crate::word::{MOST_WORDS, find_words, is_passed_over};
use op_base::{ByteList, ObjectId, Update};
use std::alloc::Global;

/// What a command line asks for. Each member that it names is below how many there are; it asks for 1 to 16 members, and for
/// the ids and tombs of a list alone.
#[derive(Debug, PartialEq, Eq, Drop)]
pub enum Command {
    /// Member `r` sends an update.
    Do { r: u8, update: Update },
    /// Member `r` answers what an object is.
    Ask { r: u8, object: ObjectId },
    /// The ids of the elements of a list at member `r`.
    Ids { r: u8, object: ObjectId },
    /// How many elements of a list member `r` keeps that aren't shown.
    Tombs { r: u8, object: ObjectId },
    /// Member `r` sends a no-op where one is due.
    Beat { r: u8 },
    /// Member `r` receives message `s` of member `k`.
    Give { r: u8, k: u8, s: u32 },
    /// Member `r` receives what member `k` has in its outbox.
    Resend { r: u8, k: u8 },
    /// Member `r` receives the bytes of a frame.
    Raw { r: u8, bytes: ByteList },
    /// All members exchange what they have until nothing moves.
    Settle,
    /// The members are changed to 0 to `n - 1`, where the store is at rest: the next epoch begins.
    Members { n: u8 },
    /// The ids of member `r`'s log.
    Log { r: u8 },
    /// How many entries and items member `r` holds.
    Size { r: u8 },
    /// Member `r`'s stable vector.
    Stable { r: u8 },
    /// Member `r`'s counts.
    Seen { r: u8 },
    /// How many own no-ops of member `r` are unstable.
    Noops { r: u8 },
    /// The least member that member `r` waits for.
    Lags { r: u8 },
    /// Member `r` is stopped, so that `b` of its bytes outlive it behind those synced, and opened again.
    Stop { r: u8, b: u64 },
}

/// What a line of a script is.
pub type Line = LineOf<Command>;

/// The first word of a command, of which there is one for each.
#[derive(Clone, Copy, Debug, PartialEq, Eq)]
pub enum Keyword {
    Do,
    Ask,
    Ids,
    Tombs,
    Beat,
    Give,
    Resend,
    Raw,
    Settle,
    Members,
    Log,
    Size,
    Stable,
    Seen,
    Noops,
    Lags,
    Stop,
}

/// What a line of a script is behind a header `store`, of a store of `n` members. The line is without its newline and one
/// carriage return at its end.
pub fn read_line(alloc: Global, line: &[u8], n: u8) -> Line
    ensures line { IsLineOrNoMemory (line_of n line.now) result }
    ensures within { LineIsWithin n result }
    ensures ample { result ≡ LineOf.NoMemory → IsTrue (may_lack keeps (line_of n line.now)) }
{
    read_line_in(alloc, Mode::Store, line, n)
}

/// The same behind a header `keep`: replicas can be stopped there, and nothing is resent, offered as bytes, settled or asked of
/// no-ops, nor do the members change.
pub fn read_keep_line(alloc: Global, line: &[u8], n: u8) -> Line
    ensures line { IsLineOrNoMemory (keep_line_of n line.now) result }
    ensures within { LineIsWithin n result }
    ensures ample { result ≡ LineOf.NoMemory → IsTrue (may_lack keeps (keep_line_of n line.now)) }
{
    read_line_in(alloc, Mode::Keep, line, n)
}

/// What a line of a script of a mode is.
fn read_line_in(alloc: Global, mode: Mode, line: &[u8], n: u8) -> Line
    ensures line { IsLineOrNoMemory (line_in mode n line.now) result }
    ensures within { LineIsWithin n result }
    ensures ample { result ≡ LineOf.NoMemory → IsTrue (may_lack keeps (line_in mode n line.now)) }
{
    if is_passed_over(line) {
        return Line::Skip;
    }
    match read_command(alloc, mode, line, n) {
        Ok(command) => Line::Run(command),
        Err(fault) => bad_line(fault.number()),
    }
}

/// The command that a line is.
///
/// A function of its own, so that a command is moved once less on its way into its line.
#[inline(never)]
fn read_command(alloc: Global, mode: Mode, line: &[u8], n: u8) -> Result<Command, Fault>
    ensures command { Reads (command_of mode n line.now) result }
    ensures ample { IsAmple keeps (command_of mode n line.now) result }
    ensures within { IfOk result (IsWithin n) }
{
    if line.len() > MOST_LINE_BYTES {
        return Err(Fault::TooLong);
    }
    let mut parts = [&line[..0]; MOST_WORDS];
    let count = find_words(line, &mut parts);
    read_words(alloc, mode, &parts[..count], n)
}

/// Whether scripts of a mode have a keyword.
fn has_keyword(mode: Mode, keyword: Keyword) -> bool
    ensures { result ≡ has_keyword mode keyword }
{
    match (mode, keyword) {
        (Mode::Store, Keyword::Stop) => false,
        (Mode::Store, _) => true,
        (
            Mode::Keep,
            Keyword::Resend
            | Keyword::Raw
            | Keyword::Settle
            | Keyword::Members
            | Keyword::Noops
            | Keyword::Lags,
        ) => false,
        (Mode::Keep, _) => true,
    }
}

/// The keyword of a mode whose word this is.
fn read_keyword(mode: Mode, word: &[u8]) -> Option<Keyword>
    ensures { result ≡ keyword_of mode word.now }
{
    let keyword = keyword_named(word)?;
    if has_keyword(mode, keyword) {
        Some(keyword)
    } else {
        None
    }
}

/// The keyword whose word this is.
fn keyword_named(word: &[u8]) -> Option<Keyword>
    ensures { result ≡ keyword_named word.now }
{
    match doing_keyword(word) {
        Some(keyword) => Some(keyword),
        None => asking_keyword(word),
    }
}

/// The keyword of what changes a replica whose word this is.
fn doing_keyword(word: &[u8]) -> Option<Keyword>
    ensures { result ≡ keyword_among doing_keywords word.now }
{
    match word {
        b"do" => Some(Keyword::Do),
        b"beat" => Some(Keyword::Beat),
        b"give" => Some(Keyword::Give),
        b"resend" => Some(Keyword::Resend),
        b"raw" => Some(Keyword::Raw),
        b"settle" => Some(Keyword::Settle),
        b"members" => Some(Keyword::Members),
        b"stop" => Some(Keyword::Stop),
        _ => None,
    }
}

/// The keyword of what is asked of a replica whose word this is.
fn asking_keyword(word: &[u8]) -> Option<Keyword>
    ensures { result ≡ keyword_among asking_keywords word.now }
{
    match word {
        b"ask" => Some(Keyword::Ask),
        b"ids" => Some(Keyword::Ids),
        b"tombs" => Some(Keyword::Tombs),
        b"log" => Some(Keyword::Log),
        b"size" => Some(Keyword::Size),
        b"stable" => Some(Keyword::Stable),
        b"seen" => Some(Keyword::Seen),
        b"noops" => Some(Keyword::Noops),
        b"lags" => Some(Keyword::Lags),
        _ => None,
    }
}

/// The command that words are.
fn read_words(alloc: Global, mode: Mode, words: &[&[u8]], n: u8) -> Result<Command, Fault>
    ensures command { Reads (command_words mode n (map (λ word. word.now) words.now)) result }
    ensures ample { IsAmple keeps (command_words mode n (map (λ word. word.now) words.now)) result }
    ensures within { IfOk result (IsWithin n) }
{
    let [keyword, words @ ..] = words else {
        return Err(Fault::Keyword);
    };
    match read_keyword(mode, keyword) {
        Some(keyword) => read_arguments(alloc, keyword, words, n),
        None => Err(Fault::Keyword),
    }
}

/// The command of a keyword and the words behind it.
fn read_arguments(alloc: Global, keyword: Keyword, words: &[&[u8]], n: u8) -> Result<Command, Fault>
    ensures command { Reads (keyword_words n keyword (map (λ word. word.now) words.now)) result }
    ensures ample { IsAmple keeps (keyword_words n keyword (map (λ word. word.now) words.now)) result }
    ensures within { IfOk result (IsWithin n) }
{
    match keyword {
        Keyword::Do => read_do(alloc, n, words),
        Keyword::Ask => read_ask(alloc, n, words),
        Keyword::Ids => read_ids(alloc, n, words),
        Keyword::Tombs => read_tombs(alloc, n, words),
        Keyword::Beat => read_lone(n, Keyword::Beat, words),
        Keyword::Give => read_give(n, words),
        Keyword::Resend => read_resend(n, words),
        Keyword::Raw => read_raw(alloc, n, words),
        Keyword::Settle => read_settle(words),
        Keyword::Members => read_members(words),
        Keyword::Log => read_lone(n, Keyword::Log, words),
        Keyword::Size => read_lone(n, Keyword::Size, words),
        Keyword::Stable => read_lone(n, Keyword::Stable, words),
        Keyword::Seen => read_lone(n, Keyword::Seen, words),
        Keyword::Noops => read_lone(n, Keyword::Noops, words),
        Keyword::Lags => read_lone(n, Keyword::Lags, words),
        Keyword::Stop => read_stop(n, words),
    }
}

/// The words behind a keyword that has a member alone.
#[inline(never)]
fn read_lone(n: u8, keyword: Keyword, words: &[&[u8]]) -> Result<Command, Fault>
    requires { IsTrue (has_lone_member keyword) }
    ensures command { result ≡ keyword_words n keyword (map (λ word. word.now) words.now) }
    ensures within { IfOk result (IsWithin n) }
{
    let r = read_lone_member(n, words)?;
    match keyword {
        Keyword::Beat => Ok(Command::Beat { r }),
        Keyword::Log => Ok(Command::Log { r }),
        Keyword::Size => Ok(Command::Size { r }),
        Keyword::Stable => Ok(Command::Stable { r }),
        Keyword::Seen => Ok(Command::Seen { r }),
        Keyword::Noops => Ok(Command::Noops { r }),
        Keyword::Lags => Ok(Command::Lags { r }),
        Keyword::Do
        | Keyword::Ask
        | Keyword::Ids
        | Keyword::Tombs
        | Keyword::Give
        | Keyword::Resend
        | Keyword::Raw
        | Keyword::Settle
        | Keyword::Members
        | Keyword::Stop => unreachable!(),
    }
}

/// The words behind `do`.
fn read_do(alloc: Global, n: u8, words: &[&[u8]]) -> Result<Command, Fault>
    ensures command { Reads (do_words n (map (λ word. word.now) words.now)) result }
    ensures ample { IsAmple keeps (do_words n (map (λ word. word.now) words.now)) result }
    ensures within { IfOk result (IsWithin n) }
{
    match words {
        [r, object, operation, arguments @ ..] if are_few(arguments) => {
            do_command(alloc, n, r, object, operation, arguments)
        }
        _ => Err(Fault::Words),
    }
}

fn do_command(
    alloc: Global,
    n: u8,
    r: &[u8],
    object: &[u8],
    operation: &[u8],
    arguments: &[&[u8]],
) -> Result<Command, Fault>
    ensures command { Reads (do_command n r.now object.now operation.now (map (λ word. word.now) arguments.now)) result }
    ensures ample { IsAmple keeps (do_command n r.now object.now operation.now (map (λ word. word.now) arguments.now)) result }
    ensures within { IfOk result (IsWithin n) }
{
    let r = read_member(n, r)?;
    let update = read_update(alloc, object, operation, arguments)?;
    Ok(Command::Do { r, update })
}

/// The words behind `ask`.
fn read_ask(alloc: Global, n: u8, words: &[&[u8]]) -> Result<Command, Fault>
    ensures command { result ≡ ask_words n (map (λ word. word.now) words.now) }
    ensures within { IfOk result (IsWithin n) }
{
    match words {
        [r, object] => ask_command(alloc, n, r, object),
        _ => Err(Fault::Words),
    }
}

fn ask_command(alloc: Global, n: u8, r: &[u8], object: &[u8]) -> Result<Command, Fault>
    ensures command { result ≡ ask_command n r.now object.now }
    ensures within { IfOk result (IsWithin n) }
{
    let r = read_member(n, r)?;
    let object = read_object(alloc, object)?;
    Ok(Command::Ask { r, object })
}

/// The words behind `ids`.
#[inline(never)]
fn read_ids(alloc: Global, n: u8, words: &[&[u8]]) -> Result<Command, Fault>
    ensures command { result ≡ keyword_words n Keyword.Ids (map (λ word. word.now) words.now) }
    ensures within { IfOk result (IsWithin n) }
{
    let (r, object) = read_lone_list(alloc, n, words)?;
    Ok(Command::Ids { r, object })
}

/// The words behind `tombs`.
#[inline(never)]
fn read_tombs(alloc: Global, n: u8, words: &[&[u8]]) -> Result<Command, Fault>
    ensures command { result ≡ keyword_words n Keyword.Tombs (map (λ word. word.now) words.now) }
    ensures within { IfOk result (IsWithin n) }
{
    let (r, object) = read_lone_list(alloc, n, words)?;
    Ok(Command::Tombs { r, object })
}

/// The member and the list of it that words are, where they are these two.
fn read_lone_list(alloc: Global, n: u8, words: &[&[u8]]) -> Result<(u8, ObjectId), Fault>
    ensures asked { result ≡ lone_list n (map (λ word. word.now) words.now) }
    ensures within { IfOk result (λ asked. (asked.0 < n) × (asked.1.kind ≡ kinds.List)) }
{
    match words {
        [r, list] => asked_list(alloc, n, r, list),
        _ => Err(Fault::Words),
    }
}

/// A member, and a list that it is asked of.
fn asked_list(alloc: Global, n: u8, r: &[u8], list: &[u8]) -> Result<(u8, ObjectId), Fault>
    ensures asked { result ≡ asked_list n r.now list.now }
    ensures within { IfOk result (λ asked. (asked.0 < n) × (asked.1.kind ≡ kinds.List)) }
{
    let r = read_member(n, r)?;
    let object = read_list(alloc, list)?;
    Ok((r, object))
}

/// The words behind `give`.
#[inline(never)]
fn read_give(n: u8, words: &[&[u8]]) -> Result<Command, Fault>
    ensures command { result ≡ give_words n (map (λ word. word.now) words.now) }
    ensures within { IfOk result (IsWithin n) }
{
    match words {
        [r, k, s] => give_command(n, r, k, s),
        _ => Err(Fault::Words),
    }
}

fn give_command(n: u8, r: &[u8], k: &[u8], s: &[u8]) -> Result<Command, Fault>
    ensures command { result ≡ give_command n r.now k.now s.now }
    ensures within { IfOk result (IsWithin n) }
{
    Ok(Command::Give {
        r: read_member(n, r)?,
        k: read_member(n, k)?,
        s: read_amount(s)?,
    })
}

/// The words behind `resend`.
#[inline(never)]
fn read_resend(n: u8, words: &[&[u8]]) -> Result<Command, Fault>
    ensures command { result ≡ resend_words n (map (λ word. word.now) words.now) }
    ensures within { IfOk result (IsWithin n) }
{
    match words {
        [r, k] => resend_command(n, r, k),
        _ => Err(Fault::Words),
    }
}

fn resend_command(n: u8, r: &[u8], k: &[u8]) -> Result<Command, Fault>
    ensures command { result ≡ resend_command n r.now k.now }
    ensures within { IfOk result (IsWithin n) }
{
    Ok(Command::Resend {
        r: read_member(n, r)?,
        k: read_member(n, k)?,
    })
}

/// The words behind `raw`.
#[inline(never)]
fn read_raw(alloc: Global, n: u8, words: &[&[u8]]) -> Result<Command, Fault>
    ensures command { Reads (raw_words n (map (λ word. word.now) words.now)) result }
    ensures ample { IsAmple keeps (raw_words n (map (λ word. word.now) words.now)) result }
    ensures within { IfOk result (IsWithin n) }
{
    match words {
        [r, hex] => raw_command(alloc, n, r, hex),
        _ => Err(Fault::Words),
    }
}

fn raw_command(alloc: Global, n: u8, r: &[u8], hex: &[u8]) -> Result<Command, Fault>
    ensures command { Reads (raw_command n r.now hex.now) result }
    ensures ample { IsAmple keeps (raw_command n r.now hex.now) result }
    ensures within { IfOk result (IsWithin n) }
{
    let r = read_member(n, r)?;
    let bytes = read_hex(alloc, hex)?;
    Ok(Command::Raw { r, bytes })
}

/// The words behind `settle`.
#[inline(never)]
fn read_settle(words: &[&[u8]]) -> Result<Command, Fault>
    ensures { result ≡ settle_words (map (λ word. word.now) words.now) }
{
    if words.is_empty() {
        Ok(Command::Settle)
    } else {
        Err(Fault::Words)
    }
}

/// The words behind `members`.
#[inline(never)]
fn read_members(words: &[&[u8]]) -> Result<Command, Fault>
    ensures command { result ≡ members_words (map (λ word. word.now) words.now) }
    ensures within { (n : ℕ) → IfOk result (IsWithin n) }
{
    match words {
        [m] => Ok(Command::Members { n: read_size(m)? }),
        _ => Err(Fault::Words),
    }
}

/// The words behind `stop`.
#[inline(never)]
fn read_stop(n: u8, words: &[&[u8]]) -> Result<Command, Fault>
    ensures command { result ≡ stop_words n (map (λ word. word.now) words.now) }
    ensures within { IfOk result (IsWithin n) }
{
    match words {
        [r, b] => stop_command(n, r, b),
        _ => Err(Fault::Words),
    }
}

fn stop_command(n: u8, r: &[u8], b: &[u8]) -> Result<Command, Fault>
    ensures command { result ≡ stop_command n r.now b.now }
    ensures within { IfOk result (IsWithin n) }
{
    Ok(Command::Stop {
        r: read_member(n, r)?,
        b: u64::from(read_amount(b)?),
    })
}

/// The member that words are, where they are one word.
fn read_lone_member(n: u8, words: &[&[u8]]) -> Result<u8, Fault>
    ensures member { result ≡ lone_member n (map (λ word. word.now) words.now) }
    ensures within { IfOk result (λ r. r < n) }
{
    match words {
        [r] => read_member(n, r),
        _ => Err(Fault::Words),
    }
}
