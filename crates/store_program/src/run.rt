//! The top call: a run of the program over words, a source and a sink.

ghost use Rattle.std.specs.Prelude.{true, ◌≡◌, ◌⊎◌, ◌++◌, ◌∷◌, [], ◌<◌, List, ℕ, Option, Some, None, map, IfErr, OnOk, OnErr, MatchResult};
ghost use Rattle.std.specs.Process.{exit_status};
ghost use Rattle.std.specs.String.{string_bytes};
ghost use Rattle.std.specs.Str.Lines.{strip_carriage_return};
ghost use Rattle.store_io.specs.Bytes.{Took};
ghost use Rattle.script_net.specs.Honest.{is_unforged};
ghost use Rattle.script_net.specs.Lines.{ended_lines_of};
ghost use Rattle.script_net.specs.Transcript.{transcript};
ghost use Rattle.store_program.specs.Feeding.{GoesOn, StopsAs, IsFed, Concludes};
ghost use Rattle.store_program.specs.Run.{source_seen, sink_seen, AnswersInput, AnswersMade, IsGoodScript, TookFront, TookFair, made_summary};
ghost use Rattle.store_program.specs.Live.{AnswersLive, IsGoodLive, TookLive};
ghost use Rattle.store_program.specs.Statuses.{number_of_status};
ghost use Rattle.store_program.specs.Words.{request_of};

use crate::live_mode::run_live;
use crate::made::run_made;
use crate::words::{Request, request_of};
use op_base::{NoMemory, Text};
use script_net::{Feed, Stop, split_line};
use std::alloc::Global;
use std::mem::ManuallyDrop;
use std::process::ExitCode;
use std::sync::Wait;
use std::thread::Threads;
use store_io::{Gate, Sink, Source, write_whole};

/// An input has at most so many bytes.
pub const MOST_INPUT: usize = 4194304;

/// A read asks for at most so many bytes.
pub const MOST_PIECE: usize = 65536;

/// Replies are written once there are so many bytes of them.
const MOST_HELD: usize = 65536;

/// How a run ended. The numbers are the program's exit statuses.
#[derive(Clone, Copy, Debug, PartialEq, Eq)]
pub enum Status {
    /// All was written.
    Fine = 0,
    /// The words aren't those of a run.
    BadWords = 1,
    /// The input doesn't begin with a header of the mode.
    BadHeader = 2,
    /// The input has more than 4194304 bytes.
    TooLong = 3,
    /// The source failed.
    ReadFault = 4,
    /// The sink failed.
    WriteFault = 5,
    /// There was no memory.
    NoMemory = 6,
}

impl Status {
    /// What the program ends with.
    pub fn exit_code(self) -> ExitCode
        ensures { exit_status result ≡ number_of_status self }
    {
        ExitCode::from(self as u8)
    }
}

/// Writes the replies that are held, and holds none.
fn flush<K: Sink>(out: &mut Text, sink: &mut K) -> Result<(), Status>
    ensures empty { out.new ≡ [] }
    ensures ok { (old : Option (List ℕ)) (written : List ℕ) → Took old (K.held sink.old) written
        → OnOk result (Took old (K.held sink.new) (written ++ out.old)) }
    ensures front { (old : Option (List ℕ)) (written : List ℕ) → Took old (K.held sink.old) written
        → OnErr result (TookFront old (K.held sink.new) (written ++ out.old)) }
    ensures some { OnErr result (out.old ≡ [] → ⊥) }
    ensures steady { OnOk result (K.faults sink.new ≡ K.faults sink.old) }
    ensures fault { OnErr result (K.faults sink.old < K.faults sink.new) }
    ensures status { IfErr result (λ status. status ≡ Status.WriteFault) }
{
    let written = write_whole(sink, out.as_slice());
    out.truncate(0);
    match written {
        Ok(()) => Ok(()),
        Err(_) => Err(Status::WriteFault),
    }
}

/// Ends a run that has no memory: the replies that are held are still written, where the sink takes them.
fn give_up<K: Sink>(out: &mut Text, sink: &mut K) -> Status
    ensures status { result ≡ Status.NoMemory }
    ensures front { (old : Option (List ℕ)) (written : List ℕ) → Took old (K.held sink.old) written
        → TookFront old (K.held sink.new) (written ++ out.old) }
{
    match flush(out, sink) {
        Ok(()) => Status::NoMemory,
        Err(_) => Status::NoMemory,
    }
}

/// Runs the line of which these are the last bytes, and writes what is held where it is enough.
fn run_line<K: Sink>(
    alloc: Global,
    feed: &mut Feed,
    bytes: &[u8],
    out: &mut Text,
    sink: &mut K,
) -> Result<(), Status>
    ensures part { OnOk result (feed.new.part ≡ []) }
    ensures goes { (done : List (List ℕ)) (old : Option (List ℕ)) (before : ℕ) → GoesOn feed.old.stage done out.old old (K.held sink.old) before (K.faults sink.old)
        → MatchResult result
        (λ _. GoesOn feed.new.stage (done ++ strip_carriage_return (feed.old.part ++ bytes.now) ∷ []) out.new old (K.held sink.new) before (K.faults sink.new))
        (λ status. StopsAs status (done ++ strip_carriage_return (feed.old.part ++ bytes.now) ∷ []) old (K.held sink.new) before (K.faults sink.new)) }
{
    match feed.end_line(alloc, bytes, out) {
        Ok(()) => {}
        Err(Stop::BadHeader) => return Err(Status::BadHeader),
        Err(Stop::NoMemory) => return Err(give_up(out, sink)),
    }
    if out.len() < MOST_HELD {
        return Ok(());
    }
    flush(out, sink)
}

/// Runs each line that ends in a piece, keeps what stands behind the last, and writes all replies.
fn run_piece<K: Sink>(
    alloc: Global,
    feed: &mut Feed,
    piece: &[u8],
    out: &mut Text,
    sink: &mut K,
) -> Result<(), Status>
    ensures fed { (bytes : List ℕ) (old : Option (List ℕ)) (before : ℕ) → IsFed feed.old bytes out.old old (K.held sink.old) before (K.faults sink.old)
        → MatchResult result
        (λ _. IsFed feed.new (bytes ++ piece.now) [] old (K.held sink.new) before (K.faults sink.new))
        (λ status. StopsAs status (ended_lines_of (bytes ++ piece.now)) old (K.held sink.new) before (K.faults sink.new)) }
    ensures empty { OnOk result (out.new ≡ []) }
{
    let mut rest = piece;
    'lines: while let Some((line, after)) = split_line(rest) {
        if let Err(status) = run_line(alloc, feed, line, out, sink) {
            return Err(status);
        }
        rest = after;
    }
    match feed.keep(rest) {
        Ok(()) => flush(out, sink),
        Err(NoMemory) => Err(give_up(out, sink)),
    }
}

/// Ends a script whose bytes have all come: its last line runs without a newline.
fn finish<K: Sink>(alloc: Global, feed: &mut Feed, out: &mut Text, sink: &mut K) -> Status
    ensures { (bytes : List ℕ) (old : Option (List ℕ)) (before : ℕ) → IsFed feed.old bytes out.old old (K.held sink.old) before (K.faults sink.old)
        → Concludes result bytes old (K.held sink.new) before (K.faults sink.new) }
{
    if let Err(status) = run_line(alloc, feed, &[], out, sink) {
        return status;
    }
    if feed.is_opening() {
        return Status::BadHeader;
    }
    match flush(out, sink) {
        Ok(()) => Status::Fine,
        Err(status) => status,
    }
}

/// Reads the input, and runs each line once it has come.
fn run_input<S: Source, K: Sink>(alloc: Global, source: &mut S, sink: &mut K) -> Status
    ensures { AnswersInput result (source_seen (S.left source.old) (S.faults source.old)) (source_seen (S.left source.new) (S.faults source.new)) (sink_seen (K.held sink.old) (K.faults sink.old)) (sink_seen (K.held sink.new) (K.faults sink.new)) }
{
    let mut buffer = [0; MOST_PIECE];
    let mut feed = Feed::new(alloc);
    let mut out = Text::new(alloc);
    let mut count = 0;
    'reading: loop {
        // Where an input has all its bytes, one more shows that it is too long.
        let room = (MOST_INPUT - count).min(MOST_PIECE).max(1);
        let Ok(taken) = source.read(&mut buffer[..room]) else {
            return Status::ReadFault;
        };
        if taken == 0 {
            let status = finish(alloc, &mut feed, &mut out, sink);
            // The program ends, and the system takes back all memory at once; to give it back piece by piece takes longer.
            let _kept = ManuallyDrop::new(feed);
            return status;
        }
        if count == MOST_INPUT {
            return Status::TooLong;
        }
        if let Err(status) = run_piece(alloc, &mut feed, &buffer[..taken], &mut out, sink) {
            return status;
        }
        count += taken;
    }
}

/// Runs the program: reads its words, and runs the script that the source has, line by line as it comes; or runs the live
/// input that it has, in threads; or makes a script and runs that. Standard output gets the transcript, the live text or the
/// summary of the made script, and nothing else.
///
/// Of a script that is read each line that has come whole is run, and its reply written, before more is read. So where the
/// source fails, the input is too long or memory runs out, the replies to the lines before are written. A live text and the
/// summary of a made script are whole before their first byte is written.
///
/// Where all of a script has come, the memory of its replicas isn't given back: the program ends then. So this isn't for a caller
/// who goes on.
///
/// In mode `live` threads of `rt` wait for one another, and `gate` may hold them: what a clause says holds where the call
/// returns, and no clause says that it does, that two threads ran at once, or that a letter came. The other modes neither
/// wait nor start a thread.
pub fn run<R: Threads + Wait + Sync, S: Source, K: Sink, G: Gate + Sync>(
    rt: &R,
    alloc: Global,
    words: &[String],
    source: &mut S,
    sink: &mut K,
    gate: &G,
) -> Status
    // The words decide first: where they ask for no run, nothing is written, and only an input that they ask for is read.
    ensures bad_words { result ≡ Status.BadWords → request_of (map string_bytes words.now) ≡ None }
    ensures refused { request_of (map string_bytes words.now) ≡ None → (result ≡ Status.BadWords) ⊎ (result ≡ Status.NoMemory) }
    ensures unread { (request_of (map string_bytes words.now) ≡ Some Request.Script → ⊥) → (request_of (map string_bytes words.now) ≡ Some Request.Live → ⊥)
        → source.new ≡ source.old }
    ensures unwritten { request_of (map string_bytes words.now) ≡ None → sink.new ≡ sink.old }

    // A script: what is read, answered and written, of the bytes that the source gave in the call.
    ensures answers { request_of (map string_bytes words.now) ≡ Some Request.Script
        → AnswersInput result (source_seen (S.left source.old) (S.faults source.old)) (source_seen (S.left source.new) (S.faults source.new)) (sink_seen (K.held sink.old) (K.faults sink.old)) (sink_seen (K.held sink.new) (K.faults sink.new)) }

    // Where no line of it offers bytes, no reply tells of a message that is far or dropped, of a beat that is held or, but for
    // a change of members, of a store that didn't settle.
    ensures fair { (input : List ℕ) → S.left source.old ≡ Some input → request_of (map string_bytes words.now) ≡ Some Request.Script
        → is_unforged input ≡ true → result ≡ Status.Fine → TookFair input (K.held sink.old) (K.held sink.new) }

    // A live input: the same, of a text that is right for it.
    ensures answers_live { request_of (map string_bytes words.now) ≡ Some Request.Live
        → AnswersLive result (source_seen (S.left source.old) (S.faults source.old)) (source_seen (S.left source.new) (S.faults source.new)) (sink_seen (K.held sink.old) (K.faults sink.old)) (sink_seen (K.held sink.new) (K.faults sink.new)) }

    // A made script: what is written is its summary.
    ensures makes { (seed count n w : ℕ) → request_of (map string_bytes words.now) ≡ Some (Request.Make seed count n w)
        → AnswersMade result (made_summary seed count n w) (sink_seen (K.held sink.old) (K.faults sink.old)) (sink_seen (K.held sink.new) (K.faults sink.new)) }

    // A fault is told only where one happened in the call.
    ensures read_fault { result ≡ Status.ReadFault → S.faults source.old < S.faults source.new }
    ensures write_fault { result ≡ Status.WriteFault → K.faults sink.old < K.faults sink.new }

    // A good script over streams that do not fail is answered in full, where there is memory.
    ensures complete { (input : List ℕ) → S.left source.old ≡ Some input
        → IsGoodScript (map string_bytes words.now) input
        → S.faults source.new ≡ S.faults source.old → K.faults sink.new ≡ K.faults sink.old
        → (result ≡ Status.NoMemory) ⊎ ((result ≡ Status.Fine) × Took (K.held sink.old) (K.held sink.new) (transcript input)) }

    // And so is a good live input, by a text that is right for it.
    ensures complete_live { (input : List ℕ) → S.left source.old ≡ Some input
        → IsGoodLive (map string_bytes words.now) input
        → S.faults source.new ≡ S.faults source.old → K.faults sink.new ≡ K.faults sink.old
        → (result ≡ Status.NoMemory) ⊎ ((result ≡ Status.Fine) × TookLive input (K.held sink.old) (K.held sink.new)) }

    // And so is a made script over a sink that does not fail.
    ensures complete_made { (seed count n w : ℕ) → request_of (map string_bytes words.now) ≡ Some (Request.Make seed count n w)
        → K.faults sink.new ≡ K.faults sink.old
        → (result ≡ Status.NoMemory) ⊎ ((result ≡ Status.Fine) × Took (K.held sink.old) (K.held sink.new) (made_summary seed count n w)) }
{
    match request_of(alloc, words) {
        Ok(Some(Request::Script)) => run_input(alloc, source, sink),
        Ok(Some(Request::Live)) => run_live(rt, alloc, source, sink, gate),
        Ok(Some(Request::Make { seed, count, n, w })) => run_made(alloc, seed, count, n, w, sink),
        Ok(None) => Status::BadWords,
        Err(NoMemory) => Status::NoMemory,
    }
}
