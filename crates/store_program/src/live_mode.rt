//! A live input that is read, run, and told of.

ghost use Rattle.std.specs.Prelude.{◌≡◌, ◌++◌, ◌+◌, ◌≤◌, [], List, ℕ, true, false, length, MatchResult};
ghost use Rattle.script_net.specs.Lines.{ended_lines_of, lines_of, from_command};
ghost use Rattle.script_net.specs.Transcript.{lacks_header};
ghost use Rattle.store_program.specs.Run.{source_seen, sink_seen, most_input, is_no_live};
ghost use Rattle.store_program.specs.Live.{AnswersLive};
ghost use Rattle.store_program.specs.LiveFeeding.{IsTaken, IsAsked, IsReadOr, status_of_stop};

use crate::live_feed::{LiveFeed, LiveInput};
use crate::run::{MOST_INPUT, MOST_PIECE, Status};
use live_run::live;
use op_base::Text;
use script_net::{Stop, split_line};
use std::alloc::Global;
use std::sync::Wait;
use std::thread::Threads;
use store_io::{Gate, Sink, Source, write_whole};

/// The status of a run that stopped for this.
fn status_of(stop: Stop) -> Status
    ensures { result ≡ status_of_stop stop }
{
    match stop {
        Stop::BadHeader => Status::BadHeader,
        Stop::NoMemory => Status::NoMemory,
    }
}

/// Takes each line that ends in a piece, and keeps what stands behind the last.
fn take_piece(alloc: Global, feed: &mut LiveFeed, piece: &[u8]) -> Result<(), Stop>
    requires few { feed.old.count + length piece.now ≤ most_input }
    ensures count { feed.new.count ≤ feed.old.count + length piece.now }
    ensures taken { (bytes : List ℕ) → IsTaken feed.old bytes []
        → MatchResult result
        (λ _. IsTaken feed.new (bytes ++ piece.now) [])
        (λ stop. stop ≡ Stop.BadHeader → lacks_header is_no_live false (from_command (ended_lines_of (bytes ++ piece.now))) ≡ true) }
{
    let mut rest = piece;
    'lines: while let Some((line, after)) = split_line(rest) {
        if let Err(stop) = feed.end_line(alloc, line) {
            return Err(stop);
        }
        rest = after;
    }
    match feed.keep(rest) {
        Ok(()) => Ok(()),
        Err(_) => Err(Stop::NoMemory),
    }
}

/// Ends a live input whose bytes have all come: its last line needs no newline.
fn finish(alloc: Global, feed: LiveFeed) -> Result<LiveInput, Stop>
    requires few { feed.count ≤ most_input }
    ensures { (bytes : List ℕ) → IsTaken feed bytes []
        → MatchResult result
        (λ input. IsAsked input (lines_of bytes))
        (λ stop. stop ≡ Stop.BadHeader → lacks_header is_no_live true (from_command (lines_of bytes)) ≡ true) }
{
    let mut feed = feed;
    feed.end_line(alloc, &[])?;
    match feed.into_input() {
        Some(input) => Ok(input),
        None => Err(Stop::BadHeader),
    }
}

/// Reads a live input, each line once it has come.
fn read_input<S: Source>(alloc: Global, source: &mut S) -> Result<LiveInput, Status>
    ensures { IsReadOr result (source_seen (S.left source.old) (S.faults source.old)) (source_seen (S.left source.new) (S.faults source.new)) }
{
    let mut buffer = [0; MOST_PIECE];
    let mut feed = LiveFeed::new(alloc);
    let mut count = 0;
    'reading: loop {
        // Where an input has all its bytes, one more shows that it is too long.
        let room = (MOST_INPUT - count).min(MOST_PIECE).max(1);
        let Ok(taken) = source.read(&mut buffer[..room]) else {
            return Err(Status::ReadFault);
        };
        if taken == 0 {
            return match finish(alloc, feed) {
                Ok(input) => Ok(input),
                Err(stop) => Err(status_of(stop)),
            };
        }
        if count == MOST_INPUT {
            return Err(Status::TooLong);
        }
        if let Err(stop) = take_piece(alloc, &mut feed, &buffer[..taken]) {
            return Err(status_of(stop));
        }
        count += taken;
    }
}

/// Reads a live input, runs it, and writes the text of the run, which is whole before its first byte is written.
pub fn run_live<R: Threads + Wait + Sync, S: Source, K: Sink, G: Gate + Sync>(
    rt: &R,
    alloc: Global,
    source: &mut S,
    sink: &mut K,
    gate: &G,
) -> Status
    ensures { AnswersLive result (source_seen (S.left source.old) (S.faults source.old)) (source_seen (S.left source.new) (S.faults source.new)) (sink_seen (K.held sink.old) (K.faults sink.old)) (sink_seen (K.held sink.new) (K.faults sink.new)) }
{
    let input = match read_input(alloc, source) {
        Ok(input) => input,
        Err(status) => return status,
    };
    let mut text = Text::new(alloc);
    let Ok(()) = live(
        rt,
        alloc,
        input.n,
        input.w,
        input.clients,
        input.turns,
        input.loss,
        input.lines.as_slice(),
        gate,
        &mut text,
    ) else {
        return Status::NoMemory;
    };
    match write_whole(sink, text.as_slice()) {
        Ok(()) => Status::Fine,
        Err(_) => Status::WriteFault,
    }
}
