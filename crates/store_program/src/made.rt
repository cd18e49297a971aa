//! A script that is made, run, and summed up.

ghost use Rattle.std.specs.Prelude.{◌≡◌, ◌≤◌, IfOk};
ghost use Rattle.store_program.specs.Run.{sink_seen, AnswersMade, made_summary};

use crate::run::Status;
use op_base::{NoMemory, Text};
use script_net::transcript;
use std::alloc::Global;
use store_io::{Sink, write_whole};
use workload::{make, put_summary};

/// The summary of a made script and its transcript.
fn made_summary(alloc: Global, seed: u32, count: u32, n: u8, w: u8) -> Result<Text, NoMemory>
    requires { 1 ≤ n }
    ensures { IfOk result (λ text. text ≡ made_summary seed count n w) }
{
    let script = make(alloc, seed, count, n, w)?;
    let replies = transcript(alloc, script.as_slice())?;
    let mut summary = Text::new(alloc);
    put_summary(alloc, script.as_slice(), replies.as_slice(), &mut summary)?;
    Ok(summary)
}

/// Makes a script, runs it, and writes its summary, which is whole before its first byte is written.
pub fn run_made<K: Sink>(alloc: Global, seed: u32, count: u32, n: u8, w: u8, sink: &mut K) -> Status
    requires { 1 ≤ n }
    ensures { AnswersMade result (made_summary seed count n w) (sink_seen (K.held sink.old) (K.faults sink.old)) (sink_seen (K.held sink.new) (K.faults sink.new)) }
{
    let Ok(summary) = made_summary(alloc, seed, count, n, w) else {
        return Status::NoMemory;
    };
    match write_whole(sink, summary.as_slice()) {
        Ok(()) => Status::Fine,
        Err(_) => Status::WriteFault,
    }
}
