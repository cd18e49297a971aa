//! The store's program: it runs a script from standard input, line by line, and writes the transcript; or it runs a live input
//! from there, in threads, and writes what came of it; or it makes a script, runs it, and writes a summary.
#![tactic(auto)]

mod live_feed;
mod live_mode;
#[cfg(test)]
mod live_tests;
mod made;
mod run;
#[cfg(test)]
mod tests;
mod words;
mod worked;

use run::{Status, run};
use std::process::ExitCode;
use std::rt::Env;
use std::{env, io};
use store_io::{OpenGate, StdinSource, StdoutSink};

fn main(rt: HostRuntime) -> ExitCode {
    let words = match given_words(&rt) {
        Ok(words) => words,
        Err(status) => return status.exit_code(),
    };
    let mut source = StdinSource::new(&rt);
    let mut sink = StdoutSink::new(&rt);
    run(
        &rt,
        rt.alloc(),
        words.as_slice(),
        &mut source,
        &mut sink,
        &OpenGate,
    )
    .exit_code()
}

/// The program's words, its own name first. Words that aren't UTF-8 are none of a run's.
fn given_words(rt: &(impl Env + AllocGlobal)) -> Result<Vec<String>, Status> {
    let words = match env::args(rt) {
        Ok(words) => words.collect(rt.alloc()),
        Err(error) if error.kind() == io::ErrorKind::InvalidData => return Err(Status::BadWords),
        Err(_) => return Err(Status::NoMemory),
    };
    words.map_err(|_| Status::NoMemory)
}
