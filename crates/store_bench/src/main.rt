//! What is measured call by call, many times over, for `bench/run`, `bench/locks` and `bench/mails`.
//!
//! The first word says what: `frames`, `locks`, `mails` or `parts`. The others are told in the module of that name, and so is the
//! number that is printed.
#![tactic(auto)]

mod frames;
mod locks;
mod mails;
mod parts;
mod words;

use anyhow::{Result, bail};
use std::env;
use std::rt::Env;

fn main(rt: HostRuntime) -> Result<()> {
    let alloc = rt.alloc();
    let words: Vec<String> = env::args(&rt)?.collect(alloc)?;
    let [_, what, words @ ..] = words.as_slice() else {
        bail!("the first word is frames, locks, mails or parts");
    };
    let number = match what.as_str() {
        "frames" => frames::measure(alloc, words)?,
        "locks" => locks::measure(&rt, alloc, words)?,
        "mails" => mails::measure(&rt, alloc, words)?,
        "parts" => parts::measure(alloc, words)?,
        _ => bail!("nothing is measured as {what}"),
    };
    println!(rt; "{number}")?;
    Ok(())
}
