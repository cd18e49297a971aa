//! Numbers that are posted and taken in some threads.
//!
//! The words are how many threads, from 1 to 64, and how many numbers each posts and takes. The number is the sum of
//! those that were taken.

ghost use Rattle.std.specs.Prelude.{◌<◌, ℕ, vec_len, slice_index_or};
ghost use Rattle.mailboxes.specs.Passes.{IsOf};

use crate::words::number;
use anyhow::{Result, bail, ensure};
use mailboxes::{MailPass, Mailbox};
use std::alloc::{AllocError, Global};
use std::sync::Wait;
use std::thread;
use std::thread::Threads;

/// How many numbers the mailbox has room for.
const CAPACITY: usize = 1024;

/// Posts so many numbers and takes as many, in turn as far as there is room and something to take. The sum of those
/// that were taken, modulo 2^64.
fn work<R: Wait>(rt: &R, mailbox: &Mailbox<u64>, mut pass: MailPass<u64>, count: u64) -> u64
    requires { IsOf mailbox.now pass }
{
    let mut posted = 0;
    let mut taken = 0;
    let mut sum = 0u64;
    for _ in rt.forever() {
        if posted >= count && taken >= count {
            break;
        }
        if posted < count && mailbox.post(rt, &mut pass, posted).is_ok() {
            posted += 1;
        }
        if taken < count {
            match mailbox.take(rt, &mut pass) {
                Some(number) => {
                    sum = sum.wrapping_add(number);
                    taken += 1;
                }
                None => thread::yield_now(),
            }
        }
    }
    sum
}

/// Each pass posts and takes so many numbers, in a thread of its own where one can be made.
fn work_all<R: Threads + Wait + Sync>(
    rt: &R,
    mailbox: &Mailbox<u64>,
    passes: Vec<MailPass<u64>>,
    count: u64,
) -> Result<Vec<u64>, AllocError>
    requires { (i : ℕ) (d : _) → i < vec_len passes → IsOf mailbox.now (slice_index_or passes.items i d) }
{
    thread::map_vec(
        rt,
        passes,
        &|pass| -> u64
            requires { IsOf mailbox.now pass }
        { work(rt, mailbox, pass, count) },
    )
}

/// The sum of what was taken after the posts of the words.
pub fn measure<R: Threads + Wait + Sync>(rt: &R, alloc: Global, words: &[String]) -> Result<u64> {
    let [threads, count] = words else {
        bail!("the words are how many threads and how many numbers");
    };
    let threads = number(threads.as_str())?;
    let count = u64::from(number(count.as_str())?);
    ensure!(1 <= threads && threads <= 64, "1 to 64 threads");
    let (mailbox, mut first) = Mailbox::create(alloc, CAPACITY)?;
    let mut passes = Vec::new(alloc);
    for _ in 0..threads {
        passes.push(mailbox.fork(&mut first)?)?;
    }
    let mut sum = 0u64;
    for taken in work_all(rt, &mailbox, passes, count)? {
        sum = sum.wrapping_add(taken);
    }
    Ok(sum)
}
