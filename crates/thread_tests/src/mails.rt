//! What no clause says of mailboxes: that calls succeed, in what order items come, and that threads lose nothing.
ghost use Rattle.std.specs.Prelude.{◌≡◌, ◌≢◌, ◌<◌, ◌≤◌, ℕ, IfOk, vec_len, slice_index_or};
ghost use Rattle.mailboxes.specs.Passes.{seen, IsOf};

use mailboxes::{MailPass, Mailbox};
use std::alloc::AllocError;
use std::sync::Wait;
use std::test::Fail;
use std::thread;
use std::thread::Threads;

/// How many items each thread posts and takes.
const SHARE: u32 = 2500;

#[test]
fn a_mailbox_is_a_queue_by_any_pass(rt: HostRuntime) -> Result<(), Fail> {
    let (mailbox, mut first) = Mailbox::create(rt.alloc(), 2)?;
    let mut one = mailbox.fork(&mut first)?;
    let mut two = mailbox.fork(&mut first)?;
    assert_eq!(rt; mailbox.post(&rt, &mut one, 'a'), Ok(()));
    assert_eq!(rt; mailbox.post(&rt, &mut two, 'b'), Ok(()));
    assert_eq!(rt; mailbox.post(&rt, &mut one, 'c'), Err('c'));
    assert_eq!(rt; mailbox.take(&rt, &mut one), Some('a'));
    mailbox.join(&mut first, one);
    mailbox.join(&mut first, two);
    assert_eq!(rt; mailbox.take(&rt, &mut first), Some('b'));
    assert_eq!(rt; mailbox.take(&rt, &mut first), None);
    Ok(())
}

/// A thread's pass, the first of the numbers that it posts, and the numbers that it takes.
#[derive(Drop)]
struct Job {
    pass: MailPass<u32>,
    from: u32,
    taken: Vec<u32>,
    ghost is_fork: { (seen pass).number ≢ 0 },
    ghost small: { from ≤ 7500 },
}

/// Posts the numbers from `from` on, and fills `taken`.
fn work<R: Wait>(rt: &R, mailbox: &Mailbox<u32>, job: Job) -> Job
    requires { IsOf mailbox.now job.pass }
    ensures { IsOf mailbox.now result.pass }
{
    let Job {
        mut pass,
        from,
        mut taken,
    } = job;
    let mut posted = 0;
    let mut count = 0;
    for _ in rt.forever() {
        if posted == SHARE && count == taken.len() {
            break;
        }
        if posted < SHARE && mailbox.post(rt, &mut pass, from + posted).is_ok() {
            posted += 1;
        }
        if count < taken.len()
            && let Some(x) = mailbox.take(rt, &mut pass)
        {
            taken[count] = x;
            count += 1;
        }
        thread::yield_now();
    }
    Job { pass, from, taken }
}

fn work_all<R: Threads + Wait + Sync>(
    rt: &R,
    mailbox: &Mailbox<u32>,
    jobs: Vec<Job>,
) -> Result<Vec<Job>, AllocError>
    requires { (i : ℕ) (d : _) → i < vec_len jobs → IsOf mailbox.now (slice_index_or jobs.items i d).pass }
    ensures len { IfOk result (λ done. vec_len done ≡ vec_len jobs) }
    ensures each { IfOk result (λ done. (i : ℕ) (d : _) → i < vec_len jobs → IsOf mailbox.now (slice_index_or done.items i d).pass) }
{
    thread::map_vec(
        rt,
        jobs,
        &|job| -> Job
            requires { IsOf mailbox.now job.pass }
            ensures { IsOf mailbox.entry.now result.pass }
        { work(rt, mailbox, job) },
    )
}

#[test]
fn four_threads_lose_nothing_and_take_nothing_twice(rt: HostRuntime) -> Result<(), Fail> {
    let alloc = rt.alloc();
    let (mailbox, mut first) = Mailbox::create(alloc, 16)?;
    let mut jobs = Vec::new(alloc);
    for number in 0..4 {
        let pass = mailbox.fork(&mut first)?;
        let taken = Vec::from_elem(alloc, 0, SHARE as usize)?;
        let from = number * SHARE;
        jobs.push(Job { pass, from, taken })?;
    }
    let done = work_all(&rt, &mailbox, jobs)?;
    let mut times = Vec::from_elem(alloc, 0, 4 * SHARE as usize)?;
    // As many places as there are numbers: where each number was taken, none was taken twice.
    for job in done {
        for x in &job.taken {
            let count = times
                .get_mut(*x as usize)
                .expect(&rt, "a number that was posted");
            *count = 1;
        }
        mailbox.join(&mut first, job.pass);
    }
    assert!(rt; times.iter().all(|count| *count == 1));
    assert_eq!(rt; mailbox.take(&rt, &mut first), None);
    Ok(())
}
