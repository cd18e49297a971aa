//! The mailboxes of members, whose passes are forked from the first ones and joined to them.

ghost use Rattle.std.specs.Prelude.{◌≡◌, ◌+◌, ◌<◌, ◌≤◌, ℕ, List, [], length, map, IfOk, OnOk};
ghost use Rattle.causal_model.specs.declared.note.Note.{Note as ANote};
ghost use Rattle.mailboxes.specs.Passes.{seen};
ghost use Rattle.live_run.specs.Meeting.{AreRows, AreToJoin, HaveJoined, HaveMet};
ghost use Rattle.live_run.specs.Opening.{AreFirsts, AreForked};
ghost use Rattle.live_run.specs.Posting.{AreMails};

use crate::letter::Letter;
use mailboxes::{MailPass, Mailbox};
use op_base::NoMemory;
use std::alloc::Global;

/// How many letters a mailbox has room for.
const ROOM: usize = 256;

/// A mailbox of each of `n` members, and their first passes.
pub(crate) fn open_mailboxes(
    alloc: Global,
    n: u8,
) -> Result<(Vec<Mailbox<Letter>>, Vec<MailPass<Letter>>), NoMemory>
    ensures of_each { IfOk result (λ made. length made.0.items ≡ n) }
    ensures firsts { IfOk result (λ made. AreFirsts 0 made.0.items made.1.items) }
{
    let mut mailboxes = Vec::with_capacity(alloc, n as usize)?;
    let mut firsts = Vec::with_capacity(alloc, n as usize)?;
    for _member in 0..n {
        let (mailbox, first) = Mailbox::create(alloc, ROOM)?;
        mailboxes.push(mailbox)?;
        firsts.push(first)?;
    }
    Ok((mailboxes, firsts))
}

/// A new pass of each mailbox, each the next fork of the first one there.
pub(crate) fn fork_all(
    alloc: Global,
    mailboxes: &[Mailbox<Letter>],
    firsts: &mut [MailPass<Letter>],
) -> Result<Vec<MailPass<Letter>>, NoMemory>
    requires firsts { (k : ℕ) × (k < 1024) × AreFirsts k mailboxes.now firsts.old }
    ensures firsts { (k : ℕ) → AreFirsts k mailboxes.now firsts.old → OnOk result (AreFirsts (k + 1) mailboxes.now firsts.new) }
    ensures mails { (k : ℕ) → AreFirsts k mailboxes.now firsts.old → IfOk result (λ mails. AreMails (k + 1) [] mailboxes.now mails.items) }
{
    let mut mails = Vec::with_capacity(alloc, mailboxes.len())?;
    for x in 0..mailboxes.len() {
        let mail = mailboxes[x].fork(&mut firsts[x])?;
        mails.push(mail)?;
    }
    Ok(mails)
}

/// Joins a row of passes to the first ones, each at its place.
fn join_row(
    mailboxes: &[Mailbox<Letter>],
    firsts: &mut [MailPass<Letter>],
    row: Vec<MailPass<Letter>>,
)
    requires { AreToJoin mailboxes.now firsts.old row.items }
    ensures { HaveJoined (length row.items) firsts.old row.items firsts.new }
{
    let mut x = 0;
    for mail in row {
        mailboxes[x].join(&mut firsts[x], mail);
        x += 1;
    }
}

/// Joins all passes of couriers to the first ones, a courier's row after the other.
pub(crate) fn join_rows(
    mailboxes: &[Mailbox<Letter>],
    firsts: &mut [MailPass<Letter>],
    rows: Vec<Vec<MailPass<Letter>>>,
)
    requires firsts { AreFirsts (length rows.items) mailboxes.now firsts.old }
    requires rows { (notes : ℕ → List ANote) × AreRows notes mailboxes.now (map (λ row. row.items) rows.items) }
    ensures { HaveMet mailboxes.now (map (λ row. row.items) rows.items) firsts.new }
{
    for row in rows {
        join_row(mailboxes, firsts, row);
    }
}
