//! Posting and taking letters.

ghost use Rattle.std.specs.Prelude.{◌≡◌, ℕ, ◌<◌, List, length, Contains, IfSome, slice_index_or};
ghost use Rattle.causal_model.specs.declared.note.Note.{Note as ANote};
ghost use Rattle.causal_model.specs.declared.note.Note.TheVariants as note;
ghost use Rattle.mailboxes.specs.Passes.{seen};
ghost use Rattle.mailboxes.specs.Seen.{BeginsWith};
ghost use Rattle.live_run.specs.Mails.{WasPosted};
ghost use Rattle.live_run.specs.Posting.{AreMails, MailsGrow, WasPostedAt};
ghost use Rattle.live_run.specs.Workers.{IsMailDone};

use crate::letter::Letter;
use mailboxes::{MailPass, Mailbox};
use std::sync::Wait;

/// Posts a letter. Where the mailbox is full it is dropped.
fn post<R: Wait>(rt: &R, mailbox: &Mailbox<Letter>, pass: &mut MailPass<Letter>, letter: Letter)
    requires { (number : ℕ) × (notes : List ANote) × IsMailDone mailbox.now number notes pass.old }
    ensures kept { (number : ℕ) (notes : List ANote) → Contains notes (note.Sent letter.message) → IsMailDone mailbox.now number notes pass.old → IsMailDone mailbox.now number notes pass.new }
    ensures grows { BeginsWith (seen pass.new).posted (seen pass.old).posted }
{
    let _full = mailbox.post(rt, pass, letter);
}

/// Posts a letter to the mailbox at a place.
pub fn post_at<R: Wait>(
    rt: &R,
    mailboxes: &[Mailbox<Letter>],
    mails: &mut [MailPass<Letter>],
    x: usize,
    letter: Letter,
)
    requires inside { x < length mailboxes.now }
    requires mails { (number : ℕ) × (notes : List ANote) × AreMails number notes mailboxes.now mails.old }
    ensures kept { (number : ℕ) (notes : List ANote) → Contains notes (note.Sent letter.message) → AreMails number notes mailboxes.now mails.old → AreMails number notes mailboxes.now mails.new }
    ensures grow { MailsGrow mails.old mails.new }
{
    post(rt, &mailboxes[x], &mut mails[x], letter);
}

/// Takes a letter, where there is one.
fn take<R: Wait>(rt: &R, mailbox: &Mailbox<Letter>, pass: &mut MailPass<Letter>) -> Option<Letter>
    requires { (number : ℕ) × (notes : List ANote) × IsMailDone mailbox.now number notes pass.old }
    ensures kept { (number : ℕ) (notes : List ANote) → IsMailDone mailbox.now number notes pass.old → IsMailDone mailbox.now number notes pass.new }
    ensures grows { BeginsWith (seen pass.new).posted (seen pass.old).posted }
    ensures posted { IfSome result (λ letter. WasPosted (seen pass.new).posted letter.message) }
{
    mailbox.take(rt, pass)
}

/// Takes a letter from the mailbox at a place, where there is one.
pub fn take_at<R: Wait>(
    rt: &R,
    mailboxes: &[Mailbox<Letter>],
    mails: &mut [MailPass<Letter>],
    x: usize,
) -> Option<Letter>
    requires inside { x < length mailboxes.now }
    requires mails { (number : ℕ) × (notes : List ANote) × AreMails number notes mailboxes.now mails.old }
    ensures kept { (number : ℕ) (notes : List ANote) → AreMails number notes mailboxes.now mails.old → AreMails number notes mailboxes.now mails.new }
    ensures grow { MailsGrow mails.old mails.new }
    ensures posted { IfSome result (λ letter. WasPostedAt x mails.new letter.message) }
{
    take(rt, &mailboxes[x], &mut mails[x])
}
