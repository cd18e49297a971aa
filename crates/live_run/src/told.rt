//! What workers give back.

use crate::letter::Letter;
use mailboxes::MailPass;
use replica_lock::Pass;
use script_lang::Reply;

/// What a client was told: how many notes its replica had then, and the reply.
#[derive(Debug, PartialEq, Eq, Drop)]
pub struct Told {
    pub place: u64,
    pub reply: Reply,
}

/// What a client gives back: what it was told, in the order of its commands, and its pass.
#[derive(Drop)]
pub struct ClientDone {
    pub told: Vec<Told>,
    pub pass: Pass,
}

/// What a client gives back that wanted memory: its pass.
#[derive(Drop)]
pub struct ClientStopped {
    pub pass: Pass,
}

/// What a courier gives back: its pass, and that of each mailbox, members upwards.
#[derive(Drop)]
pub struct CourierDone {
    pub pass: Pass,
    pub mails: Vec<MailPass<Letter>>,
}
