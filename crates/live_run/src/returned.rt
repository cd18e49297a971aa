//! What workers gave back, by kind.

ghost use Rattle.std.specs.Prelude.{◌≡◌, ℕ, List, length, map, IfOk, OnOk};
ghost use Rattle.mailboxes.specs.declared.mailbox.Mailbox.{Mailbox as AMailbox};
ghost use Rattle.replica_lock.specs.declared.pass.Settings.{Settings as ASettings};
ghost use Rattle.turn_lock.specs.Turns.{LockState};
ghost use Rattle.live_run.specs.Ended.{AreLocks};
ghost use Rattle.live_run.specs.Returned.{AreDone, AreReturned, IsPut};
ghost use Rattle.live_run.specs.declared.input.NumberedLine.{NumberedLine as ANumberedLine};
ghost use Rattle.live_run.specs.declared.letter.Letter.{Letter as ALetter};

use crate::joining::Back;
use crate::letter::Letter;
use crate::told::{ClientDone, CourierDone, Told};
use crate::workers::Done;
use mailboxes::MailPass;
use op_base::NoMemory;
use std::alloc::Global;

/// What clients were told, couriers' passes of the mailboxes, and all passes of nodes: clients upwards, and then couriers.
#[derive(Drop)]
pub(crate) struct Returned {
    pub told: Vec<Vec<Told>>,
    pub rows: Vec<Vec<MailPass<Letter>>>,
    pub backs: Vec<Back>,
}

/// What workers gave back, by kind. Where one stopped for want of memory, it is `NoMemory`.
pub(crate) fn take_apart(alloc: Global, results: Vec<Done>) -> Result<Returned, NoMemory>
    ensures { (nodes : List (LockState ASettings)) (mailboxes : List (AMailbox ALetter)) (lines : List ANumberedLine) (w clients : ℕ) → AreLocks (length nodes) w nodes → AreDone nodes mailboxes lines clients results.items
        → IfOk result (λ returned. AreReturned nodes mailboxes lines w clients (length results.items) (map (λ ts. ts.items) returned.told.items) (map (λ row. row.items) returned.rows.items) returned.backs.items) }
{
    let mut returned = Returned {
        told: Vec::new(alloc),
        rows: Vec::new(alloc),
        backs: Vec::with_capacity(alloc, results.len())?,
    };
    for done in results {
        put_done(&mut returned, done)?;
    }
    Ok(returned)
}

/// Puts what one gave back behind the others.
fn put_done(returned: &mut Returned, done: Done) -> Result<(), NoMemory>
    ensures { OnOk result (IsPut done returned.old returned.new) }
{
    match done {
        Done::Client {
            at,
            done: ClientDone { told, pass },
        } => {
            returned.told.push(told)?;
            returned.backs.push(Back { at, pass })?;
        }
        Done::Courier {
            at,
            done: CourierDone { pass, mails },
        } => {
            returned.rows.push(mails)?;
            returned.backs.push(Back { at, pass })?;
        }
        Done::Stopped(_) => return Err(NoMemory),
    }
    Ok(())
}
