//! A replica of a store.

ghost use Rattle.std.specs.Prelude.{◌≡◌, ◌↔◌, IsTrue, IfOk, IsErrOf, false};
ghost use Rattle.causal_model.specs.State.{start};
ghost use Rattle.list_type.specs.Shown.{shown as lists_shown};
ghost use Rattle.stable_state.specs.Shown.{shown};
ghost use Rattle.replica_core.specs.Numbers.{are_numbers};
ghost use Rattle.replica_core.specs.Standing.{StandsForSome};

use crate::create_fault::CreateFault;
use crate::numbers::are_numbers;
use causal_buffer::CausalBuffer;
use list_type::Lists;
use op_base::{NoMemory, Tag};
use outbox::Outbox;
use polog::Polog;
use stability_matrix::Matrix;
use stable_state::Items;
use std::alloc::Global;
use tag_window::TagWindow;

/// One member's copy of a store. These fields are all that it has: of the messages that it delivered it keeps those that
/// aren't stable, as far as they are needed, and a plain state.
#[derive(Drop)]
pub struct Replica {
    /// The member that it is.
    pub me: u8,
    /// How many members the store has.
    pub n: u8,
    /// How many of its own operations may be unstable at once, 1 to 64.
    pub w: u8,
    /// How many messages it may send in an epoch, 1 to 1000000.
    pub limit: u32,
    /// The epoch that it is in, 0 to 65535.
    pub epoch: u32,
    /// How many messages of each member were delivered in this epoch.
    pub counts: Tag,
    /// What each member is known to have.
    pub matrix: Matrix,
    /// The timestamps of the unstable messages.
    pub window: TagWindow,
    /// The early messages.
    pub buffer: CausalBuffer,
    /// The unstable messages that nothing covers, of acts that their kinds log.
    pub log: Polog,
    /// What is settled.
    pub items: Items,
    /// The elements of lists, with those whose deletion isn't stable yet.
    pub lists: Lists,
    /// The own messages that aren't stable.
    pub outbox: Outbox,
    /// Whether a no-op is due.
    pub due: bool,
    pub ghost numbers: { IsTrue (are_numbers me n w limit) },
    /// There is a state that these fields stand for.
    pub ghost stands: { ∥ StandsForSome (record { me = me; n = n; w = w; limit = limit; epoch = epoch; counts = counts; matrix = matrix; window = window; buffer = buffer; log = log; items = shown items; lists = lists_shown lists; outbox = outbox; due = due }) ∥₁ },
}

impl Replica {
    ghost use Rattle.replica_core.specs.Rules.{StandsFor};

    /// A replica that has no message yet, in epoch 0. It takes the memory for all but its items and lists. It is `BadNumbers`
    /// exactly where the numbers aren't those of a member of a store, and else `NoMemory` may come; neither leaves anything
    /// behind.
    pub fn create(alloc: Global, me: u8, n: u8, w: u8, limit: u32) -> Result<Replica, CreateFault>
        ensures bad_numbers { IsErrOf result CreateFault.BadNumbers ↔ (are_numbers me n w limit ≡ false) }
        ensures me { IfOk result (λ r. r.me ≡ me) }
        ensures n { IfOk result (λ r. r.n ≡ n) }
        ensures w { IfOk result (λ r. r.w ≡ w) }
        ensures limit { IfOk result (λ r. r.limit ≡ limit) }
        ensures epoch { IfOk result (λ r. r.epoch ≡ 0) }
        ensures empty { IfOk result (λ r. StandsFor r (start n me)) }
    {
        if !are_numbers(me.into(), n.into(), w.into(), limit) {
            return Err(CreateFault::BadNumbers);
        }
        Ok(Replica {
            me,
            n,
            w,
            limit,
            epoch: 0,
            counts: Tag::zero(n),
            matrix: Matrix::new(n, me),
            window: TagWindow::create(alloc, n, w)?,
            buffer: CausalBuffer::create(alloc, n, w)?,
            log: Polog::create(alloc, n, w)?,
            items: Items::new(alloc),
            lists: Lists::new(alloc),
            outbox: Outbox::create(alloc, n, w)?,
            due: false,
        })
    }
}
