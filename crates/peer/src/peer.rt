//! A peer, and what it tells.

ghost use Rattle.std.specs.Prelude.{◌≡◌, ◌↔◌, length, IfOk, IsErrOf, false};
ghost use Rattle.causal_model.specs.History.{events};
ghost use Rattle.causal_model.specs.Query.{answer};
ghost use Rattle.causal_model.specs.State.{State, start, counted};
ghost use Rattle.causal_model.specs.Stability.{stable_vector};
ghost use Rattle.replica_core.specs.Numbers.{are_numbers};
ghost use Rattle.replica_core.specs.Rules.{StandsFor};

use op_base::{Answer, NoMemory, ObjectId, Tag};
use replica_core::{CreateFault, Replica};
use std::alloc::Global;
use std::marker::Model;

/// One member's copy of a store, which sends and receives frames. Contracts see the replica that it has.
#[derive(Drop)]
pub struct Peer {
    pub(crate) replica: Replica,
}

impl Model for Peer {
    ghost use Rattle.std.specs.Prelude.{◌≡◌};
    ghost use Rattle.replica_core.specs.declared.replica.Replica.{Replica as AReplica};

    ghost Value = { AReplica };

    ghost use Rattle.replica_core.specs.contracts.replica.Replica as the_replica;

    ghost coded = { the_replica.the_row.coded };

    ghost view = { λ p. p.replica };

    ghost invariant = { λ p. p.replica.epoch ≡ 0 };
}

impl Peer {
    /// Member `me` of a store of `n`, with a window of `w` and a limit of messages a member: all members are made with the
    /// same `n`, `w` and `limit`. It has no message yet, and takes the memory for all but what is settled.
    pub fn create(alloc: Global, me: u8, n: u8, w: u8, limit: u32) -> Result<Peer, CreateFault>
        ensures bad_numbers { IsErrOf result CreateFault.BadNumbers ↔ (are_numbers me n w limit ≡ false) }
        ensures me { IfOk result (λ p. p.me ≡ me) }
        ensures n { IfOk result (λ p. p.n ≡ n) }
        ensures w { IfOk result (λ p. p.w ≡ w) }
        ensures limit { IfOk result (λ p. p.limit ≡ limit) }
        ensures empty { IfOk result (λ p. StandsFor p (start n me)) }
    {
        Ok(Peer {
            replica: Replica::create(alloc, me, n, w, limit)?,
        })
    }

    /// What an object is, by all operations that were delivered here: the values of a set or a register in byte order,
    /// those of a list in its order, whether a flag is on, or the value of a counter.
    pub fn ask(&self, alloc: Global, object: &ObjectId) -> Result<Answer, NoMemory>
        ensures { IfOk result (λ a. (s : State) → StandsFor self.now s → a ≡ answer object.now (events s.history)) }
    {
        self.replica.answer(alloc, object)
    }

    /// How many messages of each member were delivered here.
    pub fn seen(&self) -> Tag
        ensures counts { (s : State) → StandsFor self.now s → result ≡ counted s.history }
        ensures members { length result ≡ self.now.n }
    {
        self.replica.counts
    }

    /// How many messages of each member every member is known to have, by what was told here.
    pub fn stable(&self) -> Tag
        ensures counts { (s : State) → StandsFor self.now s → result ≡ stable_vector self.now.n self.now.me s.history.present.messages }
        ensures members { length result ≡ self.now.n }
    {
        self.replica.matrix.stable()
    }
}
