//! The answers of a replica. They are those of the definitions, over all events of every history that its fields stand for.

ghost use Rattle.std.specs.Prelude.{◌≡◌, ◌⊎◌, IfOk, Some};
ghost use Rattle.op_base.specs.declared.name.Kind.TheVariants as kinds;
ghost use Rattle.op_base.specs.declared.outcome.Answer.TheVariants as answers;
ghost use Rattle.causal_model.specs.Elements.{list_ids};
ghost use Rattle.causal_model.specs.History.{events};
ghost use Rattle.causal_model.specs.KeptElements.{tombs_of};
ghost use Rattle.causal_model.specs.Parts.{has};
ghost use Rattle.causal_model.specs.Query.{answer};
ghost use Rattle.causal_model.specs.State.{State};

use crate::replica::Replica;
use counter_types::count_sum;
use flag_register_types::{flag_on, mvreg_values};
use op_base::{Answer, ElementIdList, Kind, NoMemory, ObjectId, Value};
use set_types::{set_contains, set_values};
use std::alloc::Global;

impl Replica {
    ghost use Rattle.replica_core.specs.Rules.{StandsFor};

    /// Whether a value is in a set.
    pub fn contains(&self, object: &ObjectId, value: &Value) -> bool
        requires kind { (object.now.kind ≡ kinds.AwSet) ⊎ (object.now.kind ≡ kinds.RwSet) }
        ensures answer { (s : State) → StandsFor self.now s → result ≡ has object.now.kind object.now (events s.history) (Some value.now) }
    {
        set_contains(
            self.log.of_object(object),
            &self.items.of_object(object),
            object,
            value,
        )
    }

    /// Whether a flag is on.
    pub fn flag(&self, object: &ObjectId) -> bool
        requires kind { (object.now.kind ≡ kinds.EwFlag) ⊎ (object.now.kind ≡ kinds.DwFlag) }
        ensures answer { (s : State) → StandsFor self.now s → answers.Flag result ≡ answer object.now (events s.history) }
    {
        flag_on(
            self.log.of_object(object),
            &self.items.of_object(object),
            object,
        )
    }

    /// The value of a counter.
    pub fn count(&self, object: &ObjectId) -> i128
        requires kind { (object.now.kind ≡ kinds.Counter) ⊎ (object.now.kind ≡ kinds.RCounter) }
        ensures answer { (s : State) → StandsFor self.now s → answers.Sum result ≡ answer object.now (events s.history) }
    {
        count_sum(
            self.log.of_object(object),
            &self.items.of_object(object),
            object,
        )
    }

    /// The ids of a list's elements, in its order. `NoMemory` leaves nothing behind.
    pub fn list_ids(&self, alloc: Global, object: &ObjectId) -> Result<ElementIdList, NoMemory>
        requires kind { object.now.kind ≡ kinds.List }
        ensures ids { IfOk result (λ ids. (s : State) → StandsFor self.now s → ids ≡ list_ids object.now (events s.history)) }
    {
        let entries = self.log.of_object(object);
        self.lists.ids(alloc, self.epoch, entries, object)
    }

    /// How many elements of a list are kept that aren't shown: their deletion, or that of one below them, isn't stable yet. It
    /// takes no memory.
    pub fn tombs(&self, object: &ObjectId) -> usize
        requires kind { object.now.kind ≡ kinds.List }
        ensures count { (s : State) → StandsFor self.now s → result ≡ tombs_of s.history object.now }
    {
        self.lists
            .tombs(self.epoch, self.log.of_object(object), object)
    }

    /// What an object is, whatever its kind: the values of a set or a register in byte order, those of a list in its order,
    /// whether a flag is on, or the value of a counter. `NoMemory` leaves nothing behind.
    pub fn answer(&self, alloc: Global, object: &ObjectId) -> Result<Answer, NoMemory>
        ensures answer { IfOk result (λ a. (s : State) → StandsFor self.now s → a ≡ answer object.now (events s.history)) }
    {
        let entries = self.log.of_object(object);
        let items = self.items.of_object(object);
        Ok(match object.kind {
            Kind::AwSet | Kind::RwSet => Answer::Values(set_values(
                alloc, entries, &items, object,
            )?),
            Kind::MvReg => Answer::Values(mvreg_values(alloc, entries, &items, object)?),
            Kind::EwFlag | Kind::DwFlag => Answer::Flag(flag_on(entries, &items, object)),
            Kind::Counter | Kind::RCounter => Answer::Sum(count_sum(entries, &items, object)),
            Kind::List => Answer::Values(self.lists.values(alloc, self.epoch, entries, object)?),
        })
    }
}
