//! Settling: rounds of offers and beats, until one moves nothing.

ghost use Rattle.std.specs.Prelude.{◌≡◌, ◌≢◌, ◌<◌, length, IfOk, OnErr};
ghost use Rattle.std.specs.List.{list_any};
ghost use Rattle.causal_model.specs.Follows.{FollowsOrStops};
ghost use Rattle.world_model.specs.World.{PlainWorld};
ghost use Rattle.world_model.specs.Settling.{is_delivery, after_offer, after_offers, after_beat, offers_made, round_of, world_settled, is_quiescent, settle_at};
ghost use Rattle.world_model.specs.Settling.{most_rounds as most_rounds_of};
ghost use Rattle.world.specs.Settles.{round_at, LeadsTo, IsBetween, IsAmongOffersTo, IsAmongBeatsOf, IsInRound, beats_made};

use crate::world::World;
use causal_model::Beat;
use op_base::{NoMemory, Step};
use std::alloc::Global;
use world_model::Settle;

impl World {
    ghost use Rattle.world.specs.Answers.{HasGrown, ShowsPlain};
    ghost use Rattle.world.specs.Honest.{ShowsHonest, ShowsQuiescent};
    ghost use Rattle.world.specs.Midst.{IsAmongOffers, IsInSettling};

    /// Makes rounds until one moves nothing. In a round each replica upwards is offered the outbox of each other member
    /// upwards, as it stands, oldest first; then each replica upwards makes a beat. A round moves where a message was
    /// delivered or a no-op sent. After `NoMemory` the first of these offers and beats were made.
    pub fn settle(&mut self, alloc: Global) -> Settle
        ensures answer { FollowsOrStops ShowsPlain Settle.NoMemory IsInSettling settle_at self.old result self.new }
        ensures honest { ShowsHonest self.old → ShowsHonest self.new }
        ensures settles { ShowsHonest self.old → result ≢ Settle.Unsettled }
        ensures quiescent { ShowsHonest self.old → result ≡ Settle.Settled → ShowsQuiescent self.new }
        ensures grown { HasGrown self.old self.new }
        ensures members { length self.new.nodes.items ≡ length self.old.nodes.items }
    {
        match self.make_rounds(alloc) {
            Err(NoMemory) => Settle::NoMemory,
            Ok(()) => {
                if self.is_quiescent() {
                    Settle::Settled
                } else {
                    Settle::Unsettled
                }
            }
        }
    }

    /// Makes rounds until one moves nothing.
    fn make_rounds(&mut self, alloc: Global) -> Result<(), NoMemory>
        ensures made { (plain : PlainWorld) → ShowsPlain self.old plain → IfOk result (λ done. ShowsPlain self.new (world_settled plain)) }
        ensures some { (plain : PlainWorld) → ShowsPlain self.old plain → OnErr result ((midst : PlainWorld) × IsInSettling plain midst × ShowsPlain self.new midst) }
        ensures grown { HasGrown self.old self.new }
        ensures members { length self.new.nodes.items ≡ length self.old.nodes.items }
    {
        let most = self.most_rounds();
        for _round in 0..most {
            if !self.make_round(alloc)? {
                return Ok(());
            }
        }
        Ok(())
    }

    /// How many rounds there are at most. A replica delivers at most the limit of each member, so at most so many rounds
    /// move, and one more doesn't.
    fn most_rounds(&self) -> u32
        ensures { (plain : PlainWorld) → ShowsPlain self.now plain → result ≡ most_rounds_of plain }
    {
        let members = self.nodes.len() as u32;
        members * (members * self.nodes[0].inner.limit) + 1
    }

    /// Makes a round. Whether it moved something.
    fn make_round(&mut self, alloc: Global) -> Result<bool, NoMemory>
        ensures made { (plain : PlainWorld) → ShowsPlain self.old plain → LeadsTo (round_of plain) (IsInRound plain) result (ShowsPlain self.new) }
        ensures grown { HasGrown self.old self.new }
        ensures members { length self.new.nodes.items ≡ length self.old.nodes.items }
    {
        let moved = self.make_all_offers(alloc)?;
        self.make_beats(alloc, moved)
    }

    /// Offers the outboxes of all others to each replica upwards. Whether a message was delivered.
    fn make_all_offers(&mut self, alloc: Global) -> Result<bool, NoMemory>
        ensures made { (plain : PlainWorld) → ShowsPlain self.old plain → LeadsTo (offers_made plain) (IsAmongOffers plain) result (ShowsPlain self.new) }
        ensures grown { HasGrown self.old self.new }
        ensures members { length self.new.nodes.items ≡ length self.old.nodes.items }
    {
        let mut moved = false;
        for r in 0..self.nodes.len() as u8 {
            moved = self.make_offers(alloc, r, moved)?;
        }
        Ok(moved)
    }

    /// Offers the outboxes of all others to replica `r`, members upwards. Whether something has moved by then.
    fn make_offers(&mut self, alloc: Global, r: u8, mut moved: bool) -> Result<bool, NoMemory>
        requires { r < length self.old.nodes.items }
        ensures made { (plain : PlainWorld) → ShowsPlain self.old plain → LeadsTo (after_offers (round_at plain moved) r) (IsAmongOffersTo (round_at plain moved) r) result (ShowsPlain self.new) }
        ensures grown { HasGrown self.old self.new }
        ensures members { length self.new.nodes.items ≡ length self.old.nodes.items }
    {
        for k in 0..self.nodes.len() as u8 {
            moved = self.make_offer(alloc, r, k, moved)?;
        }
        Ok(moved)
    }

    /// Offers the outbox of member `k` to replica `r`, unless they are one. Whether something has moved by then.
    fn make_offer(&mut self, alloc: Global, r: u8, k: u8, moved: bool) -> Result<bool, NoMemory>
        requires to { r < length self.old.nodes.items }
        requires of { k < length self.old.nodes.items }
        ensures made { (plain : PlainWorld) → ShowsPlain self.old plain → LeadsTo (after_offer r (round_at plain moved) k) (IsBetween plain r k) result (ShowsPlain self.new) }
        ensures grown { HasGrown self.old self.new }
        ensures members { length self.new.nodes.items ≡ length self.old.nodes.items }
    {
        if r == k {
            return Ok(moved);
        }
        let made = self.offer_outbox(alloc, r, k)?;
        Ok(moved || is_some_delivered(&made.steps))
    }

    /// Makes a beat at each replica upwards. Whether something has moved by then.
    fn make_beats(&mut self, alloc: Global, mut moved: bool) -> Result<bool, NoMemory>
        ensures made { (plain : PlainWorld) → ShowsPlain self.old plain → LeadsTo (beats_made (round_at plain moved)) (IsAmongBeatsOf (round_at plain moved)) result (ShowsPlain self.new) }
        ensures grown { HasGrown self.old self.new }
        ensures members { length self.new.nodes.items ≡ length self.old.nodes.items }
    {
        for r in 0..self.nodes.len() as u8 {
            moved = self.make_beat(alloc, r, moved)?;
        }
        Ok(moved)
    }

    /// Makes a beat at replica `r`. Whether something has moved by then.
    fn make_beat(&mut self, alloc: Global, r: u8, moved: bool) -> Result<bool, NoMemory>
        requires { r < length self.old.nodes.items }
        ensures made { (plain : PlainWorld) → ShowsPlain self.old plain → LeadsTo (after_beat (round_at plain moved) r) (λ midst. midst ≡ plain) result (ShowsPlain self.new) }
        ensures grown { HasGrown self.old self.new }
        ensures members { length self.new.nodes.items ≡ length self.old.nodes.items }
    {
        match self.beat(alloc, r) {
            Beat::Sent(_) => Ok(true),
            Beat::NoMemory => Err(NoMemory),
            Beat::Quiet | Beat::Held | Beat::End => Ok(moved),
        }
    }

    /// Whether all replicas have delivered as many messages of each member.
    pub(crate) fn is_quiescent(&self) -> bool
        ensures { (plain : PlainWorld) → ShowsPlain self.now plain → result ≡ is_quiescent plain }
    {
        let first = self.seen(0);
        for r in 0..self.nodes.len() as u8 {
            if self.seen(r) != first {
                return false;
            }
        }
        true
    }
}

/// Whether one of steps delivers a message.
fn is_some_delivered(steps: &[Step]) -> bool
    ensures { result ≡ list_any is_delivery steps.now }
{
    steps.iter().any(|step| matches!(step, Step::Took(_)))
}
