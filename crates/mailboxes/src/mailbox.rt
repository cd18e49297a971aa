//! A mailbox and its passes.

ghost use Rattle.std.specs.Prelude.{◌≡◌, ◌≢◌, ◌↔◌, ◌+◌, ◌<◌, ◌≤◌, true, [], length, IsOk, IfOk, IfErr, IfSome, IfNone, OnOk, OnErr};
ghost use Rattle.crossbeam_queue.specs.Passes.{view};
ghost use Rattle.mailboxes.specs.Seen.{first_seen, forked, newcomer, joined, BeginsWith, HasItsLine, IsExact, IsNumbered, TookOnce, TookAll, AreApart, KnowsAll, Posts, Takes};

use crate::rule::{Fork, InOneLine, Merge, Post, Take};
use crate::seen::View;
use crossbeam_queue::{Pass, RuledArrayQueue};
use op_base::NoMemory;
use std::alloc::Global;
use std::sync::Wait;

/// A queue of at most so many items, which threads post and take.
#[derive(Drop)]
pub struct Mailbox<T> {
    queue: RuledArrayQueue<T, View<T>, InOneLine>,
}

/// What one thread posts and takes by. It belongs to one mailbox.
#[derive(Drop)]
pub struct MailPass<T> {
    number: u32,
    forks: u32,
    pass: Pass<T, View<T>>,
    ghost named: { number ≡ (view pass).seen.number },
    ghost counted: { forks ≡ (view pass).seen.forks },
    ghost idle: { pass.me.1 ≡ [] },
    pub ghost has_its_line: { HasItsLine (view pass).seen },
    pub ghost exact: { IsExact (view pass).seen },
    pub ghost numbered: { IsNumbered (view pass).seen },
    pub ghost once: { TookOnce (view pass).seen },
    pub ghost whole: { TookAll (view pass).seen },
}

impl<T> MailPass<T> {
    ghost use Rattle.mailboxes.specs.Passes.{seen};

    /// Whether it is its mailbox's first pass, from which others are forked and to which they are joined.
    pub fn is_first(&self) -> bool
        ensures { (result ≡ true) ↔ ((seen self.now).number ≡ 0) }
    {
        self.number == 0
    }

    /// How many passes were forked from this one.
    pub fn forks(&self) -> u32
        ensures { result ≡ (seen self.now).forks }
    {
        self.forks
    }
}

impl<T> Mailbox<T> {
    ghost use Rattle.mailboxes.specs.Passes.{seen, IsOf, IsOfTheSame, capacity_of};

    /// An empty mailbox for `capacity` items, with its first pass.
    pub fn create(alloc: Global, capacity: usize) -> Result<(Mailbox<T>, MailPass<T>), NoMemory>
        requires some { 1 ≤ capacity }
        requires few { capacity ≤ 65536 }
        ensures capacity { IfOk result (λ r. capacity_of r.0 ≡ capacity) }
        ensures of { IfOk result (λ r. IsOf r.0 r.1) }
        ensures first { IfOk result (λ r. seen r.1 ≡ first_seen) }
    {
        let (queue, pass) = RuledArrayQueue::ruled(alloc, capacity)?;
        let (number, forks) = (0, 0);
        Ok((
            Mailbox { queue },
            MailPass {
                number,
                forks,
                pass,
            },
        ))
    }

    /// A new pass, which has seen what the given one had, the first. That counts it among its forks, and has seen what it
    /// had. `NoMemory` doesn't come, since a pass takes none.
    pub fn fork(&self, pass: &mut MailPass<T>) -> Result<MailPass<T>, NoMemory>
        requires of { IsOf self.now pass.old }
        requires first { (seen pass.old).number ≡ 0 }
        requires few { (seen pass.old).forks < 1024 }
        ensures made { IsOk result }
        ensures of { IsOfTheSame pass.old pass.new }
        ensures fork { IfOk result (λ fork. IsOf self.now fork) }
        ensures newcomer { IfOk result (λ fork. seen fork ≡ newcomer (seen pass.old)) }
        ensures counted { seen pass.new ≡ forked (seen pass.old) }
    {
        let fork = self.queue.another::<Fork>(&mut pass.pass);
        pass.forks += 1;
        Ok(MailPass {
            number: pass.forks,
            forks: 0,
            pass: fork,
        })
    }

    /// Puts an item at the end of the list. Where it comes back, the pass has seen what it had; and where the pass knows
    /// all, since it is the first and every fork was joined, the mailbox was full.
    pub fn post<R: Wait>(&self, rt: &R, pass: &mut MailPass<T>, item: T) -> Result<(), T>
        requires of { IsOf self.now pass.old }
        ensures of { IsOfTheSame pass.old pass.new }
        ensures grows { BeginsWith (seen pass.new).posted (seen pass.old).posted }
        ensures posted { OnOk result (Posts (seen pass.old) item (seen pass.new)) }
        ensures back { IfErr result (λ x. x ≡ item) }
        ensures kept { OnErr result (seen pass.new ≡ seen pass.old) }
        ensures full { OnErr result (KnowsAll (seen pass.old) → length (seen pass.old).posted ≡ (seen pass.old).taken + capacity_of self.now) }
    {
        self.queue.push_as::<Post, R>(rt, &mut pass.pass, item)
    }

    /// Takes an item of the list, at a place not below how many the pass had seen taken, and keeps the place; where the pass
    /// knows all, it is the oldest. Where it is `None`, the pass has seen what it had; and where the pass knows all, the
    /// mailbox was empty.
    pub fn take<R: Wait>(&self, rt: &R, pass: &mut MailPass<T>) -> Option<T>
        requires of { IsOf self.now pass.old }
        ensures of { IsOfTheSame pass.old pass.new }
        ensures grows { BeginsWith (seen pass.new).posted (seen pass.old).posted }
        ensures rises { (seen pass.old).taken ≤ (seen pass.new).taken }
        ensures taken { IfSome result (λ x. Takes (seen pass.old) x (seen pass.new)) }
        ensures kept { IfNone result (seen pass.new ≡ seen pass.old) }
        ensures empty { IfNone result (KnowsAll (seen pass.old) → length (seen pass.old).posted ≡ (seen pass.old).taken) }
    {
        self.queue.pop_as::<Take, R>(rt, &mut pass.pass)
    }

    /// Joins a fork to the first pass: that has then seen what either had, its roll has the lines of both, and its places
    /// are those that either took, of which none was taken by both.
    pub fn join(&self, first: &mut MailPass<T>, other: MailPass<T>)
        requires of { IsOf self.now first.old }
        requires other { IsOf self.now other }
        requires first { (seen first.old).number ≡ 0 }
        requires fork { (seen other).number ≢ 0 }
        ensures of { IsOfTheSame first.old first.new }
        ensures joined { seen first.new ≡ joined (seen first.old) (seen other) }
        ensures mine { BeginsWith (seen first.new).posted (seen first.old).posted }
        ensures theirs { BeginsWith (seen first.new).posted (seen other).posted }
        ensures apart { AreApart (seen first.old).places (seen other).places }
    {
        let MailPass { pass, .. } = other;
        self.queue.absorb::<Merge>(&mut first.pass, pass);
        self.queue.learn_as::<Merge>(&mut first.pass);
    }
}
