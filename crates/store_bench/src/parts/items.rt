//! Settled items. Numbers are put into a set in random order, and then steps are taken at that size. The number is how many
//! numbers were put in, or how many steps did what they were to do.

ghost use Rattle.std.specs.Prelude.{◌≡◌, ◌≤◌, ℕ, List, Option, pos};
ghost use Rattle.op_base.specs.declared.name.ObjectId.{ObjectId as AnObject};
ghost use Rattle.causal_model.specs.Items.{cell_in};
ghost use Rattle.causal_model.specs.Acts.{amount_of};

use super::log::{Receiver, place_of};
use super::updates::{add, remove, set, value};
use anyhow::{Result, bail, ensure};
use causal_model::{ItemView, MOST_WINDOW};
use op_base::{Entry, MOST_MEMBERS, Tag, Update};
use stable_state::Items;
use std::alloc::Global;

/// There are at most so many items, in hundreds.
const MOST_HUNDREDS: u32 = 600;

/// So many items of a log's sets are marked.
const MARKED: u8 = 4;

/// The letter of the set.
const SET: u8 = b'z';

/// What a turn does.
#[derive(Clone, Copy, PartialEq, Eq)]
enum Step {
    /// All numbers are put in.
    Fill,
    /// An add is made.
    Make,
    /// A number is covered, and put in again.
    Cover,
    /// Some numbers are marked as removed again, and the marks settled, where the log is full.
    Marks,
    /// A number's cell is looked up.
    Cell,
    /// The set's places are looked up.
    Span,
}

fn step_of(word: &str) -> Result<Step> {
    Ok(match word {
        "fill" => Step::Fill,
        "make" => Step::Make,
        "cover" => Step::Cover,
        "marks" => Step::Marks,
        "cell" => Step::Cell,
        "span" => Step::Span,
        _ => bail!("no step of items: {word}"),
    })
}

/// So many numbers below 65536, no two the same, as a linear congruential generator gives them.
fn drawn(alloc: Global, count: usize) -> Result<Vec<u32>> {
    let mut numbers = Vec::with_capacity(alloc, count)?;
    let mut number = 1u32;
    for _ in 0..count {
        numbers.push(number)?;
        number = number.wrapping_mul(25173).wrapping_add(13849) % 65536;
    }
    Ok(numbers)
}

/// Items whose sums are 0, and numbers that are put into them.
#[derive(Drop)]
struct Settled {
    alloc: Global,
    items: Items,
    ghost plain: { (object : AnObject) (value : Option (List ℕ)) → (cell_in items.shelf.items object value).sum ≡ pos 0 },
}

impl Settled {
    fn new(alloc: Global) -> Settled {
        Settled {
            alloc,
            items: Items::new(alloc),
        }
    }

    /// Absorbs an update.
    fn put(&mut self, update: Update) -> Result<()>
        requires { amount_of update.act ≡ pos 0 }
    {
        self.items.reserve(1)?;
        self.items.absorb(Entry {
            origin: 0,
            tag: Tag::zero(1),
            update,
        });
        Ok(())
    }

    /// Puts numbers in.
    fn fill(&mut self, numbers: &[u32]) -> Result<()> {
        for number in numbers {
            self.put(add(self.alloc, SET, *number)?)?;
        }
        Ok(())
    }

    /// Marks some numbers as removed that are in a log.
    fn mark(&mut self) -> Result<()> {
        for origin in 0..MARKED {
            let (letter, number) = place_of(origin, 1);
            self.put(remove(self.alloc, letter, number)?)?;
        }
        Ok(())
    }

    /// Whether a step with a number does what it is to do, where these are the log's entries.
    fn does(&mut self, step: Step, number: u32, entries: &[Entry]) -> Result<bool> {
        let len = self.items.len();
        match step {
            Step::Fill => return Ok(false),
            Step::Make => {
                add(self.alloc, SET, number)?;
            }
            Step::Cover => {
                self.items.cover(&remove(self.alloc, SET, number)?);
                self.put(add(self.alloc, SET, number)?)?;
            }
            Step::Marks => {
                self.mark()?;
                self.items.settle_marks(entries);
            }
            Step::Cell => {
                let value = value(self.alloc, number)?;
                return Ok(self.items.cell(&set(self.alloc, SET)?, Some(&value)).on);
            }
            Step::Span => {
                let (from, to) = self.items.span(&set(self.alloc, SET)?);
                return Ok(from < to);
            }
        }
        Ok(self.items.len() == len)
    }
}

/// Puts the numbers in, so often.
fn fill(alloc: Global, numbers: &[u32], turns: u32) -> Result<u64> {
    let mut put = 0u64;
    for _ in 0..turns {
        let mut settled = Settled::new(alloc);
        settled.fill(numbers)?;
        put = put.wrapping_add(settled.items.len() as u64);
    }
    Ok(put)
}

/// Puts the numbers in, and takes so many steps with them. They are far from each other in the order of items.
fn step_through(
    alloc: Global,
    numbers: &[u32],
    step: Step,
    turns: u32,
    entries: &[Entry],
) -> Result<u64> {
    let mut settled = Settled::new(alloc);
    settled.fill(numbers)?;
    settled.mark()?;
    let mut done = 0u64;
    for turn in 0..turns {
        let place = (turn as usize).wrapping_mul(7919) % numbers.len().max(1);
        let Some(number) = numbers.get(place) else {
            bail!("no number");
        };
        if settled.does(step, *number, entries)? {
            done = done.wrapping_add(1);
        }
    }
    Ok(done)
}

/// Puts so many hundreds of numbers in so often, or once and takes so many steps.
pub fn measure(alloc: Global, n: u8, w: u8, hundreds: u32, step: &str, turns: u32) -> Result<u64>
    requires some { 1 ≤ n }
    requires few { n ≤ MOST_MEMBERS }
    requires open { 1 ≤ w }
    requires narrow { w ≤ MOST_WINDOW }
{
    let step = step_of(step)?;
    ensure!(hundreds <= MOST_HUNDREDS, "more than the numbers");
    let numbers = drawn(alloc, hundreds as usize * 100)?;
    if step == Step::Fill {
        return fill(alloc, &numbers, turns);
    }
    let log = Receiver::filled(alloc, n, w, u32::from(w), u32::from(w))?;
    step_through(alloc, &numbers, step, turns, log.entries())
}
