//! The window of timestamps. Each member's messages are checked and held, and then all are let go one after the other. The
//! number is how many were held.

ghost use Rattle.std.specs.Prelude.{◌≡◌, ◌+◌, ◌<◌, ◌≤◌, [], length, IsTrue};
ghost use Rattle.op_base.specs.Timestamp.{entry};
ghost use Rattle.causal_model.specs.Stability.{noop_window};
ghost use Rattle.tag_window.specs.Window.{held_of};

use anyhow::{Result, bail};
use causal_model::{MOST_WINDOW, most_unstable};
use op_base::{MOST_MEMBERS, Message, Op, Tag};
use std::alloc::Global;
use tag_window::TagWindow;

/// The timestamp of a member's message of a number: it has seen as many of each member before.
fn tag_of(n: u8, origin: u8, seq: u32) -> Tag
    requires few { n ≤ MOST_MEMBERS }
    requires member { origin < n }
    ensures members { length result ≡ n }
    ensures number { entry result origin ≡ seq }
{
    let mut tag = Tag::zero(n);
    for x in 0..origin {
        tag.set(x, seq);
    }
    tag.set(origin, seq);
    tag
}

/// Whether nothing is held of a member.
#[tactic(auto, using(crate::proofs::Empty::none_held))]
fn is_empty(window: &TagWindow, origin: u8) -> bool
    requires { origin < length window.now.held }
    ensures { IsTrue result → held_of window.now origin ≡ [] }
{
    window.own_unstable(origin, true) == 0 && window.own_unstable(origin, false) == 0
}

/// Holds a member's first messages, of which nothing is held, each checked as a no-op before. Those up to the window are
/// held as operations. How many weren't crooked.
fn fill(window: &mut TagWindow, n: u8, w: u8, origin: u8, most: u32) -> u32
    requires few { n ≤ MOST_MEMBERS }
    requires member { origin < n }
    requires members { length window.old.held ≡ n }
    requires empty { held_of window.old origin ≡ [] }
    requires room { most ≤ window.old.w + noop_window n window.old.w }
    ensures members { length window.new.held ≡ n }
    ensures bound { window.new.w ≡ window.old.w }
    ensures most { result ≤ most }
{
    let mut held = 0;
    let mut last = Tag::zero(n);
    let none = last;
    for done in 0..most {
        let tag = tag_of(n, origin, done + 1);
        let message = Message {
            origin,
            tag,
            op: Op::NoOp,
        };
        if window.check(&message, &last, &none).is_ok() {
            held += 1;
        }
        window.push(origin, tag, done >= u32::from(w));
        last = tag;
    }
    held
}

/// Lets so many messages of each member go, one after the other.
fn empty(window: &mut TagWindow, n: u8, most: u32)
    requires some { 1 ≤ n }
    requires few { n ≤ MOST_MEMBERS }
    requires members { length window.old.held ≡ n }
    ensures members { length window.new.held ≡ n }
    ensures bound { window.new.w ≡ window.old.w }
{
    let mut stable = Tag::zero(n);
    for done in 0..most {
        for origin in 0..n {
            stable.set(origin, done + 1);
            window.drop_stable(&stable);
        }
    }
}

/// Fills so many hundredths of a window's room and empties it, so often.
pub fn measure(alloc: Global, n: u8, w: u8, filled: u32, turns: u32) -> Result<u64>
    requires some { 1 ≤ n }
    requires few { n ≤ MOST_MEMBERS }
    requires window { 1 ≤ w }
    requires narrow { w ≤ MOST_WINDOW }
    requires within { filled ≤ 100 }
{
    let most = most_unstable(n, w) * filled / 100;
    let mut window = TagWindow::create(alloc, n, w)?;
    let mut held = 0u64;
    for _ in 0..turns {
        for origin in 0..n {
            if !is_empty(&window, origin) {
                bail!("a timestamp stays");
            }
            held = held.wrapping_add(u64::from(fill(&mut window, n, w, origin, most)));
        }
        empty(&mut window, n, most);
    }
    Ok(held)
}
