//! Parts of a replica that are filled and emptied, or whole replicas that send, many times.
//!
//! The words are the part (`window`, `buffer`, `matrix`, `outbox`, `log`, `items` or `replica`); how many members the store
//! has, 1 to 16; its window, 1 to 64; how much of the room is filled, in hundredths, or how many hundreds of items there are;
//! the step: `order`, at the buffer `reverse`, `mixed` and `scattered` too, and at the log, the items and replicas those of
//! their modules; and how many turns there are. The number is how many messages or steps went through the part.

mod buffer;
mod items;
mod log;
mod matrix;
mod replica;
mod sending;
mod updates;
mod window;

use crate::words::{number, small};
use anyhow::{Result, bail, ensure};
use causal_model::MOST_WINDOW;
use op_base::MOST_MEMBERS;
use std::alloc::Global;

/// How many messages or steps went through the part that the words name.
pub fn measure(alloc: Global, words: &[String]) -> Result<u64> {
    let [part, members, window, filled, step, turns] = words else {
        bail!("the words are a part, members, a window, how much is filled, a step, and turns");
    };
    let n = small(members.as_str())?;
    let w = small(window.as_str())?;
    let filled = number(filled.as_str())?;
    let turns = number(turns.as_str())?;
    ensure!(
        n >= 1 && n as usize <= MOST_MEMBERS,
        "no store has {n} members"
    );
    ensure!(w >= 1 && w <= MOST_WINDOW, "no store has a window of {w}");
    let step = step.as_str();
    match part.as_str() {
        "items" => items::measure(alloc, n, w, filled, step, turns),
        "replica" => replica::measure(alloc, n, w, filled, step, turns),
        _ if filled > 100 => bail!("more than the room"),
        "buffer" => buffer::measure(alloc, n, w, filled, step, turns),
        "log" => log::measure(alloc, n, w, filled, step, turns),
        _ if step != "order" => bail!("{part} has one order"),
        "window" => window::measure(alloc, n, w, filled, turns),
        "matrix" => matrix::measure(n, filled, turns),
        "outbox" => sending::measure(alloc, n, w, filled, turns),
        _ => bail!("no part: {part}"),
    }
}
