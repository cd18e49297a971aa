//! Tests of names, streams, frames and made scripts.
#![tactic(auto)]

#[cfg(test)]
mod frames;
#[cfg(test)]
mod made;
#[cfg(test)]
mod names;
#[cfg(test)]
mod streams;
