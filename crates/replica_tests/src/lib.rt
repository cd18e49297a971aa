//! Tests of a replica, of the world of all, and of a replica whose notes a keeper keeps.
#![tactic(auto)]

#[cfg(test)]
mod damage;
#[cfg(test)]
mod failing;
#[cfg(test)]
mod fields;
#[cfg(test)]
mod records;
#[cfg(test)]
mod sending;
#[cfg(test)]
mod torn;
