//! Tests of whole scripts: their replies, and their pictures and tables.
#![tactic(auto)]

#[cfg(test)]
mod changes;
#[cfg(test)]
mod lists;
#[cfg(test)]
mod pictures;
#[cfg(test)]
mod replies;
#[cfg(test)]
mod scripts;
#[cfg(test)]
mod stops;
