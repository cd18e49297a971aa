//! Tests of what threads share: a lock, mailboxes, and a node under a lock.
#![tactic(auto)]

#[cfg(test)]
mod locks;
#[cfg(test)]
mod mails;
#[cfg(test)]
mod nodes;
