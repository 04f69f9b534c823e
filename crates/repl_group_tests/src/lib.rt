//! Tests of a replication group and of its core, by their public calls.
#![tactic(auto)]

#[cfg(test)]
mod tests;
