//! Tests of readings: what a history is read as, and which gets nothing explains.
#![tactic(auto)]

#[cfg(test)]
mod tests;
