//! Tests of the recorders, by their public calls.
#![tactic(auto)]

#[cfg(test)]
mod tests;
