//! Tests of plans and of the runs of their clients, by public calls.
#![tactic(auto)]

#[cfg(test)]
mod tests;
