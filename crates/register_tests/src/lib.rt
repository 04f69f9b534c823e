//! Tests of pairs, ids and documents as registers, by public calls.
#![tactic(auto)]

#[cfg(test)]
mod tests;
