//! Tests of histories, by public calls: their events, prefixes and records, and the texts that they are read
//! from and written as.
#![tactic(auto)]

#[cfg(test)]
mod tests;
