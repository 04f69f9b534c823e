//! Tests, by public calls, of places that no history leads to, and of lines that are handed over one by one.
#![tactic(auto)]

#[cfg(test)]
mod tests;
