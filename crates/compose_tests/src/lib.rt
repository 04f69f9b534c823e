//! Tests of evidence against histories, of documents that are searched at once, and of the sort of lists.
#![tactic(auto)]

#[cfg(test)]
mod tests;
