//! Tests of `query_core`: answers to queries over the postings of documents.
#![tactic(auto)]

#[cfg(test)]
mod tests;
