//! Tests of `segment_files`: rows and postings as bytes, with each field damaged in turn.
#![tactic(auto)]

#[cfg(test)]
mod tests;
#[cfg(test)]
mod tests_posts;
