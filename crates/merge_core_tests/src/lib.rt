//! Tests of `merge_core`: what reaches a source while a merge reads it, and segments to which the
//! documents of blocks were dealt in turn. Segments are picked in the tests of the crates above.
#![tactic(auto)]

#[cfg(test)]
mod reading;
#[cfg(test)]
mod sources;
#[cfg(test)]
mod tests_changes;
#[cfg(test)]
mod tests_sources;
