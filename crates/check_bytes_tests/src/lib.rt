//! Tests of `index_check`: each byte of a small store is changed, and the check has to find it.
#![tactic(auto)]

#[cfg(test)]
mod files;
#[cfg(test)]
mod spelled;
#[cfg(test)]
mod tests;
