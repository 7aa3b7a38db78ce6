//! Tests of `index_check`: stores that are sound, and which first place of others is told.
#![tactic(auto)]

#[cfg(test)]
mod tests;
#[cfg(test)]
mod tests_many;
#[cfg(test)]
mod tests_stores;
