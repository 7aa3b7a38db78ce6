//! Tests of `door_pool`: one door by one thread, and two callers in threads beside a keeper.
#![tactic(auto)]

#[cfg(test)]
mod caller;
#[cfg(test)]
mod keeper;
#[cfg(test)]
mod notes;
#[cfg(test)]
mod tests;
