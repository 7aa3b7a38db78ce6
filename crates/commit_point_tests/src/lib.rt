//! Tests of `commit_point`: what a commit writes, what is read back, and what is damaged.
#![tactic(auto)]

#[cfg(test)]
mod tests;
#[cfg(test)]
mod tests_damage;
#[cfg(test)]
mod tests_faults;
#[cfg(test)]
mod tests_files;
#[cfg(test)]
mod tests_write;
