//! Tests of `delete_queue`: seats that link, read and gather a queue, by one thread and by several.
#![tactic(auto)]

#[cfg(test)]
mod tests;
#[cfg(test)]
mod tests_race;
