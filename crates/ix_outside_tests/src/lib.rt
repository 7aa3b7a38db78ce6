//! Tests of `ix_outside`: streams and directories, over odd objects and over a recorded file system.
#![tactic(auto)]

#[cfg(test)]
mod fault_tests;
#[cfg(test)]
mod odd_outside;
#[cfg(test)]
mod opened;
#[cfg(test)]
mod order_tests;
#[cfg(test)]
mod recorded_system;
#[cfg(test)]
mod script;
#[cfg(test)]
mod tests;
