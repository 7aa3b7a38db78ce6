//! Tests of `report_text`: the lines of a report and of faults.
#![tactic(auto)]

#[cfg(test)]
mod tests;
