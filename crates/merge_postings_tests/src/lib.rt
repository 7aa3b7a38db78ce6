//! Tests of `merge_postings`: merged postings against the inversion of the rows that got a number.
#![tactic(auto)]

#[cfg(test)]
mod layouts;
#[cfg(test)]
mod parts;
#[cfg(test)]
mod rising;
#[cfg(test)]
mod tests;
#[cfg(test)]
mod tests_large;
