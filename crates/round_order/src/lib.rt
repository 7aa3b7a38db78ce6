//! The operations of several workers in one order: that of their sequence numbers. It has definitions
//! alone.
#![tactic(auto)]
