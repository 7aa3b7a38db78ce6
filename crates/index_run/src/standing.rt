//! Large values, at the end of a command.

use std::mem::ManuallyDrop;

/// Lets a value stand. The program ends soon, and gives back all of its memory at once: to give back that of
/// each row and term before would take a good part of a command's time.
pub fn let_stand<T: Drop>(value: T) {
    let _stands = ManuallyDrop::new(value);
}
