//! What watches the lines of a run.

/// Hears of each try of a write or commit line, and of each sequence number that a line gets. The
/// program's gate does nothing.
pub trait Gate: Sync {
    /// A worker is about to try this line of the script.
    fn before(&self, line: u32);

    /// This line of the script got this sequence number.
    fn told(&self, line: u32, number: u64);
}

/// The program's gate, which does nothing.
#[derive(Clone, Copy, Debug)]
pub struct EmptyGate;

impl Gate for EmptyGate {
    fn before(&self, _line: u32) {}

    fn told(&self, _line: u32, _number: u64) {}
}
