//! The laws of slices. Each is the contract of a function that does nothing.
ghost use Rattle.delete_queue.specs.declared.seat.Seat.{Seat};
ghost use Rattle.delete_queue.specs.declared.log.QueueLog.{QueueLog};
ghost use Rattle.delete_queue.specs.Seats.{Knows};
ghost use Rattle.delete_slice.specs.Entries.{Has};
ghost use Rattle.delete_slice.specs.Laws.{LogsAreInGrammar, PartsChain, PartsStay, PartsStayWithin};
ghost use Rattle.delete_slice.specs.Laws.{PartsAreLogged, SlicesStay, NumbersEndAtLast, PartsEndAtLast};

/// The words of each entry of a finished queue's log are in the grammar.
pub fn logs_are_in_grammar()
    ensures { LogsAreInGrammar }
{}

/// Updates that took one part and then the part after it have taken both as one part.
pub fn parts_chain()
    ensures seats { (s : Seat) → PartsChain (Knows s) }
    ensures logs { (log : QueueLog) → PartsChain (Has log) }
{}

/// Bounds on the numbers in updates stay bounds when the updates take a part whose places, added to
/// the base, are within them.
pub fn parts_stay_within()
    ensures seats { (s : Seat) → PartsStayWithin (Knows s) }
    ensures logs { (log : QueueLog) → PartsStayWithin (Has log) }
{}

/// A slice of what a seat has seen stays one, however much more the seat sees.
pub fn slices_stay()
    ensures { SlicesStay }
{}

/// What a seat knew of a part that updates took, it still knows later.
pub fn parts_stay()
    ensures { PartsStay }
{}

/// The log of the finished queue has what a seat knows of a part that updates took.
pub fn parts_are_logged()
    ensures { PartsAreLogged }
{}

/// No entry of a slice has a number above that of the last numbered entry that its seat has seen,
/// which is what `DeleteQueue::last_number` returns. So no number in updates that take the slice
/// rises above it.
pub fn numbers_end_at_last()
    ensures numbers { NumbersEndAtLast }
    ensures updates { PartsEndAtLast }
{}
