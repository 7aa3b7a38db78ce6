//! The laws of pieces. Each is the contract of a function that does nothing.
ghost use Rattle.thread_writer.specs.Laws.{PiecesStay, PiecesHaveAll, PiecesAreFew};

/// A piece of a seat's writer stays one, however much more the seat links and sees.
pub fn pieces_stay()
    ensures { PiecesStay }
{}

/// The rows of a writer's pieces, and those that are left in its buffer, are the rows that its
/// operations add, in order, each once.
pub fn pieces_have_all()
    ensures { PiecesHaveAll }
{}

/// At most as many of a writer's pieces have a row as its operations that add documents; the rows that
/// are left in its buffer count as one more piece.
pub fn pieces_are_few()
    ensures { PiecesAreFew }
{}
