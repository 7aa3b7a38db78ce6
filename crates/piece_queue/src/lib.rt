//! The pieces of a round, on their way from the workers that made them to the keeper of the round.
//!
//! A round has one queue. Each worker has a `Sender`, by which it sends a piece as soon as it is made,
//! and the keeper has the `Receiver`, which has the pieces that it took, in the order in which they came.
//! Neither waits for the other, and there is no lock.
//!
//! The rule of the queue (`specs/Rule.antt`): of each worker, what was taken and then what the queue holds
//! is what that worker sent, in order, each piece once; and each piece is of a worker whose sender was
//! made. The keeper takes the senders back of workers that have ended, and so learns what they sent. An
//! empty queue then tells it that all of that was taken (`Receiver::empty`: `came`).
//!
//! A queue takes its memory in blocks, each with 32 words and with room for 31 pieces. A new queue has three
//! of them, since its first block and one for each of its ends are made at once. A push takes a further one
//! where the last is full, and a block is freed once its pieces were taken. A push that is refused for
//! memory gives its piece back.
#![tactic(auto)]

mod queue;
mod receiver;
mod rule;
mod sender;
mod view;

pub use queue::PieceQueue;
pub use receiver::Receiver;
pub use sender::Sender;
