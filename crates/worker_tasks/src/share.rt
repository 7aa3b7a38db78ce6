//! A worker's share of a script.
ghost use Rattle.std.specs.Prelude.{◌≡◌, ◌↔◌, [], None, length, IsTrue};

use crate::task::{Reply, Task};
use ix_base::List;
use std::alloc::Global;
use thread_writer::Piece;

/// A worker's tasks in order, what the first of them were told, and the piece that couldn't be sent, if
/// there is one: the worker stopped there, for want of memory.
#[derive(Drop)]
pub struct Share {
    pub tasks: List<Task>,
    pub replies: List<Reply>,
    pub held: Option<Piece>,
}

impl Share {
    /// A share of these tasks, of which none was told anything. It takes no memory.
    pub fn new(alloc: Global, tasks: Vec<Task>) -> Share
        ensures tasks { result.tasks ≡ tasks.items }
        ensures fresh { (result.replies ≡ []) × (result.held ≡ None) }
    {
        Share {
            tasks: List::from_vec(tasks),
            replies: List::new(alloc),
            held: None,
        }
    }

    /// The tasks.
    pub fn tasks(&self) -> &[Task]
        ensures { result.now ≡ self.now.tasks }
    {
        self.tasks.as_slice()
    }

    /// What the first of the tasks were told, in their order.
    pub fn replies(&self) -> &[Reply]
        ensures { result.now ≡ self.now.replies }
    {
        self.replies.as_slice()
    }

    /// Whether each task was told something.
    pub fn is_done(&self) -> bool
        ensures { IsTrue result ↔ (length self.now.replies ≡ length self.now.tasks) }
    {
        self.replies.len() == self.tasks.len()
    }

    /// What the first of the tasks were told, in their order.
    pub fn into_replies(self) -> Vec<Reply>
        ensures { result.items ≡ self.replies }
    {
        let Share { replies, .. } = self;
        replies.into_vec()
    }
}
