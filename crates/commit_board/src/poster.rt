//! The poster shows commits on the board.
ghost use Rattle.std.specs.Prelude.{◌≡◌, ◌≤◌, ◌++◌, ◌∷◌, [], IsSome, IfOk, OnOk, OnErr};
ghost use Rattle.commit_board.specs.Commits.{top_of};

use crate::commit::Commit;
use crate::publisher::Publisher;
use crate::viewer::Viewer;
use ix_base::NoMemory;
use std::alloc::Global;
use std::sync::{Arc, Wait};

/// The one who shows commits. It is not `Drop`: end it by `end`.
pub struct Poster {
    /// It is there, but within a call.
    pub(crate) publisher: Option<Publisher>,
    ghost held: { IsSome publisher },
}

impl Poster {
    ghost use Rattle.commit_board.specs.Board.{MayWait, listed_in, posted_on, seen_in, waiting_in, waiting_on};

    /// The poster of this board.
    pub(crate) fn of(publisher: Publisher) -> Poster
        ensures posted { posted_on result ≡ listed_in publisher }
        ensures waiting { waiting_on result ≡ waiting_in publisher }
    {
        Poster {
            publisher: Some(publisher),
        }
    }

    /// The number of the last commit that was posted or waits; 0 where there is none.
    pub fn number(&self) -> u64
        ensures { result ≡ top_of (posted_on self.now ++ waiting_on self.now) }
    {
        match &self.publisher {
            Some(publisher) => publisher.top,
            None => 0,
        }
    }

    /// Shows the commits that wait, if any, and then this one, all at once. Its number isn't below that of
    /// the last of them (`number` tells it). It waits for the watchers that still look at what was shown
    /// before the last post. The only error is out of memory: the watchers are shown what they were shown,
    /// and this commit waits behind the others, to be shown with the next one that is posted, where there
    /// was memory for that, and else is let go.
    pub fn post<R: Wait>(&mut self, rt: &R, alloc: Global, commit: Commit) -> Result<(), NoMemory>
        requires number { top_of (posted_on self.old ++ waiting_on self.old) ≤ commit.number }
        ensures posted { OnOk result
            (posted_on self.new ≡ (posted_on self.old ++ waiting_on self.old) ++ commit ∷ []) }
        ensures shown { OnOk result (waiting_on self.new ≡ []) }
        ensures refused { OnErr result (posted_on self.new ≡ posted_on self.old) }
        ensures waits { OnErr result (MayWait commit (waiting_on self.old) (waiting_on self.new)) }
    {
        let commit = Arc::new(alloc, commit)?;
        let (publisher, posted) = self.publisher.take().unwrap().post(rt, commit);
        if let Some(gone) = self.publisher.replace(publisher) {
            gone.end(rt);
        }
        posted
    }

    /// A viewer that shows the last commit that was posted, and knows all of them.
    pub(crate) fn viewer(&mut self) -> Result<Viewer, NoMemory>
        ensures seen { IfOk result (λ viewer. seen_in viewer ≡ posted_on self.old) }
        ensures posted { posted_on self.new ≡ posted_on self.old }
        ensures waiting { waiting_on self.new ≡ waiting_on self.old }
    {
        match &mut self.publisher {
            Some(publisher) => publisher.viewer(),
            None => Err(NoMemory),
        }
    }

    /// Ends the board: waits for the watchers that still look at it. From then on they answer from the
    /// commit that they were shown last. Commits that wait are let go.
    pub fn end<R: Wait>(self, rt: &R) {
        let Poster { publisher } = self;
        if let Some(publisher) = publisher {
            publisher.end(rt);
        }
    }
}
