//! What the board shows.
ghost use Rattle.std.specs.Prelude.{◌≡◌, ◌+◌, Option, Some, None, ℕ, option_map};
ghost use Rattle.std.specs.Arc.{arc_value};

use crate::commit::Commit;
use left_right::Absorb;
use std::alloc::{AllocError, Global};
use std::sync::Arc;

/// The newest commit, and how many stand in the list.
#[derive(Drop)]
pub struct Shelf {
    pub(crate) newest: Option<Arc<Commit, Global>>,
    pub(crate) count: u64,
}

impl Absorb<Arc<Commit, Global>> for Shelf {
    type State = (Option<Commit>, u64);

    ghost state = { λ s. (option_map arc_value s.newest, s.count) };

    ghost applied = { λ s o. (Some (arc_value o), s.1 + 1) };

    fn absorb_first(
        &mut self,
        operation: &Arc<Commit, Global>,
        _other: &Shelf,
    ) -> Result<(), AllocError> {
        if self.count == u64::MAX {
            return Err(AllocError);
        }
        let copy = Arc::try_clone(operation)?;
        self.newest = Some(copy);
        self.count += 1;
        Ok(())
    }
}
