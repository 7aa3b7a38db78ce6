//! The numbers that were set in rows, shared with copies of them until one of these changes.
ghost use Rattle.std.specs.Prelude.{◌≡◌, ℕ, [], true, map, IfOk, OnOk, OnErr};
ghost use Rattle.std.specs.Bool.{Decides};
ghost use Rattle.ix_base.specs.Limits.{names_rise};
ghost use Rattle.ix_base.specs.Steps.{with_number};
ghost use Rattle.live_docs.specs.Flags.{values_at, SetsRow, AreNumbered};

use crate::set_numbers::SetNumbers;
use ix_base::{Name, NoMemory};
use std::alloc::Global;
use std::marker::Model;
use std::sync::Arc;

/// The numbers that were set in rows, by row. A copy shares them with what it is a copy of: they are
/// copied in full once one of both is changed.
#[derive(Drop)]
pub(crate) struct SharedNumbers {
    shared: Arc<SetNumbers>,
}

impl Model for SharedNumbers {
    ghost use Rattle.std.specs.Arc.{arc_value};
    ghost use Rattle.std.specs.Prelude.{ℕ, List};
    ghost use Rattle.ix_base.specs.Steps.{Named};

    ghost Value = { List (ℕ × List Named) };

    ghost view = { λ numbers. arc_value numbers.shared };
}

impl SharedNumbers {
    /// No numbers.
    pub(crate) fn none(alloc: Global) -> Result<SharedNumbers, NoMemory>
        ensures { IfOk result (λ numbers. numbers ≡ []) }
    {
        Ok(SharedNumbers {
            shared: Arc::new(alloc, SetNumbers::none(alloc))?,
        })
    }

    /// A copy of these, which shares them. It takes no memory.
    pub(crate) fn share(&self) -> Result<SharedNumbers, NoMemory>
        ensures { IfOk result (λ copy. copy ≡ self.now) }
    {
        Ok(SharedNumbers {
            shared: Arc::try_clone(&self.shared)?,
        })
    }

    /// The numbers of a row, by name. It takes no memory.
    pub(crate) fn at(&self, row: u32) -> &[(Name, i64)]
        ensures values { result.now ≡ values_at self.now row }
        ensures rise { names_rise (map (λ number. number.0) result.now) ≡ true }
    {
        self.shared.at(row)
    }

    /// The rows in which numbers were set, in order.
    pub(crate) fn rows(&self, alloc: Global) -> Result<Vec<u32>, NoMemory>
        ensures { IfOk result (λ rows. AreNumbered rows.items self.now) }
    {
        self.shared.rows(alloc)
    }

    /// Whether each row has the same numbers here and there.
    pub(crate) fn is_same(&self, other: &SharedNumbers) -> bool
        ensures { Decides result ((row : ℕ) → values_at self.now row ≡ values_at other.now row) }
    {
        self.shared.is_same(&other.shared)
    }

    /// The row, in which no number was set, has a copy of these numbers. After an error all is as
    /// before.
    pub(crate) fn put(
        &mut self,
        alloc: Global,
        row: u32,
        numbers: &[(Name, i64)],
    ) -> Result<(), NoMemory>
        requires none { values_at self.old row ≡ [] }
        requires rise { names_rise (map (λ number. number.0) numbers.now) ≡ true }
        ensures ok { OnOk result (SetsRow row numbers.now self.old self.new) }
        ensures err { OnErr result (self.new ≡ self.old) }
    {
        if let Some(own) = Arc::get_mut(&mut self.shared) {
            return own.put(alloc, row, numbers);
        }
        let mut own = self.shared.clone_in(alloc)?;
        own.put(alloc, row, numbers)?;
        self.shared = Arc::new(alloc, own)?;
        Ok(())
    }

    /// Sets a number of a row, in place of the one by this name where there is one. After an error
    /// all is as before.
    pub(crate) fn set(
        &mut self,
        alloc: Global,
        row: u32,
        name: &Name,
        value: i64,
    ) -> Result<(), NoMemory>
        ensures ok { let numbers = with_number name.now value (values_at self.old row) in
            OnOk result (SetsRow row numbers self.old self.new) }
        ensures err { OnErr result (self.new ≡ self.old) }
    {
        if let Some(own) = Arc::get_mut(&mut self.shared) {
            return own.set(alloc, row, name, value);
        }
        let mut own = self.shared.clone_in(alloc)?;
        own.set(alloc, row, name, value)?;
        self.shared = Arc::new(alloc, own)?;
        Ok(())
    }
}
