//! Lists of the names of files, each once.
ghost use Rattle.std.specs.Prelude.{◌≡◌, ◌↔◌, All, Contains, IsTrue, OnOk, filter, not};
ghost use Rattle.ix_base.specs.FileNames.{IsFileName};
ghost use Rattle.ix_outside.specs.Disk.{is_same};
ghost use Rattle.ix_memory.specs.Names.{Gains, Loses, GoesOn, NamesFile};

use ix_base::{FileName, List, NoMemory};
use ix_outside::Step;

/// Whether two names are the same.
pub fn is_same(one: FileName, other: FileName) -> bool
    ensures { result ≡ is_same one other }
{
    one == other
}

/// Takes the name out of the list, wherever it stands.
fn take_out(names: &mut Vec<FileName>, name: FileName)
    ensures { names.new.items ≡ filter (λ other. not (is_same other name)) names.old.items }
{
    names.retain(|other| !is_same(*other, name));
}

/// The file of this name is gone: takes the name out of the list.
fn lose(names: &mut Vec<FileName>, name: FileName)
    ensures change { Loses name names.old.items names.new.items }
    ensures real { All IsFileName names.old.items → All IsFileName names.new.items }
{
    take_out(names, name);
}

/// A file of this name is there: the list has the name once, at its end.
fn gain(names: &mut Vec<FileName>, name: FileName) -> Result<(), NoMemory>
    ensures change { OnOk result (Gains name names.old.items names.new.items) }
    ensures real { OnOk result (IsFileName name → All IsFileName names.old.items
        → All IsFileName names.new.items) }
{
    take_out(names, name);
    names.push(name)?;
    Ok(())
}

/// The names of the files before the step become those after it.
pub fn go_on(names: &mut Vec<FileName>, step: &Step) -> Result<(), NoMemory>
    ensures change { OnOk result (GoesOn step.now names.old.items names.new.items) }
    ensures real { OnOk result (NamesFile step.now → All IsFileName names.old.items
        → All IsFileName names.new.items) }
{
    match step {
        Step::Wrote(name, _) => gain(names, *name),
        Step::Renamed(from, to) => rename(names, *from, *to),
        Step::Deleted(name) => {
            lose(names, *name);
            Ok(())
        }
        Step::Spoilt(name, found) => spoil(names, *name, found),
        Step::Synced(_) | Step::Settled | Step::HalfRenamed(_, _) | Step::HalfDeleted(_) => Ok(()),
    }
}

/// The file has these bytes now, or is gone.
fn spoil(
    names: &mut Vec<FileName>,
    name: FileName,
    found: &Option<List<u8>>,
) -> Result<(), NoMemory>
    ensures change { OnOk result (GoesOn
        (Step.Spoilt name found.now) names.old.items names.new.items) }
    ensures real { OnOk result (IsFileName name → All IsFileName names.old.items
        → All IsFileName names.new.items) }
{
    match found {
        Some(_) => gain(names, name),
        None => {
            lose(names, name);
            Ok(())
        }
    }
}

/// The file of the first name, if it is there, has the second one now, in place of another file.
fn rename(names: &mut Vec<FileName>, from: FileName, to: FileName) -> Result<(), NoMemory>
    ensures change { OnOk result (GoesOn (Step.Renamed from to) names.old.items names.new.items) }
    ensures real { OnOk result (IsFileName to → All IsFileName names.old.items
        → All IsFileName names.new.items) }
{
    if is_same(from, to) {
        return Ok(());
    }
    if has(names, from) {
        gain(names, to)?;
        lose(names, from);
        Ok(())
    } else {
        lose(names, to);
        lose(names, from);
        Ok(())
    }
}

/// Whether the name is in the list.
fn has(names: &Vec<FileName>, name: FileName) -> bool
    ensures { IsTrue result ↔ Contains names.now.items name }
{
    names.contains(&name)
}
