//! What no clause says: which entries are files of the index, which errors of the system are faults, and
//! that no size is given up at.
use crate::opened::store_at;
use crate::script::compare;
use ix_base::FileName;
use ix_outside::Store;
use std::fs;
use std::test::Fail;

/// Entries of a directory, and what a store makes of them.
const ENTRIES: &str = "\
# A missing directory is a failure at each call, and isn't made.
remove:
list: failed
read seg_1.row: failed
write seg_1.row rows: failed
sync seg_1.row: failed
rename seg_1.row seg_2.row: failed
delete seg_1.row: failed
sync_all: failed
faults: 7
look: absent

# Names that are none of the index are passed over.
directory lost:
file notes x:
file segments_02 x:
file lost/segments_3 x:
list:
write segments_2 two: ok
list: segments_2
faults: 0

# A file of one byte more than a store reads is a failure.
long seg_1.row:
read seg_1.row: failed
faults: 1

# Files alone are listed: no directory, no link, and nothing that is gone meanwhile.
file segments_1 x:
directory segments_2:
file notes x:
file pending_segments_5 x:
link segments_3 segments_1:
file segments_4 x:
file seg_6.row x:
fail NotFound look segments_4:
list: segments_1 pending_segments_5 seg_6.row
faults: 0

# An entry whose name is no text is a failure.
file segments_1 x:
file segments_~ x:
list: failed
faults: 1

# An entry whose kind is not told is a failure.
file segments_1 x:
file segments_7 x:
file segments_8 x:
reader:
fail PermissionDenied look segments_7:
list: failed
faults: 1

# A directory is no file, a link is not followed, and a new file takes the place of a link.
directory segments_5:
file target far:
link seg_1.row target:
link seg_2.row nothing:
list:
read seg_1.row: absent
delete seg_1.row: ok
read seg_2.row: absent
delete seg_2.row: ok
read segments_5: absent
delete segments_5: ok
faults: 0
sync seg_1.row: failed
rename seg_1.row seg_3.row: failed
write segments_5 x: failed
faults: 3
write seg_1.row near: ok
write seg_2.row there: ok
rename seg_2.row seg_1.row: ok
read seg_1.row: = there
look target: = far
look nothing: absent
";

#[test]
fn entries_that_are_no_files(rt: HostRuntime) -> Result<(), Fail> {
    compare(&rt, "ix_outside_kinds", ENTRIES)
}

/// Calls of the system that fail, and what a store makes of them.
const FAULTS: &str = "\
# A file that may not be looked at isn't absent.
write seg_1.row one: ok
sync seg_1.row: ok
fail PermissionDenied look:
read seg_1.row: failed
sync seg_1.row: failed
rename seg_1.row seg_2.row: failed
delete seg_2.row: failed
faults: 4
fail NotADirectory look:
read seg_1.row: failed
sync seg_1.row: failed
rename seg_1.row seg_2.row: failed
delete seg_2.row: failed
faults: 8
fail Other look:
read seg_1.row: failed
sync seg_1.row: failed
rename seg_1.row seg_2.row: failed
delete seg_2.row: failed
faults: 12

# A file that may not be opened isn't absent.
write seg_1.row one: ok
sync seg_1.row: ok
fail PermissionDenied open:
read seg_1.row: failed
sync seg_1.row: failed
rename seg_1.row seg_2.row: ok
delete seg_2.row: ok
faults: 2
fail Other:
write seg_1.row one: ok
sync seg_1.row: ok
fail NotFound open:
read seg_1.row: failed
sync seg_1.row: failed
rename seg_1.row seg_2.row: ok
delete seg_2.row: ok
faults: 4
fail Other:
write seg_1.row one: ok
sync seg_1.row: ok
fail Other open:
read seg_1.row: failed
sync seg_1.row: failed
rename seg_1.row seg_2.row: ok
delete seg_2.row: ok
faults: 6

# A directory that may not be opened isn't synced, which is a failure.
write seg_1.row one: ok
fail PermissionDenied open ix_outside_faults:
sync seg_1.row: failed
sync_all: failed

# The same where it isn't found.
write seg_1.row one: ok
fail NotFound open ix_outside_faults:
sync seg_1.row: failed
sync_all: failed

# A sync of the directory that fails is a failure.
write seg_1.row one: ok
fail Other sync ix_outside_faults:
sync seg_1.row: failed
sync_all: failed

# A parent that this process may not open is left to who made the directory.
write seg_1.row one: ok
fail PermissionDenied open ..:
sync seg_1.row: ok
sync_all: ok

# A parent that isn't found is a failure.
write seg_1.row one: ok
fail NotFound open ..:
sync seg_1.row: failed
sync_all: failed

# Any other error at opening the parent is a failure.
write seg_1.row one: ok
fail Other open ..:
sync seg_1.row: failed
sync_all: failed

# A sync of the parent that fails is a failure.
write seg_1.row one: ok
fail PermissionDenied sync ..:
sync seg_1.row: failed
sync_all: failed

# Where nothing fails both syncs are done.
write seg_1.row one: ok
sync seg_1.row: ok
sync_all: ok

# A file of the largest size is read (this one ends too soon), and one of a byte more is not.
write seg_1.row one: ok
sync seg_1.row: ok
reader:
watch:
length 2147483648:
read seg_1.row: failed
  open seg_1.row
  read seg_1.row
length 2147483649:
read seg_1.row: failed
  open seg_1.row

# To be out of memory after an effect is a fault: where files are made.
write seg_1.row one: ok
fail OutOfMemory make:
sync seg_1.row: ok
rename seg_1.row seg_1.pst: ok
write seg_1.row two: failed
delete seg_1.pst: ok
write seg_1.pst six: failed
sync_all: ok
faults: 2

# The same where they are written.
write seg_1.row one: ok
fail OutOfMemory write:
sync seg_1.row: ok
rename seg_1.row seg_1.pst: ok
write seg_1.row two: failed
delete seg_1.pst: ok
write seg_1.pst six: failed
sync_all: ok
faults: 2

# The same where they are removed.
write seg_1.row one: ok
fail OutOfMemory remove:
sync seg_1.row: ok
rename seg_1.row seg_1.pst: ok
write seg_1.row two: ok
delete seg_1.pst: failed
write seg_1.pst six: failed
sync_all: ok
faults: 2

# The same where they are renamed.
write seg_1.row one: ok
fail OutOfMemory rename:
sync seg_1.row: ok
rename seg_1.row seg_1.pst: failed
write seg_1.row two: ok
delete seg_1.pst: ok
write seg_1.pst six: ok
sync_all: ok
faults: 1

# The same where they are synced.
write seg_1.row one: ok
fail OutOfMemory sync:
sync seg_1.row: failed
rename seg_1.row seg_1.pst: ok
write seg_1.row two: ok
delete seg_1.pst: ok
write seg_1.pst six: ok
sync_all: failed
faults: 2
";

#[test]
fn errors_of_the_system_that_are_faults(rt: HostRuntime) -> Result<(), Fail> {
    compare(&rt, "ix_outside_faults", FAULTS)
}

/// Makes 5,000 empty files of the index in the directory.
fn make_5000(rt: &HostRuntime, path: &str) -> Result<(), Fail> {
    for number in 1..5001u32 {
        let name = format!(in rt.alloc(); "{path}/seg_{number}.row")?;
        fs::write(rt, name.as_str(), b"".as_slice())?;
    }
    Ok(())
}

/// Whether these are the names of the 5,000 files, in the order of their numbers.
fn are_5000(names: &[FileName]) -> bool {
    let mut number = 0u64;
    for name in names {
        number = number.saturating_add(1);
        if *name != FileName::Rows(number) {
            return false;
        }
    }
    number == 5000
}

/// Whether a store lists the 5,000 files.
fn lists_5000(rt: &HostRuntime, path: &str) -> Result<bool, Fail> {
    let mut store = store_at(rt, path)?;
    let mut names = store.list(rt.alloc())?;
    names.sort_unstable();
    Ok(are_5000(names.as_slice()))
}

#[test]
fn each_of_5000_files_is_listed(rt: HostRuntime) -> Result<(), Fail> {
    let path = "ix_outside_5000";
    let _ = fs::remove_dir_all(&rt, path);
    fs::create_dir(&rt, path)?;
    make_5000(&rt, path)?;
    assert!(rt; lists_5000(&rt, path)?);
    fs::remove_dir_all(&rt, path)?;
    Ok(())
}
