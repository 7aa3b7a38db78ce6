//! The files of the smallest commit.
ghost use Rattle.ix_base.specs.FileNames.{IsFileName};

use ix_base::FileName;

/// A file of the commit 2 of one document whose key is `a1`, which is the first thing on its store.
#[derive(Clone, Copy)]
pub enum Part {
    Commit,
    Rows,
    Posts,
    Live,
    Values,
}

impl Part {
    /// Its name.
    pub fn name(self) -> FileName
        ensures { IsFileName result }
    {
        match self {
            Part::Commit => FileName::Commit(2),
            Part::Rows => FileName::Rows(1),
            Part::Posts => FileName::Posts(1),
            Part::Live => FileName::Live(1, 2),
            Part::Values => FileName::Values(1, 2),
        }
    }

    /// Its name as a line of a report shows it.
    pub fn text(self) -> &'static str {
        match self {
            Part::Commit => "segments_2",
            Part::Rows => "seg_1.row",
            Part::Posts => "seg_1.pst",
            Part::Live => "seg_1_2.liv",
            Part::Values => "seg_1_2.val",
        }
    }

    /// Where its fields begin.
    pub fn fields(self) -> &'static [u64] {
        match self {
            Part::Commit => &[0, 8, 16, 24, 32, 40, 48, 52, 60],
            Part::Rows => &[0, 8, 16, 20, 28, 32, 38, 42, 46],
            Part::Posts => &[0, 8, 16, 20, 28, 35, 41, 45, 49, 53],
            Part::Live | Part::Values => &[0, 8, 16, 24, 28],
        }
    }

    /// How many bytes it has.
    pub fn len(self) -> usize {
        match self {
            Part::Commit => 64,
            Part::Rows => 54,
            Part::Posts => 57,
            Part::Live => 29,
            Part::Values => 36,
        }
    }
}
