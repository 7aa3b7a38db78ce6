//! The search lines of each caller.
ghost use Rattle.std.specs.Prelude.{◌≡◌, List as ListOf, [], ◌∷◌, ◌++◌, length, IfOk, OnOk};
ghost use Rattle.op_script.specs.declared.script.Act.TheVariants as act;
ghost use Rattle.op_script.specs.declared.script.Line.{Line};
ghost use Rattle.line_shares.specs.Dealing.{HasAsked};

use ix_base::{NoMemory, Operation, Query};
use std::alloc::Global;

/// A search line: its place in the script, the line of its caller's last commit before it, or 0 where there
/// is none, and what it searches.
#[derive(Drop)]
pub struct Ask {
    pub line: u32,
    pub behind: u32,
    pub query: Query,
}

/// What each of the 256 callers asked in the lines so far, and the line of its last commit, or 0.
#[derive(Drop)]
pub struct Asked {
    pub asks: Vec<Vec<Ask>>,
    pub behinds: [u32; 256],
}

impl Asked {
    /// Before the first line.
    pub fn new(alloc: Global) -> Result<Asked, NoMemory>
        ensures { IfOk result (λ asked. HasAsked [] asked) }
    {
        let mut asks = Vec::with_capacity(alloc, 256)?;
        for _ in 0..256u32 {
            asks.push(Vec::new(alloc))?;
        }
        Ok(Asked {
            asks,
            behinds: [0; 256],
        })
    }

    /// Takes a search line.
    pub fn search(&mut self, line: u32, caller: u8, query: Query) -> Result<(), NoMemory>
        requires count { length self.old.asks.items ≡ 256 }
        ensures asked { (done : ListOf Line) (l : Line) → l.line ≡ line → l.caller ≡ caller
            → l.act ≡ act.Search query → HasAsked done self.old
            → OnOk result (HasAsked (done ++ l ∷ []) self.new) }
    {
        let caller = usize::from(caller);
        let behind = self.behinds[caller];
        let ask = Ask {
            line,
            behind,
            query,
        };
        self.asks[caller].push(ask)?;
        Ok(())
    }

    /// Takes a line that writes or commits.
    pub fn pass(&mut self, line: u32, caller: u8, operation: &Operation)
        ensures asked { (done : ListOf Line) (l : Line) → l.line ≡ line → l.caller ≡ caller
            → l.act ≡ act.Do operation.now → HasAsked done self.old
            → HasAsked (done ++ l ∷ []) self.new }
        ensures count { self.new.asks ≡ self.old.asks }
    {
        if let Operation::Commit(_) = operation {
            self.behinds[usize::from(caller)] = line;
        }
    }
}
