ghost use Rattle.std.specs.Prelude.{◌<◌, length, IfOk, OnOk};
ghost use Rattle.store_cases.specs.Search.{BeginsWith, HasLiteral, HasBranches};

use crate::NoMemory;
use crate::lists::Lists;
use sqlite_items::Items;
use std::alloc::Global;

/// What was found in a branch, the last literal first, and what is still to be taken apart: places of lists.
#[derive(Clone, Copy)]
pub struct IdBranch {
    pub literals: usize,
    pub formulas: usize,
}

/// The branches that are left, the next one last.
#[derive(Drop)]
pub struct Search {
    pub lists: Lists,
    pub open_branches: Items<IdBranch>,
}

impl Search {
    /// One branch, in which nothing was found.
    pub fn new(alloc: Global, formulas: &[usize]) -> Result<Search, NoMemory>
        ensures { IfOk result (λ s. BeginsWith s formulas.now) }
    {
        let mut lists = Lists::new(alloc);
        let formulas = lists.add_all(formulas, 0)?;
        let mut open_branches = Items::new(alloc);
        open_branches.push(IdBranch {
            literals: 0,
            formulas,
        })?;
        Ok(Search {
            lists,
            open_branches,
        })
    }

    /// A branch with one literal more.
    pub fn found(
        &mut self,
        literals: usize,
        literal: usize,
        formulas: usize,
    ) -> Result<(), NoMemory>
        requires { literals < length self.old.lists }
        ensures { OnOk result (HasLiteral self.old self.new literals literal formulas) }
    {
        let literals = self.lists.add(literal, literals)?;
        self.open_branches.push(IdBranch { literals, formulas })
    }

    /// A branch for each alternative, so that the first comes next.
    pub fn branch(
        &mut self,
        literals: usize,
        alternatives: &[Items<usize>],
        rest: usize,
    ) -> Result<(), NoMemory>
        requires { rest < length self.old.lists }
        ensures { OnOk result (HasBranches self.old self.new literals rest alternatives.now) }
    {
        for count in 0..alternatives.len() {
            let ids = alternatives[alternatives.len() - 1 - count].as_slice();
            let formulas = self.lists.add_all(ids, rest)?;
            self.open_branches.push(IdBranch { literals, formulas })?;
        }
        Ok(())
    }
}
