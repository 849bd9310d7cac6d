ghost use Rattle.std.specs.Prelude.{◌≡◌, [], ◌∷◌, ◌++◌, ◌<◌, length, reverse, MatchOption, IfOk, OnOk};
ghost use Rattle.store_cases.specs.Lists.{Extends, list_at, IsListAt, IsCellOf};

use crate::NoMemory;
use sqlite_items::Items;
use std::alloc::Global;
use std::marker::Model;

/// The first number of a list, and the list behind it.
#[derive(Clone, Copy)]
pub struct Cell {
    pub first: usize,
    pub rest: usize,
}

/// Lists of numbers, of which several share what stands behind. A list has a place, and the empty list has place 0.
#[derive(Drop)]
pub struct Lists {
    cells: Vec<Cell>,
}

impl Model for Lists {
    ghost use Rattle.std.specs.Prelude.{ℕ, List};
    ghost use Rattle.std.specs.Coded.{coded_list, coded_ℕ};
    ghost use Rattle.store_cases.specs.Lists.{lists_of, ReachBack};

    ghost Value = { List (List ℕ) };

    ghost coded = { coded_list (coded_list coded_ℕ) };

    ghost view = { λ s. lists_of s.cells.items };

    ghost invariant = { λ s. ReachBack s.cells.items };
}

impl Lists {
    pub fn new(alloc: Global) -> Lists
        ensures { result ≡ [] ∷ [] }
    {
        Lists {
            cells: Vec::new(alloc),
        }
    }

    /// The place of the list of a number and, behind it, another list.
    #[tactic(auto, using(crate::proofs::SharedLists::shared_lines))]
    pub fn add(&mut self, first: usize, rest: usize) -> Result<usize, NoMemory>
        requires { rest < length self.old }
        ensures place { IfOk result (λ k. k ≡ length self.old) }
        ensures ok { OnOk result (self.new ≡ self.old ++ (first ∷ list_at self.old rest) ∷ []) }
    {
        self.cells.push(Cell { first, rest })?;
        Ok(self.cells.len())
    }

    /// The first number of the list at a place, and the list behind it.
    #[tactic(auto, using(crate::proofs::SharedLists::shared_lines))]
    pub fn cell(&self, place: usize) -> Option<Cell>
        requires { place < length self.now }
        ensures { MatchOption result (list_at self.now place ≡ []) (λ c. IsCellOf self.now place c) }
    {
        if place == 0 {
            None
        } else {
            Some(self.cells[place - 1])
        }
    }

    /// The place of the list of these numbers and, behind them, another list.
    pub fn add_all(&mut self, ids: &[usize], rest: usize) -> Result<usize, NoMemory>
        requires { rest < length self.old }
        ensures place { IfOk result (λ k. IsListAt self.new k (ids.now ++ list_at self.old rest)) }
        ensures lists { OnOk result (Extends self.old self.new) }
    {
        let mut place = rest;
        for count in 0..ids.len() {
            place = self.add(ids[ids.len() - 1 - count], place)?;
        }
        Ok(place)
    }

    /// The list at a place, from its end.
    pub fn from_end(&self, alloc: Global, place: usize) -> Result<Items<usize>, NoMemory>
        requires { place < length self.now }
        ensures { IfOk result (λ ks. ks ≡ reverse (list_at self.now place)) }
    {
        let mut ids = Vec::new(alloc);
        let mut at = place;
        'cells: while let Some(cell) = self.cell(at) {
            ids.push(cell.first)?;
            at = cell.rest;
        }
        ids.reverse();
        Ok(Items::from_vec(ids))
    }
}
