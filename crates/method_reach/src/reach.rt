ghost use Rattle.std.specs.Prelude.{◌≡◌, ◌<◌, ◌≤◌, ◌∷◌, [], ℕ, false, true, IfOk, OnOk, length, nat_eq};
ghost use Rattle.std.specs.Set.{is_member};
ghost use Rattle.program_trees.specs.Variables.{with_kinds};
ghost use Rattle.lk_programs.specs.Typed.{program_tree};
ghost use Rattle.method_reach.specs.Reach.{IsReach};
ghost use Rattle.method_reach.specs.Search.{called_by, is_marked, IsFound, IsSearch, Marks};

use crate::NoMemory;
use lk_programs::Typed;
use method_calls::method_calls;
use sqlite_items::Items;
use std::alloc::Global;

/// Marks a method, and notes its number where it was not marked yet.
fn mark(method: u32, marks: &mut [bool], found: &mut Vec<u32>) -> Result<(), NoMemory>
    requires within { method < length marks.old }
    requires found { IsFound marks.old found.old.items }
    ensures { OnOk result (Marks (method ∷ []) marks.old found.old.items marks.new found.new.items) }
{
    let at = method as usize;
    if marks[at] {
        return Ok(());
    }
    marks[at] = true;
    found.push(method)?;
    Ok(())
}

/// Marks methods, and notes the numbers of those that were not marked yet.
fn mark_all(methods: &[u32], marks: &mut [bool], found: &mut Vec<u32>) -> Result<(), NoMemory>
    requires within { (n : ℕ) → is_member nat_eq methods.now n ≡ true → n < length marks.old }
    requires found { IsFound marks.old found.old.items }
    ensures { OnOk result (Marks methods.now marks.old found.old.items marks.new found.new.items) }
{
    'methods: for method in methods {
        mark(*method, marks, found)?;
    }
    Ok(())
}

/// The numbers of the methods that a method calls.
fn calls_of(alloc: Global, typed: &Typed, method: u32) -> Result<Items<u32>, NoMemory>
    requires { method < length typed.now.methods }
    ensures called { IfOk result (λ called. called ≡ called_by (with_kinds (program_tree typed.now)) method) }
    ensures there { IfOk result (λ called. (n : ℕ) → is_member nat_eq called n ≡ true → n < length typed.now.methods) }
{
    method_calls(alloc, &typed.methods.as_slice()[method as usize])
}

/// Marks all that the methods found lead to.
fn search(
    alloc: Global,
    typed: &Typed,
    method: u32,
    marks: &mut [bool],
    found: &mut Vec<u32>,
) -> Result<(), NoMemory>
    requires { IsSearch (with_kinds (program_tree typed.now)) method marks.old found.old.items 0 }
    ensures { OnOk result (IsSearch (with_kinds (program_tree typed.now)) method marks.new found.new.items (length found.new.items)) }
{
    let mut next = 0;
    'found: while next < found.len() {
        let called = calls_of(alloc, typed, found[next])?;
        mark_all(called.as_slice(), marks, found)?;
        next += 1;
    }
    Ok(())
}

/// Marks a method and all that it leads to, where nothing is marked.
fn search_from(
    alloc: Global,
    typed: &Typed,
    method: u32,
    marks: &mut [bool],
    found: &mut Vec<u32>,
) -> Result<(), NoMemory>
    requires within { method < length typed.now.methods }
    requires marks { length marks.old ≡ length typed.now.methods }
    requires none { (n : ℕ) → is_marked marks.old n ≡ false }
    requires found { found.old.items ≡ [] }
    ensures { OnOk result (IsSearch (with_kinds (program_tree typed.now)) method marks.new found.new.items (length found.new.items)) }
{
    mark(method, marks, found)?;
    search(alloc, typed, method, marks, found)
}

/// Marks for so many methods, of which none is marked.
fn no_marks(alloc: Global, count: usize) -> Result<Vec<bool>, NoMemory>
    ensures length { IfOk result (λ marks. length marks.items ≡ count) }
    ensures none { IfOk result (λ marks. (n : ℕ) → is_marked marks.items n ≡ false) }
{
    vec![in alloc; false; count]
}

/// The numbers of a method and of all that calls lead to from it, in ascending order.
pub fn reachable(alloc: Global, typed: &Typed, method: u32) -> Result<Vec<u32>, NoMemory>
    requires { method < length typed.now.methods }
    ensures { IfOk result (λ numbers. IsReach (with_kinds (program_tree typed.now)) method numbers.items) }
{
    let mut marks = no_marks(alloc, typed.methods.len())?;
    let mut found = Vec::new(alloc);
    search_from(alloc, typed, method, &mut marks, &mut found)?;
    found.sort()?;
    Ok(found)
}
