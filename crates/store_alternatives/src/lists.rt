ghost use Rattle.std.specs.Prelude.{◌≡◌, [], ◌∷◌, IfOk};

use crate::NoMemory;
use sqlite_items::Items;
use std::alloc::Global;

pub fn one_list(alloc: Global, ids: &[usize]) -> Result<Items<Items<usize>>, NoMemory>
    ensures { IfOk result (λ ls. ls ≡ ids.now ∷ []) }
{
    let mut lists = Items::new(alloc);
    lists.push(Items::from_slice(alloc, ids)?)?;
    Ok(lists)
}

pub fn two_lists(
    alloc: Global,
    first: &[usize],
    second: &[usize],
) -> Result<Items<Items<usize>>, NoMemory>
    ensures { IfOk result (λ ls. ls ≡ first.now ∷ second.now ∷ []) }
{
    let mut lists = Items::new(alloc);
    lists.push(Items::from_slice(alloc, first)?)?;
    lists.push(Items::from_slice(alloc, second)?)?;
    Ok(lists)
}
