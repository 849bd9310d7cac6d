ghost use Rattle.std.specs.Prelude.{◌≡◌, ◌==◌, ◌+◌, ◌<◌, ◌^◌, None, map, length, IfOk, if◌then◌else◌};
ghost use Rattle.std.specs.List.{All, flat_map};
ghost use Rattle.substitution.specs.Substitution.{substituted};
ghost use Rattle.term_store.specs.Store.{tree_at, Holds, AreTreesOf, GainsAmong, subtrees};
ghost use Rattle.store_substitution.specs.Loose.{AreDepths};
ghost use Rattle.store_substitution.specs.Levels.{bound_in, levelled};
ghost use Rattle.store_substitution.specs.Table.{AreSubstituted};

use crate::NoMemory;
use crate::places::{bound_in, level_of, outer_count};
use crate::table::{Site, Substitutions};
use node_parts::{over_parts, parts_of};
use std::alloc::Global;
use term_store::TermStore;

/// The number of the term with another in place of bound variable n. Of the trees that the new term has, those that the store lacks are
/// added, and nothing else. What was worked out once is found in the table.
#[cycle(substitute)]
pub fn substitute(
    alloc: Global,
    store: &mut TermStore,
    depths: &[u64],
    table: &mut Substitutions,
    id: usize,
    n: u64,
    by: usize,
) -> Result<usize, NoMemory>
    requires within { id < length depths.now }
    requires by { by < length store.old }
    requires measured { AreDepths store.old depths.now }
    requires table { AreSubstituted store.old table.old }
    requires bounded { n + id < 2 ^ 64 }
    ensures number { IfOk result (λ k. Holds store.new k (substituted n (tree_at store.old by) (tree_at store.old id))) }
    ensures gains { GainsAmong store.old store.new (subtrees (substituted n (tree_at store.old by) (tree_at store.old id))) }
    ensures table { AreSubstituted store.new table.new }
{
    if depths[id] <= n {
        return Ok(id);
    }
    match bound_in(store.view(id).shape()) {
        Some(m) => Ok(variable(id, m, n, by)),
        None => {
            let site = Site {
                term: id,
                variable: n,
                by,
            };
            match table.find(site) {
                Some(number) => Ok(number),
                None => {
                    let number = substitute_parts(alloc, store, depths, table, id, n, by)?;
                    table.keep(site, number)?;
                    Ok(number)
                }
            }
        }
    }
}

/// The number of bound variable m, whose own number is id, with another term in place of variable n.
fn variable(id: usize, m: u32, n: u64, by: usize) -> usize
    ensures { result ≡ (if m == n then by else id) }
{
    if u64::from(m) == n { by } else { id }
}

/// The same, part by part.
#[cycle(substitute)]
fn substitute_parts(
    alloc: Global,
    store: &mut TermStore,
    depths: &[u64],
    table: &mut Substitutions,
    id: usize,
    n: u64,
    by: usize,
) -> Result<usize, NoMemory>
    requires within { id < length depths.now }
    requires by { by < length store.old }
    requires no_variable { bound_in (tree_at store.old id) ≡ None }
    requires measured { AreDepths store.old depths.now }
    requires table { AreSubstituted store.old table.old }
    requires bounded { n + id < 2 ^ 64 }
    ensures number { IfOk result (λ k. Holds store.new k (substituted n (tree_at store.old by) (tree_at store.old id))) }
    ensures gains { GainsAmong store.old store.new (subtrees (substituted n (tree_at store.old by) (tree_at store.old id))) }
    ensures table { AreSubstituted store.new table.new }
{
    let parts = parts_of(alloc, store.view(id))?;
    let outer = outer_count(store.view(id).shape());
    let ids = substitute_all(
        alloc,
        store,
        depths,
        table,
        parts.as_slice(),
        outer,
        n,
        by,
        id,
    )?;
    let node = over_parts(alloc, store.view(id), ids.as_slice())?;
    store.add_node(node)
}

/// The numbers of such terms, which stand below that number. Those behind the outer ones stand inside one more quantifier.
#[cycle(substitute)]
fn substitute_all(
    alloc: Global,
    store: &mut TermStore,
    depths: &[u64],
    table: &mut Substitutions,
    ids: &[usize],
    outer: usize,
    n: u64,
    by: usize,
    bound: usize,
) -> Result<Vec<usize>, NoMemory>
    requires below { All (λ k. k < bound) ids.now }
    requires within { bound < length depths.now }
    requires by { by < length store.old }
    requires measured { AreDepths store.old depths.now }
    requires table { AreSubstituted store.old table.old }
    requires bounded { n + bound < 2 ^ 64 }
    ensures numbers { IfOk result (λ v. AreTreesOf store.new v.items (levelled n (tree_at store.old by) outer (map (tree_at store.old) ids.now))) }
    ensures gains { GainsAmong store.old store.new (flat_map subtrees (levelled n (tree_at store.old by) outer (map (tree_at store.old) ids.now))) }
    ensures table { AreSubstituted store.new table.new }
{
    let mut numbers = Vec::new(alloc);
    for place in 0..ids.len() {
        let id = ids[place];
        let level = level_of(n, outer, place);
        let number = substitute(alloc, store, depths, table, id, level, by)?;
        numbers.push(number)?;
    }
    Ok(numbers)
}
