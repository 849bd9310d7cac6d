ghost use Rattle.std.specs.Prelude.{◌≡◌, ◌==◌, ℕ, ◌+◌, ◌<◌, List, [], ◌∷◌, ◌++◌, map, length, get_or, false, IfSome, OnOk, IfOk};
ghost use Rattle.std.specs.List.{All, list_any, filter, flat_map};
ghost use Rattle.std.specs.Option.{option_map};
ghost use Rattle.slang_values.specs.Tree.{Tree};
ghost use Rattle.instance_laws.specs.Laws.{gathered};
ghost use Rattle.instance_rules.specs.Instances.{is_closed_within, place_of_binary, places_in, index_terms};
ghost use Rattle.store_substitution.specs.Loose.{AreDepths};
ghost use Rattle.term_nodes.specs.Node.{tree_of, shape_tree, shape_numbers};
ghost use Rattle.term_store.specs.Store.{tree_at, IsStore, AreWithin, AreTreesOf};
ghost use Rattle.term_store.specs.Sequent.{sequent_at, IsSequentWithin};
ghost use Rattle.store_places.specs.Found.{own_place, as_list, closed_places, IsBelowWith, IsFound};

use crate::NoMemory;
use node_parts::parts_of;
use slang_values::Binary;
use sqlite_items::Items;
use std::alloc::Global;
use term_nodes::NodeShape;
use term_store::{IdSequent, TermStore};

/// Places that were found, each once, and the terms of which all are found.
#[derive(Drop)]
pub struct Found {
    pub ids: Items<usize>,
    pub done: Vec<bool>,
}

/// The place at which a term reads or updates a sequence.
fn own_place(shape: NodeShape<'_>) -> Option<usize>
    ensures place { (ts : List (Tree ℕ)) → own_place (shape_tree ts shape.entry) ≡ as_list (option_map (tree_of ts) result) }
    ensures below { IfSome result (IsBelowWith (shape_numbers shape.entry)) }
{
    match shape {
        NodeShape::Binary(op, _, i) => read_place(op, i),
        NodeShape::Update(_, i, _) => Some(i),
        NodeShape::Literal(_) | NodeShape::Truth(_) | NodeShape::Symbol(_) | NodeShape::Bound(_) =>
            None,
        NodeShape::Unary(_, _) | NodeShape::Quantified(_, _, _, _) => None,
        NodeShape::Sequence(_, _) | NodeShape::Record(_, _) => None,
    }
}

fn read_place(op: Binary, i: usize) -> Option<usize>
    ensures place { (ts : List (Tree ℕ)) → place_of_binary op (tree_of ts i) ≡ as_list (option_map (tree_of ts) result) }
    ensures below { (a : ℕ) → IfSome result (IsBelowWith (a ∷ i ∷ [])) }
{
    match op {
        Binary::Read => Some(i),
        Binary::Add | Binary::Sub | Binary::Mul | Binary::Div | Binary::Rem | Binary::And => None,
        Binary::Or | Binary::Imply | Binary::Eq | Binary::Lt | Binary::Le | Binary::Append => None,
    }
}

/// Whether all places in a term were found.
fn is_done(done: &[bool], id: usize) -> bool
    requires { id < length done.now }
    ensures { result ≡ get_or done.now id false }
{
    done[id]
}

fn contains(ids: &[usize], id: usize) -> bool
    ensures { result ≡ list_any (λ k. k == id) ids.now }
{
    ids.iter().any(|k| *k == id)
}

/// Finds a place, unless a bound variable is loose in it.
fn add_place(
    store: &TermStore,
    depths: &[u64],
    found: &mut Found,
    id: usize,
) -> Result<(), NoMemory>
    requires is_store { IsStore store.now }
    requires within { id < length store.now }
    requires measured { AreDepths store.now depths.now }
    requires all { length depths.now ≡ length store.now }
    requires found { IsFound store.now found.old }
    ensures places { OnOk result (map (tree_at store.now) found.new.ids ≡ gathered (map (tree_at store.now) found.old.ids) (filter (is_closed_within 0) (tree_at store.now id ∷ []))) }
    ensures found { IsFound store.now found.new }
{
    if depths[id] > 0 || contains(found.ids.as_slice(), id) {
        return Ok(());
    }
    found.ids.push(id)?;
    Ok(())
}

/// Finds the places in a term.
#[cycle(places)]
fn add_places(
    alloc: Global,
    store: &TermStore,
    depths: &[u64],
    found: &mut Found,
    id: usize,
) -> Result<(), NoMemory>
    requires is_store { IsStore store.now }
    requires within { id < length store.now }
    requires measured { AreDepths store.now depths.now }
    requires all { length depths.now ≡ length store.now }
    requires found { IsFound store.now found.old }
    ensures places { OnOk result (map (tree_at store.now) found.new.ids ≡ gathered (map (tree_at store.now) found.old.ids) (closed_places (tree_at store.now id))) }
    ensures found { IsFound store.now found.new }
{
    if is_done(found.done.as_slice(), id) {
        return Ok(());
    }
    add_own(store, depths, found, id)?;
    let parts = parts_of(alloc, store.view(id))?;
    add_all(alloc, store, depths, found, parts.as_slice(), id)?;
    found.done[id] = true;
    Ok(())
}

/// Finds the place at which the term itself reads or updates a sequence.
fn add_own(store: &TermStore, depths: &[u64], found: &mut Found, id: usize) -> Result<(), NoMemory>
    requires is_store { IsStore store.now }
    requires within { id < length store.now }
    requires measured { AreDepths store.now depths.now }
    requires all { length depths.now ≡ length store.now }
    requires found { IsFound store.now found.old }
    ensures places { OnOk result (map (tree_at store.now) found.new.ids ≡ gathered (map (tree_at store.now) found.old.ids) (filter (is_closed_within 0) (own_place (tree_at store.now id)))) }
    ensures found { IsFound store.now found.new }
{
    match own_place(store.view(id).shape()) {
        Some(place) => add_place(store, depths, found, place),
        None => Ok(()),
    }
}

/// Finds the places in several terms, which stand below that number.
#[cycle(places)]
fn add_all(
    alloc: Global,
    store: &TermStore,
    depths: &[u64],
    found: &mut Found,
    ids: &[usize],
    bound: usize,
) -> Result<(), NoMemory>
    requires is_store { IsStore store.now }
    requires below { All (λ k. k < bound) ids.now }
    requires within { bound < length store.now + 1 }
    requires measured { AreDepths store.now depths.now }
    requires all { length depths.now ≡ length store.now }
    requires found { IsFound store.now found.old }
    ensures places { OnOk result (map (tree_at store.now) found.new.ids ≡ gathered (map (tree_at store.now) found.old.ids) (filter (is_closed_within 0) (flat_map places_in (map (tree_at store.now) ids.now)))) }
    ensures found { IsFound store.now found.new }
{
    for place in 0..ids.len() {
        add_places(alloc, store, depths, found, ids[place])?;
    }
    Ok(())
}

/// The index terms of a sequent. A term that stands in several places is gone through once.
pub fn index_terms(
    alloc: Global,
    store: &TermStore,
    depths: &[u64],
    sequent: &IdSequent,
) -> Result<Items<usize>, NoMemory>
    requires within { IsSequentWithin store.now sequent.now }
    requires measured { AreDepths store.now depths.now }
    requires all { length depths.now ≡ length store.now }
    ensures { IfOk result (λ ids. AreTreesOf store.now ids (index_terms (sequent_at store.now sequent.now))) }
{
    let count = store.len();
    let mut found = Found {
        ids: Items::new(alloc),
        done: vec![in alloc; false; count]?,
    };
    add_all(
        alloc,
        store,
        depths,
        &mut found,
        sequent.facts.as_slice(),
        count,
    )?;
    add_places(alloc, store, depths, &mut found, sequent.goal)?;
    Ok(found.ids)
}
