ghost use Rattle.std.specs.Prelude.{◌≡◌, ◌+◌, ◌<◌, ◌≤◌, [], ◌++◌, Some, get_or, length, map, slice_get, take, IfErr, IfOk, OnOk};
ghost use Rattle.std.specs.List.{AllByRecursion};
ghost use Rattle.leg_forms.specs.WellFormed.{IsWellFormedLeg};
ghost use Rattle.leg_rules.specs.Legs.{entry_and_requires};
ghost use Rattle.lk_programs.specs.LegData.{leg_tree};
ghost use Rattle.leg_items.specs.Drafts.{items_of};
ghost use Rattle.leg_orders.specs.Places.{program_of};
ghost use Rattle.leg_paths.specs.Walks.{greatest};
ghost use Rattle.legs.specs.Legs.{AreLegs, HasLegs, IsLeg, IsLegsEnd, legs_at, own_method, paths, scope_in};

use crate::NoMemory;
use call_items::add_entries;
use leg_count::leg_count;
use leg_items::{DraftItem, Frame, Scope};
use leg_numbers::numbered;
use leg_paths::{add_own_assumed, add_own_checked, add_statements, with_initial_values};
use lk_programs::{Kind, Leg, Legs, Method, NodeNo, Typed};
use owned_results::both;
use sqlite_items::Items;
use std::alloc::{AllocError, Global};

/// The most legs that a method may have.
const MOST: u64 = 256;

/// Why there are no legs.
#[derive(Clone, Copy, Debug, PartialEq, Eq)]
pub enum LegsEnd {
    /// The method has so many, which is more than 256. The greatest number stands for all beyond it.
    Many { count: u64 },
    NoMemory,
}

impl From<AllocError> for LegsEnd {
    ghost use Rattle.legs.specs.declared.all.LegsEnd.TheVariants.{NoMemory};
    ghost use Rattle.std.specs.Prelude.{◌≡◌};

    ghost from_gives = { λ _ e. e ≡ NoMemory };

    fn from(_e: AllocError) -> LegsEnd {
        LegsEnd::NoMemory
    }
}

/// How the variables of a method are numbered.
fn scope_of(typed: &Typed, own: &Method) -> Scope
    ensures { result ≡ scope_in typed.now own.now }
{
    Scope {
        locals: own.locals.len(),
        globals: typed.globals.len(),
    }
}

/// Adds what stands in front of the body: the entry values that the Ensures name, and the Requires.
fn add_front(
    alloc: Global,
    typed: &Typed,
    own: &Method,
    out: &mut Items<DraftItem>,
) -> Result<(), NoMemory>
    ensures { OnOk result (items_of out.new ≡ items_of out.old ++ entry_and_requires (program_of typed.now) (own_method typed.now own.now)) }
{
    let scope = scope_of(typed, own);
    add_entries(Frame::Own(scope), own.node, own.ensures_.as_slice(), out)?;
    add_own_assumed(alloc, scope, own.requires_.as_slice(), out)
}

/// Adds the items of a path through the body. One that reaches the end checks the Ensures.
fn add_path(
    alloc: Global,
    typed: &Typed,
    own: &Method,
    number: u64,
    out: &mut Items<DraftItem>,
) -> Result<(), NoMemory>
    ensures { OnOk result (number < greatest → number < length (paths typed.now own.now) →
        items_of out.new ≡ items_of out.old ++ get_or (paths typed.now own.now) number []) }
{
    let scope = scope_of(typed, own);
    match add_statements(own.body.as_slice(), alloc, typed, scope, number, 1, out)? {
        None => Ok(()),
        Some(_) => add_own_checked(alloc, Kind::Ensures, scope, own.ensures_.as_slice(), out),
    }
}

/// Adds the items of a leg of the method, from its entry values on.
fn add_items(
    alloc: Global,
    typed: &Typed,
    own: &Method,
    number: u64,
    out: &mut Items<DraftItem>,
) -> Result<(), NoMemory>
    ensures { OnOk result (number < greatest → number < length (paths typed.now own.now) → items_of out.new
        ≡ items_of out.old ++ (entry_and_requires (program_of typed.now) (own_method typed.now own.now) ++ get_or (paths typed.now own.now) number [])) }
{
    add_front(alloc, typed, own, out)?;
    add_path(alloc, typed, own, number, out)
}

/// The items of the leg of that number.
fn items_at(
    alloc: Global,
    typed: &Typed,
    method: u32,
    own: &Method,
    number: u64,
) -> Result<Items<DraftItem>, NoMemory>
    requires { slice_get typed.now.methods method ≡ Some own.now }
    ensures { IfOk result (λ items. number < greatest → number < length (legs_at typed.now method) →
        items_of items ≡ get_or (legs_at typed.now method) number []) }
{
    let mut items = Items::new(alloc);
    add_items(alloc, typed, own, number, &mut items)?;
    with_initial_values(
        alloc,
        scope_of(typed, own),
        own.node,
        typed.globals.as_slice(),
        items,
    )
}

/// The node of each item.
fn nodes_of(alloc: Global, items: &[DraftItem]) -> Result<Items<NodeNo>, NoMemory>
    ensures { IfOk result (λ nodes. map (λ node. node.0) nodes ≡ map (λ noted. noted.node) (items_of items.now)) }
{
    let mut nodes = Items::new(alloc);
    for item in items {
        nodes.push(item.node)?;
    }
    Ok(nodes)
}

/// The leg of that number over numbers, and the node of each of its items.
fn leg_at(
    alloc: Global,
    typed: &Typed,
    method: u32,
    own: &Method,
    number: u64,
) -> Result<(Leg, Items<NodeNo>), NoMemory>
    requires { slice_get typed.now.methods method ≡ Some own.now }
    ensures { IfOk result (λ p. number < greatest → number < length (legs_at typed.now method) →
        IsLeg typed.now method (get_or (legs_at typed.now method) number []) p.0 p.1) }
{
    let items = items_at(alloc, typed, method, own, number)?;
    both(
        numbered(alloc, typed, method, items.as_slice()),
        nodes_of(alloc, items.as_slice()),
    )
}

/// Adds the leg of that number.
fn add_leg(
    alloc: Global,
    typed: &Typed,
    method: u32,
    own: &Method,
    number: u64,
    out: &mut Legs,
) -> Result<(), NoMemory>
    requires { slice_get typed.now.methods method ≡ Some own.now }
    ensures { OnOk result (number < greatest → number < length (legs_at typed.now method) →
        HasLegs typed.now method (take number (legs_at typed.now method)) out.old →
        HasLegs typed.now method (take (number + 1) (legs_at typed.now method)) out.new) }
{
    let (leg, nodes) = leg_at(alloc, typed, method, own, number)?;
    both(out.legs.push(leg), out.nodes.push(nodes))?;
    Ok(())
}

/// Adds the legs of the method, of which there are that many.
fn add_legs(
    alloc: Global,
    typed: &Typed,
    method: u32,
    own: &Method,
    count: u64,
    out: &mut Legs,
) -> Result<(), NoMemory>
    requires own { slice_get typed.now.methods method ≡ Some own.now }
    requires counted { count ≡ length (legs_at typed.now method) }
    requires few { count ≤ 256 }
    requires first { HasLegs typed.now method [] out.old }
    ensures { OnOk result (HasLegs typed.now method (legs_at typed.now method) out.new) }
{
    for number in 0..count {
        add_leg(alloc, typed, method, own, number, out)?;
    }
    Ok(())
}

/// The legs of the method of that number in order, each numbered by first appearance, with the node of each of its items.
pub fn legs_of(alloc: Global, typed: &Typed, method: u32) -> Result<Legs, LegsEnd>
    requires { method < length typed.now.methods }
    ensures legs { IfOk result (AreLegs typed.now method) }
    ensures well_formed { IfOk result (λ legs. AllByRecursion (λ leg. IsWellFormedLeg (leg_tree leg)) legs.legs) }
    ensures end { IfErr result (IsLegsEnd typed.now method) }
{
    let own = &typed.methods.as_slice()[method as usize];
    let count = leg_count(own);
    if count > MOST {
        return Err(LegsEnd::Many { count });
    }
    let mut legs = Legs {
        legs: Items::new(alloc),
        nodes: Items::new(alloc),
    };
    add_legs(alloc, typed, method, own, count, &mut legs)?;
    Ok(legs)
}
