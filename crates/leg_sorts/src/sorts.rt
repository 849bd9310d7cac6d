ghost use Rattle.std.specs.Prelude.{◌≡◌, true, map, IfOk};
ghost use Rattle.std.specs.List.{All};
ghost use Rattle.lk_claims.specs.Claim.{value_type};
ghost use Rattle.term_trees.specs.Term.{sort_type};
ghost use Rattle.leg_sorts.specs.Sorts.{has_sort, HaveSorts};

use crate::NoMemory;
use lk_claims::Ty;
use sqlite_items::{Boxed, Items};
use std::alloc::Global;
use term_trees::Sort;

/// The sort of a type that has one.
#[tactic(auto, using(lk_claims::proofs::Types::type_lines, term_trees::proofs::Sorts::sort_lines))]
pub fn sort_of(alloc: Global, ty: &Ty) -> Result<Sort, NoMemory>
    requires { has_sort (value_type ty.now) ≡ true }
    ensures { IfOk result (λ sort. sort_type sort ≡ value_type ty.now) }
{
    match ty {
        Ty::Unit => unreachable!(),
        Ty::Z => Ok(Sort::Z),
        Ty::B => Ok(Sort::B),
        Ty::Seq(element) => {
            let element = sort_of(alloc, element.get())?;
            Ok(Sort::Seq(Boxed::new(alloc, element)?))
        }
        Ty::Rec(number) => Ok(Sort::Rec(*number)),
    }
}

/// The sorts of types, in order.
pub fn sorts_of(alloc: Global, types: &[Ty]) -> Result<Items<Sort>, NoMemory>
    requires { HaveSorts types.now }
    ensures { IfOk result (λ sorts. map sort_type sorts ≡ map value_type types.now) }
{
    let mut sorts = Items::new(alloc);
    for ty in types {
        sorts.push(sort_of(alloc, ty)?)?;
    }
    Ok(sorts)
}

/// The sorts of the fields of records.
pub fn record_sorts(alloc: Global, records: &[Items<Ty>]) -> Result<Items<Items<Sort>>, NoMemory>
    requires { All HaveSorts records.now }
    ensures { IfOk result (λ sorts. map (map sort_type) sorts ≡ map (map value_type) records.now) }
{
    let mut sorts = Items::new(alloc);
    for fields in records {
        sorts.push(sorts_of(alloc, fields.as_slice())?)?;
    }
    Ok(sorts)
}
