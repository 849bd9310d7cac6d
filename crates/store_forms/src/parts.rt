ghost use Rattle.std.specs.Prelude.{◌≡◌, ◌^◌, ◌≤◌, ◌<◌, length, map, slice_get, Some, OnOk, vec_len, unsigned_abs};
ghost use Rattle.tree_forms.specs.Form.{inserted};
ghost use Rattle.term_store.specs.Store.{tree_at};
ghost use Rattle.store_forms.specs.Form.{part_at, HaveAtoms, AreParts};
ghost use Rattle.store_forms.specs.Place.{IsPlaceIn, TimesOfWithin, IsJoinedThere};

use crate::form::IdPart;
use crate::{NoMemory, numbers};
use std::cmp::Ordering;
use store_order::compare;
use term_store::TermStore;

/// The part at a place.
pub fn part_there(parts: &[IdPart], at: usize) -> IdPart
    requires { at < length parts.now }
    ensures { slice_get parts.now at ≡ Some result }
{
    parts[at]
}

/// Where a part with the atom joins another, or else comes to stand.
fn place_of(store: &TermStore, parts: &[IdPart], atom: usize) -> Result<usize, usize>
    requires parts { HaveAtoms store.now parts.now }
    requires atom { atom < length store.now }
    ensures { IsPlaceIn (map (part_at store.now) parts.now) (tree_at store.now atom) result }
{
    for at in 0..parts.len() {
        let part = part_there(parts, at);
        match compare(store, part.atom, atom) {
            Ordering::Less => {}
            Ordering::Equal => return Ok(at),
            Ordering::Greater => return Err(at),
        }
    }
    Err(parts.len())
}

/// Takes the part there so many times more. A part that is then taken 0 times goes.
fn join(parts: &mut Vec<IdPart>, at: usize, times: i128)
    requires there { at < vec_len parts.old }
    requires fits { TimesOfWithin (2 ^ 126) parts.old.items }
    requires small { unsigned_abs times ≤ 2 ^ 60 }
    ensures { IsJoinedThere parts.old.items at times parts.new.items }
{
    let part = parts[at];
    let sum = numbers::sum(part.times, times);
    if sum == 0 {
        let _ = parts.remove(at);
    } else {
        parts[at] = IdPart {
            atom: part.atom,
            times: sum,
        };
    }
}

/// Takes one more part into the parts, at its place in their order.
pub fn insert_part(store: &TermStore, parts: &mut Vec<IdPart>, part: IdPart) -> Result<(), NoMemory>
    requires atoms { HaveAtoms store.now parts.old.items }
    requires atom { part.atom < length store.now }
    requires fits { TimesOfWithin (2 ^ 126) parts.old.items }
    requires small { unsigned_abs part.times ≤ 2 ^ 60 }
    ensures { OnOk result (AreParts store.now parts.new.items (inserted (part_at store.now part) (map (part_at store.now) parts.old.items))) }
{
    match place_of(store, parts, part.atom) {
        Ok(at) => {
            join(parts, at, part.times);
            Ok(())
        }
        Err(at) => {
            parts.insert(at, part)?;
            Ok(())
        }
    }
}
