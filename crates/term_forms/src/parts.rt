ghost use Rattle.std.specs.Prelude.{◌≡◌, ◌^◌, ◌≤◌, ◌<◌, map, OnOk, vec_len, unsigned_abs};
ghost use Rattle.tree_forms.specs.Form.{inserted};
ghost use Rattle.term_forms.specs.Form.{part_of, TimesWithin};
ghost use Rattle.term_trees.specs.Term.{tree};
ghost use Rattle.term_forms.specs.Place.{IsPlaceIn, IsJoined};

use crate::form::Part;
use crate::numbers;
use std::alloc::AllocError;
use std::cmp::Ordering;
use term_trees::Term;
use term_walks::compare;

/// Where a part with an atom goes among others.
pub enum Place {
    /// It joins the part there.
    Joins(usize),
    /// It comes to stand there.
    Stands(usize),
}

/// The place of a part with the atom.
pub fn place_of(parts: &[Part], atom: &Term) -> Place
    ensures { IsPlaceIn (map part_of parts.now) (tree atom.now) result }
{
    for at in 0..parts.len() {
        match compare(&parts[at].atom, atom) {
            Ordering::Less => {}
            Ordering::Equal => return Place::Joins(at),
            Ordering::Greater => return Place::Stands(at),
        }
    }
    Place::Stands(parts.len())
}

/// How often the part is taken, which goes.
fn times_of(part: Part) -> i128
    ensures { result ≡ part.times }
{
    part.times
}

/// Takes the part there so many times more. A part that is then taken 0 times goes.
fn join(parts: &mut Vec<Part>, at: usize, times: i128)
    requires there { at < vec_len parts.old }
    requires fits { TimesWithin (2 ^ 126) (map part_of parts.old.items) }
    requires small { unsigned_abs times ≤ 2 ^ 60 }
    ensures { IsJoined (map part_of parts.old.items) at times (map part_of parts.new.items) }
{
    let sum = numbers::sum(parts[at].times, times);
    if sum == 0 {
        let _ = times_of(parts.remove(at));
    } else {
        parts[at].times = sum;
    }
}

/// Takes one more part into the parts, at its place in their order.
pub fn insert_part(parts: &mut Vec<Part>, part: Part) -> Result<(), AllocError>
    requires fits { TimesWithin (2 ^ 126) (map part_of parts.old.items) }
    requires small { unsigned_abs part.times ≤ 2 ^ 60 }
    ensures { OnOk result (map part_of parts.new.items ≡ inserted (part_of part) (map part_of parts.old.items)) }
{
    match place_of(parts, &part.atom) {
        Place::Joins(at) => {
            join(parts, at, times_of(part));
            Ok(())
        }
        Place::Stands(at) => {
            parts.insert(at, part)?;
            Ok(())
        }
    }
}
