ghost use Rattle.std.specs.Prelude.{◌≡◌, ◌^◌, ◌<◌, ◌≤◌, length, slice_get, Some, IfOk, List, map, negsuc, unsigned_abs};
ghost use Rattle.tree_forms.specs.Form.{LinearForm};
ghost use Rattle.tree_forms.specs.Form as forms;
ghost use Rattle.term_nodes.specs.declared.node.Node.{Node};
ghost use Rattle.closing.specs.Rows as row_specs;
ghost use Rattle.store_forms.specs.Form.{IsForm};
ghost use Rattle.store_forms.specs.Place.{TimesOfWithin, multiplied};
ghost use Rattle.store_atoms.specs.Views.{IsRow, HasRoom};

use crate::NoMemory;
use std::alloc::Global;
use store_forms::{IdForm, IdPart};

/// The sum of the parts is at most the bound.
#[derive(Drop)]
pub struct IdRow {
    pub parts: Vec<IdPart>,
    pub bound: i128,
}

/// The part at a place.
pub fn part_there(parts: &[IdPart], at: usize) -> IdPart
    requires { at < length parts.now }
    ensures { slice_get parts.now at ≡ Some result }
{
    parts[at]
}

/// The form is at most the limit.
pub fn at_most(form: IdForm, limit: i128) -> IdRow
    requires room { HasRoom form }
    requires limit { unsigned_abs limit ≤ 2 ^ 60 }
    ensures { (store : List Node) (f : LinearForm) → IsForm store form f → IsRow store result (row_specs.at_most f limit) }
{
    let bound = limit - form.constant;
    IdRow {
        parts: form.parts,
        bound,
    }
}

/// The form is at least the limit.
pub fn at_least(alloc: Global, form: &IdForm, limit: i128) -> Result<IdRow, NoMemory>
    requires room { HasRoom form.now }
    requires limit { unsigned_abs limit ≤ 2 ^ 60 }
    ensures { IfOk result (λ row. (store : List Node) (f : LinearForm) → IsForm store form.now f → IsRow store row (row_specs.at_least f limit)) }
{
    let opposite = negative(alloc, form)?;
    Ok(at_most(opposite, -limit))
}

/// The form times -1.
fn negative(alloc: Global, form: &IdForm) -> Result<IdForm, NoMemory>
    requires room { HasRoom form.now }
    ensures form { IfOk result (λ g. (store : List Node) (f : LinearForm) → IsForm store form.now f → IsForm store g (forms.scaled (negsuc 0) f)) }
    ensures room { IfOk result (λ g. HasRoom g) }
{
    let parts = negative_parts(alloc, form.parts.as_slice())?;
    Ok(IdForm {
        parts,
        constant: -form.constant,
    })
}

fn negative_parts(alloc: Global, parts: &[IdPart]) -> Result<Vec<IdPart>, NoMemory>
    requires { TimesOfWithin (2 ^ 126) parts.now }
    ensures { IfOk result (λ v. v.items ≡ map (multiplied (negsuc 0)) parts.now) }
{
    let mut all = Vec::new(alloc);
    for part in parts {
        all.push(opposite(*part))?;
    }
    Ok(all)
}

fn opposite(part: IdPart) -> IdPart
    requires { unsigned_abs part.times ≤ 2 ^ 126 }
    ensures { result ≡ multiplied (negsuc 0) part }
{
    IdPart {
        atom: part.atom,
        times: -part.times,
    }
}
