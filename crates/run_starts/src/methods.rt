ghost use Rattle.std.specs.Prelude.{◌≡◌, ◌↔◌, ℕ, IfOk, IsTrue, MatchOption};
ghost use Rattle.program_trees.specs.Variables.{with_kinds};
ghost use Rattle.lk_programs.specs.Typed.{program_tree};
ghost use Rattle.run_starts.specs.Methods.{HasName};

use crate::NoMemory;
use lk_programs::{Method, Typed};
use std::alloc::AllocError;

/// The number of a method of that name, where there is one.
pub fn method_named(typed: &Typed, name: &str) -> Result<Option<u32>, NoMemory>
    ensures { IfOk result (λ found. MatchOption found ((n : ℕ) → HasName (with_kinds (program_tree typed.now)) n name.now → ⊥)
        (λ n. HasName (with_kinds (program_tree typed.now)) n name.now)) }
{
    let methods = typed.methods.as_slice();
    'methods: for place in 0..methods.len() {
        if has_name(&methods[place], name) {
            return match u32::try_from(place) {
                Ok(number) => Ok(Some(number)),
                Err(_) => Err(AllocError),
            };
        }
    }
    Ok(None)
}

fn has_name(method: &Method, name: &str) -> bool
    ensures { IsTrue result ↔ (method.now.name ≡ name.now) }
{
    method.name.as_str() == name
}
