ghost use Rattle.std.specs.Prelude.{◌≡◌, ◌&&◌, ℕ, List, IfOk};
ghost use Rattle.std.specs.Set.{is_member};
ghost use Rattle.std.specs.Str.{bytes_eq};
ghost use Rattle.name_maps.specs.Names.{is_named};
ghost use Rattle.type_rules.specs.Statements.{texts};

use crate::NoMemory;
use name_maps::NameMap;
use slang_tree::Name;
use std::alloc::Global;

/// The names of variables that may be changed in a loop, where these may be changed outside.
pub fn covered_within(
    alloc: Global,
    covered: &NameMap<()>,
    modifies: &[Name],
) -> Result<NameMap<()>, NoMemory>
    ensures { IfOk result (λ inner. (text : List ℕ) → is_named inner text ≡ (is_named covered.now text && is_member bytes_eq (texts modifies.now) text)) }
{
    let mut inner = NameMap::new(alloc);
    for name in modifies {
        if covered.contains(name.text.as_str()) {
            inner.add(alloc, name.text.as_str(), ())?;
        }
    }
    Ok(inner)
}
