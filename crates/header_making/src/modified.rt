ghost use Rattle.std.specs.Prelude.{◌≡◌, IfOk, Some, map};
ghost use Rattle.slang_tree.specs.declared.expression.Name.{Name};
ghost use Rattle.type_rules.specs.Meanings.{Scope, meaning_of};
ghost use Rattle.typed_texts.specs.TypedProjects.{global_meant};
ghost use Rattle.name_scopes.specs.Fits.{Fits};
ghost use Rattle.name_scopes.specs.Meanings.{meant};

use crate::NoMemory;
use name_scopes::{Meaning, NameScope};
use slang_tree::Name;
use sqlite_items::Items;
use std::alloc::Global;

/// The number of a global of this meaning, or 0 for what is none.
fn number_meant(meaning: &Meaning) -> u32
    ensures { result ≡ global_meant (Some (meant meaning.now)) }
{
    match meaning {
        Meaning::Global { number, .. } => *number,
        Meaning::Local { .. }
        | Meaning::Bound(_)
        | Meaning::Block(_)
        | Meaning::Record(_)
        | Meaning::Method(_) => 0,
    }
}

/// The number of the global of this name, or 0 where it names none.
fn number_named(scope: &NameScope, name: &str) -> u32
    ensures { (at : Scope) → Fits scope.now at → result ≡ global_meant (meaning_of at name.now) }
{
    match scope.meaning(name) {
        None => 0,
        Some(meaning) => number_meant(meaning),
    }
}

/// The numbers of the globals that a method modifies, by their names.
pub fn made_modifies(
    alloc: Global,
    scope: &NameScope,
    modifies: &[Name],
) -> Result<Items<u32>, NoMemory>
    ensures { IfOk result (λ made. (at : Scope) → Fits scope.now at
        → made ≡ map (λ (written : Name). global_meant (meaning_of at written.text)) modifies.now) }
{
    let mut made = Items::new(alloc);
    for name in modifies {
        made.push(number_named(scope, name.text.as_str()))?;
    }
    Ok(made)
}
