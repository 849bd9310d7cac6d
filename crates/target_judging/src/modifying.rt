ghost use Rattle.std.specs.Prelude.{◌≡◌, ◌++◌, [], OnOk, Some};
ghost use Rattle.type_rules.specs.Meanings.{Scope, meaning_of};
ghost use Rattle.type_rules.specs.Statements as rule;
ghost use Rattle.type_faults.specs.FirstFault.{with_first};
ghost use Rattle.name_scopes.specs.Fits.{Fits};
ghost use Rattle.name_scopes.specs.Meanings.{meant};
ghost use Rattle.target_judging.specs.MayBeNamed.{may_be_named};

use crate::NoMemory;
use name_maps::NameMap;
use name_scopes::{Meaning, NameScope};
use slang_tree::{Fault, Name};
use std::alloc::Global;
use type_faults::FirstFault;

/// Which variables a Modifies may name.
#[derive(Clone, Copy, Debug)]
pub enum MayBeNamed {
    /// Each `var`, in the Modifies of a loop.
    Vars,
    /// Each `var` among the globals, in that of a method.
    GlobalVars,
}

impl MayBeNamed {
    fn has(self, meaning: &Meaning) -> bool
        ensures { result ≡ may_be_named self (meant meaning.now) }
    {
        match self {
            MayBeNamed::Vars => meaning.is_var(),
            MayBeNamed::GlobalVars => meaning.is_global_var(),
        }
    }
}

/// Tells where a known name may not stand in a Modifies.
#[tactic(auto, using(text_types::proofs::Parts::with_none))]
fn known_modified(
    scope: &NameScope,
    told: &mut FirstFault,
    may: MayBeNamed,
    name: &Name,
    meaning: &Meaning,
)
    ensures { (at : Scope) → Fits scope.now at → told.new.found ≡ with_first told.old.found
        (rule.modified_faults (may_be_named may) at name.now.place (Some (meant meaning.now))) }
{
    if scope.is_well_declared(meaning) {
        let holds = may.has(meaning);
        told.tell_unless(
            holds,
            Fault {
                code: 10,
                place: name.place,
            },
        );
    }
}

/// Tells where a name may not stand in a Modifies.
fn modified(scope: &NameScope, told: &mut FirstFault, may: MayBeNamed, name: &Name)
    ensures { (at : Scope) → Fits scope.now at → told.new.found ≡ with_first told.old.found
        (rule.modified_faults (may_be_named may) at name.now.place (meaning_of at name.now.text)) }
{
    match scope.meaning(name.text.as_str()) {
        None => told.tell(Fault {
            code: 6,
            place: name.place,
        }),
        Some(meaning) => known_modified(scope, told, may, name, meaning),
    }
}

/// Tells what is wrong with the names of a Modifies: each is that of a variable that may be named there, and differs from those before it.
pub fn modifies(
    names: &[Name],
    alloc: Global,
    scope: &NameScope,
    told: &mut FirstFault,
    may: MayBeNamed,
) -> Result<(), NoMemory>
    ensures { OnOk result ((at : Scope) → Fits scope.now at
        → told.new.found ≡ with_first told.old.found (rule.modifies_faults (may_be_named may) at [] names.now)) }
{
    let mut before = NameMap::new(alloc);
    for name in names {
        modified(scope, told, may, name);
        let known = before.contains(name.text.as_str());
        told.tell_unless(
            !known,
            Fault {
                code: 7,
                place: name.place,
            },
        );
        before.add(alloc, name.text.as_str(), ())?;
    }
    Ok(())
}
