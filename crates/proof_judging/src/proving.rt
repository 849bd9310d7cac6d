ghost use Rattle.std.specs.Prelude.{◌≡◌, [], OnOk, map};
ghost use Rattle.slang_tree.specs.StmtTree.{step_tree, steps_of};
ghost use Rattle.type_rules.specs.Meanings.{Scope};
ghost use Rattle.type_rules.specs.Steps as rule;
ghost use Rattle.type_faults.specs.FirstFault.{with_first};
ghost use Rattle.name_scopes.specs.Fits.{Fits};

use crate::NoMemory;
use crate::repeating::repeated;
use crate::step_labels::add_labels;
use name_scopes::NameScope;
use slang_tree::Step;
use sqlite_items::Items;
use std::alloc::Global;
use step_judging::judged_steps;
use type_faults::FirstFault;

/// Tells where the labels of some steps are not all different.
fn distinct_labels(steps: &[Step], alloc: Global, told: &mut FirstFault) -> Result<(), NoMemory>
    ensures { OnOk result (told.new.found ≡ with_first told.old.found (rule.repeated_labels [] (rule.labels_of (steps_of (map step_tree steps.now))))) }
{
    let mut labels = Items::new(alloc);
    add_labels(steps, &mut labels)?;
    repeated(alloc, told, labels.as_slice())
}

/// Tells what is wrong with a proof.
pub fn proof(
    steps: &[Step],
    alloc: Global,
    scope: &mut NameScope,
    told: &mut FirstFault,
) -> Result<(), NoMemory>
    ensures told { OnOk result ((at : Scope) → Fits scope.old at
        → told.new.found ≡ with_first told.old.found (rule.proof_faults at (steps_of (map step_tree steps.now)))) }
    ensures scope { OnOk result (scope.new ≡ scope.old) }
{
    distinct_labels(steps, alloc, told)?;
    judged_steps(steps, alloc, scope, told)
}
