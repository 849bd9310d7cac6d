ghost use Rattle.std.specs.Prelude.{◌≡◌, [], OnOk};
ghost use Rattle.type_rules.specs.Steps as rule;
ghost use Rattle.type_faults.specs.FirstFault.{with_first};

use crate::NoMemory;
use slang_tree::{Fault, Label};
use std::alloc::Global;
use std::collections::BTreeSet;
use type_faults::FirstFault;

/// Tells of each label that stands before.
pub fn repeated(alloc: Global, told: &mut FirstFault, labels: &[Label]) -> Result<(), NoMemory>
    ensures { OnOk result (told.new.found ≡ with_first told.old.found (rule.repeated_labels [] labels.now)) }
{
    let mut numbers: BTreeSet<u32> = BTreeSet::new(alloc);
    for label in labels {
        let new = numbers.insert(label.number)?;
        told.tell_unless(
            new,
            Fault {
                code: 7,
                place: label.place,
            },
        );
    }
    Ok(())
}
