ghost use Rattle.std.specs.Prelude.{◌≡◌, length};
ghost use Rattle.type_rules.specs.Steps as rule;
ghost use Rattle.type_faults.specs.FirstFault.{with_first};

use slang_tree::{Cited, Fault, Label, Name, rule_named};
use type_faults::FirstFault;

/// Whether a rule that cites so many labels may cite these.
fn takes(cited: Cited, count: usize) -> bool
    ensures { result ≡ rule.takes cited count }
{
    match cited {
        Cited::Exactly(n) => usize::from(n) == count,
        Cited::Any => true,
    }
}

/// Tells where a step names no rule, or cites another count of labels than its rule.
pub fn cited_by(told: &mut FirstFault, name: &Name, cites: &[Label])
    ensures { told.new.found ≡ with_first told.old.found (rule.rule_faults name.now cites.now) }
{
    let place = name.place;
    match rule_named(name.text.as_str()) {
        None => told.tell(Fault { code: 6, place }),
        Some(known) => {
            let holds = takes(known.cited, cites.len());
            told.tell_unless(holds, Fault { code: 9, place });
        }
    }
}
