ghost use Rattle.std.specs.Prelude.{◌≡◌, [], map, IfOk};
ghost use Rattle.std.specs.Option.{option_map};
ghost use Rattle.rule_check.specs.Cited.{cited_tree};
ghost use Rattle.deduction_rules.specs.Deduction as rule;
ghost use Rattle.proof_scopes.specs.Scope.{labelled_tree};
ghost use Rattle.proof_scopes.specs.Citing.{IsCiting};

use crate::scope::Labelled;
use rule_check::Cited;
use term_trees::NoMemory;

/// What the label stands for, where it is visible.
fn look_up<'a>(visible: &[Labelled<'a>], label: u32) -> Option<Cited<'a>>
    ensures { option_map cited_tree result ≡ rule.look_up (map labelled_tree visible.now) label }
{
    for one in visible {
        if one.label == label {
            return Some(one.cited);
        }
    }
    None
}

/// Gathers what the labels stand for, in order. Answers the first that is not visible.
pub fn cite<'a>(
    visible: &[Labelled<'a>],
    labels: &[u32],
    cited: &mut Vec<Cited<'a>>,
) -> Result<Option<u32>, NoMemory>
    requires { cited.old.items ≡ [] }
    ensures { IfOk result (λ missing. IsCiting missing (map cited_tree cited.new.items) (rule.citing (map labelled_tree visible.now) labels.now)) }
{
    for label in labels {
        match look_up(visible, *label) {
            None => return Ok(Some(*label)),
            Some(one) => cited.push(one)?,
        }
    }
    Ok(None)
}
