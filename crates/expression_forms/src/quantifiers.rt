ghost use Rattle.std.specs.Prelude.{◌≡◌, ◌++◌};
ghost use Rattle.slang_values.specs.Value.{number_type, truth_type};
ghost use Rattle.type_rules.specs.Faults.{first_fault, type_differs, unless};
ghost use Rattle.type_rules.specs.Judged as part;
ghost use Rattle.type_rules.specs.Judged.{is_sequence, known_type};
ghost use Rattle.type_rules.specs.Expressions as rule;
ghost use Rattle.text_types.specs.Found.{IsJudged, seen};
ghost use Rattle.expression_forms.specs.Context.{context_seen};

use crate::context::Context;
use slang_tree::{Fault, Place};
use text_types::{Found, TextType, expects, over};
use type_faults::FirstFault;

/// What is wrong with a quantifier over a range.
#[tactic(auto, using(type_faults::proofs::First::in_turn, type_faults::proofs::First::for_all))]
fn range_faults(context: Context, place: Place, low: Found, high: Found, body: Found) -> FirstFault
    ensures { result.found ≡ first_fault (part.expects number_type (seen low) ++ part.expects number_type (seen high) ++ part.expects truth_type (seen body)
        ++ rule.word_faults (context_seen context) place) }
{
    let mut own = FirstFault::none();
    expects(&mut own, TextType::Z, low);
    expects(&mut own, TextType::Z, high);
    expects(&mut own, TextType::B, body);
    context.tell_word(&mut own, place);
    own
}

/// What is wrong with a quantifier over the indices of a sequence.
#[tactic(auto, using(type_faults::proofs::First::in_turn, type_faults::proofs::First::for_all))]
fn indices_faults(context: Context, place: Place, head: Found, body: Found) -> FirstFault
    ensures { result.found ≡ first_fault (unless (is_sequence (known_type (seen head))) (type_differs head.place)
        ++ part.expects truth_type (seen body) ++ rule.word_faults (context_seen context) place) }
{
    let mut own = FirstFault::none();
    own.tell_unless(
        head.known().is_sequence(),
        Fault {
            code: 8,
            place: head.place,
        },
    );
    expects(&mut own, TextType::B, body);
    context.tell_word(&mut own, place);
    own
}

/// A quantifier over a range, in which a name is declared.
pub fn quantified(
    told: &mut FirstFault,
    context: Context,
    place: Place,
    low: Found,
    high: Found,
    name: Found,
    body: Found,
) -> Found
    ensures { IsJudged told.old.found told.new.found result
        (rule.judged_quantified (context_seen context) place (seen low) (seen high) (seen name) (seen body)) }
{
    let own = range_faults(context, place, low, high, body);
    over(
        told,
        place,
        &[low, high, name, body],
        own,
        Some(TextType::B),
    )
}

/// A quantifier over the indices of a sequence, in which a name is declared.
pub fn quantified_indices(
    told: &mut FirstFault,
    context: Context,
    place: Place,
    head: Found,
    name: Found,
    body: Found,
) -> Found
    ensures { IsJudged told.old.found told.new.found result
        (rule.judged_quantified_indices (context_seen context) place (seen head) (seen name) (seen body)) }
{
    let own = indices_faults(context, place, head, body);
    over(told, place, &[head, name, body], own, Some(TextType::B))
}
