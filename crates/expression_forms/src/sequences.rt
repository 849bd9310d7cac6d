ghost use Rattle.std.specs.Prelude.{◌≡◌, [], ◌∷◌, map};
ghost use Rattle.std.specs.Option.{option_map};
ghost use Rattle.slang_values.specs.Value.{sequence_type};
ghost use Rattle.type_rules.specs.Faults.{first_fault};
ghost use Rattle.type_rules.specs.Judged.{are_typed as typed_parts};
ghost use Rattle.type_rules.specs.Expressions as rule;
ghost use Rattle.text_types.specs.TextType.{element_value, text_value};
ghost use Rattle.text_types.specs.Found.{IsJudged, seen};
ghost use Rattle.expression_forms.specs.Forms.{elements_faults, front_seen, read_faults, update_faults};

use crate::operators::{both_expected, differs, expected};
use slang_tree::{Fault, Place};
use text_types::{ElementType, Found, TextType, all_expect, are_typed, over, over_typed};
use type_faults::FirstFault;

/// What is wrong with the arguments of a read of a sequence.
fn index_faults(head: Found, arguments: &[Found], place: Place) -> FirstFault
    ensures { result.found ≡ first_fault (rule.index_faults (seen head) (map seen arguments.now) place) }
{
    let mut own = FirstFault::none();
    match arguments {
        [index] => return expected(TextType::Z, *index),
        _ => own.tell(Fault { code: 9, place }),
    }
    own
}

/// What is wrong with what is applied to arguments as a sequence.
fn read_faults(place: Place, head: Found, arguments: &[Found]) -> FirstFault
    ensures { result.found ≡ first_fault (read_faults place (seen head) (map seen arguments.now)) }
{
    if head.known().is_sequence() {
        index_faults(head, arguments, place)
    } else {
        differs(place)
    }
}

/// Whether a head and its arguments all have types.
fn all_typed(head: Found, arguments: &[Found]) -> bool
    ensures { result ≡ typed_parts (seen head ∷ map seen arguments.now) }
{
    match head.ty {
        None => false,
        Some(_) => are_typed(arguments),
    }
}

/// A read of a sequence.
pub fn read(told: &mut FirstFault, place: Place, head: Found, arguments: &[Found]) -> Found
    ensures { IsJudged told.old.found told.new.found result (rule.judged_read place (seen head) (map seen arguments.now)) }
{
    let own = read_faults(place, head, arguments);
    let typed = all_typed(head, arguments);
    over_typed(told, place, typed, own, Some(head.known().element()))
}

/// What is wrong with an update of a sequence.
fn update_faults(place: Place, head: Found, index: Found, element: Found) -> FirstFault
    ensures { result.found ≡ first_fault (update_faults place (seen head) (seen index) (seen element)) }
{
    let known = head.known();
    if known.is_sequence() {
        both_expected(TextType::Z, index, known.element(), element)
    } else {
        differs(place)
    }
}

/// A sequence with another element at an index.
pub fn update(
    told: &mut FirstFault,
    place: Place,
    head: Found,
    index: Found,
    element: Found,
) -> Found
    ensures { IsJudged told.old.found told.new.found result (rule.judged_update place (seen head) (seen index) (seen element)) }
{
    let own = update_faults(place, head, index, element);
    over(told, place, &[head, index, element], own, head.ty)
}

/// A sequence of elements, the type of which stands in front.
pub fn listed(
    told: &mut FirstFault,
    place: Place,
    front: Option<ElementType>,
    elements: &[Found],
) -> Found
    ensures { (at : Place) → IsJudged told.old.found told.new.found result
        (rule.judged_listed place (front_seen at front ∷ []) (map seen elements.now)) }
{
    let mut own = FirstFault::none();
    match front {
        None => Found::untyped(place),
        Some(element) => {
            all_expect(&mut own, element.text_type(), elements);
            over(
                told,
                place,
                elements,
                own,
                Some(TextType::Sequence(element)),
            )
        }
    }
}

/// What is wrong with elements, the first of which tells their type.
fn elements_fault(first: Found, others: &[Found]) -> FirstFault
    ensures { result.found ≡ first_fault (elements_faults (seen first) (map seen others.now)) }
{
    let mut own = FirstFault::none();
    match first.known().as_element() {
        None => return differs(first.place),
        Some(element) => all_expect(&mut own, element.text_type(), others),
    }
    own
}

/// A sequence of elements without a type in front.
pub fn elements(told: &mut FirstFault, place: Place, elements: &[Found]) -> Found
    ensures { IsJudged told.old.found told.new.found result (rule.judged_elements place (map seen elements.now)) }
{
    let [first, others @ ..] = elements else {
        return Found::faulty(told, place, 8, place);
    };
    let own = elements_fault(*first, others);
    let ty = first.known().as_element();
    over(told, place, elements, own, sequence_of(ty))
}

/// The type of a sequence of these elements.
fn sequence_of(element: Option<ElementType>) -> Option<TextType>
    ensures { option_map text_value result ≡ option_map (λ e. sequence_type (element_value e)) element }
{
    match element {
        None => None,
        Some(element) => Some(TextType::Sequence(element)),
    }
}
