ghost use Rattle.std.specs.Prelude.{◌≡◌, ◌++◌, Some};
ghost use Rattle.program_trees.specs.Operators.{connective};
ghost use Rattle.type_rules.specs.Faults.{first_fault, type_differs};
ghost use Rattle.type_rules.specs.Judged as rule;
ghost use Rattle.type_rules.specs.Expressions as typing;
ghost use Rattle.text_types.specs.TextType.{text_value};
ghost use Rattle.text_types.specs.Found.{IsJudged, seen};

use slang_tree::{Fault, Operator, Place};
use text_types::{Found, TextType, expects, over};
use type_faults::FirstFault;

/// The fault of a type that differs.
pub fn differs(place: Place) -> FirstFault
    ensures { result.found ≡ Some (type_differs place) }
{
    let mut own = FirstFault::none();
    own.tell(Fault { code: 8, place });
    own
}

/// What is wrong with a part that is to be of this type.
pub fn expected(ty: TextType, part: Found) -> FirstFault
    ensures { result.found ≡ first_fault (rule.expects (text_value ty) (seen part)) }
{
    let mut own = FirstFault::none();
    expects(&mut own, ty, part);
    own
}

/// What is wrong with two parts that are to be of these types.
#[tactic(auto, using(type_faults::proofs::First::in_turn))]
pub fn both_expected(first: TextType, left: Found, second: TextType, right: Found) -> FirstFault
    ensures { result.found ≡ first_fault (rule.expects (text_value first) (seen left) ++ rule.expects (text_value second) (seen right)) }
{
    let mut own = FirstFault::none();
    expects(&mut own, first, left);
    expects(&mut own, second, right);
    own
}

/// An operator in front of an operand, which takes and gives this type.
pub fn prefix(told: &mut FirstFault, place: Place, ty: TextType, operand: Found) -> Found
    ensures { IsJudged told.old.found told.new.found result (typing.judged_prefix place (text_value ty) (seen operand)) }
{
    over(told, place, &[operand], expected(ty, operand), Some(ty))
}

/// What is wrong with the operands of `:+`.
fn appended_faults(left: Found, right: Found) -> FirstFault
    ensures { result.found ≡ first_fault (typing.appended_faults (seen left) (seen right)) }
{
    if left.known().is_sequence() {
        expected(left.known().element(), right)
    } else {
        differs(left.place)
    }
}

/// What is wrong with the operands of an operator.
fn operand_faults(operator: Operator, left: Found, right: Found) -> FirstFault
    ensures { result.found ≡ first_fault (typing.operand_faults (connective operator) (seen left) (seen right)) }
{
    match operator {
        Operator::Eq | Operator::Ne => expected(left.known(), right),
        Operator::Append => appended_faults(left, right),
        Operator::Add
        | Operator::Sub
        | Operator::Mul
        | Operator::Div
        | Operator::Rem
        | Operator::Lt
        | Operator::Le
        | Operator::Gt
        | Operator::Ge => both_expected(TextType::Z, left, TextType::Z, right),
        _ => both_expected(TextType::B, left, TextType::B, right),
    }
}

/// The type that an operator gives, the left operand of which has this type.
fn connected_type(operator: Operator, left: TextType) -> TextType
    ensures { text_value result ≡ typing.connected_type (connective operator) (text_value left) }
{
    match operator {
        Operator::Add | Operator::Sub | Operator::Mul | Operator::Div | Operator::Rem =>
            TextType::Z,
        Operator::Append => left,
        _ => TextType::B,
    }
}

/// An operator between two operands.
pub fn binary(
    told: &mut FirstFault,
    place: Place,
    operator: Operator,
    left: Found,
    right: Found,
) -> Found
    ensures { IsJudged told.old.found told.new.found result (typing.judged_binary place (connective operator) (seen left) (seen right)) }
{
    let own = operand_faults(operator, left, right);
    let ty = connected_type(operator, left.known());
    over(told, place, &[left, right], own, Some(ty))
}
