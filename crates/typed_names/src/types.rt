ghost use Rattle.std.specs.Prelude.{◌≡◌, IfOk};
ghost use Rattle.lk_claims.specs.Claim.{value_type};
ghost use Rattle.text_types.specs.TextType.{element_value, text_value};

use crate::NoMemory;
use lk_claims::Ty;
use sqlite_items::Boxed;
use std::alloc::Global;
use text_types::{ElementType, TextType};

/// The type of the elements of a sequence, as the program has it.
#[tactic(auto, using(lk_claims::proofs::Types::type_lines))]
pub fn element_ty(element: ElementType) -> Ty
    ensures { value_type result ≡ element_value element }
{
    match element {
        ElementType::Z => Ty::Z,
        ElementType::B => Ty::B,
        ElementType::Record(number) => Ty::Rec(number),
    }
}

/// A type of the text, as the program has it.
#[tactic(auto, using(lk_claims::proofs::Types::type_lines))]
pub fn ty_of(alloc: Global, ty: TextType) -> Result<Ty, NoMemory>
    ensures { IfOk result (λ made. value_type made ≡ text_value ty) }
{
    match ty {
        TextType::Unit => Ok(Ty::Unit),
        TextType::Z => Ok(Ty::Z),
        TextType::B => Ok(Ty::B),
        TextType::Record(number) => Ok(Ty::Rec(number)),
        TextType::Sequence(element) => Ok(Ty::Seq(Boxed::new(alloc, element_ty(element))?)),
    }
}
