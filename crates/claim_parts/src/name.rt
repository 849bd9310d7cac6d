ghost use Rattle.std.specs.Prelude.{◌≡◌};
ghost use Rattle.std.specs.Option.{option_map};
ghost use Rattle.lk_claims.specs.Claim.{claim_tree};
ghost use Rattle.claim_reading.specs.Readable.{name_in};
ghost use Rattle.claim_parts.specs.Names.{claim_name};

use lk_claims::{Claim, Shape};

/// What a name of a claim stands for.
#[derive(Clone, Copy)]
pub enum Name {
    Variable(u32),
    /// What the variable was before its last change.
    OldVariable(u32),
    /// The symbol of a block, by the block's label.
    LetSymbol(u32),
}

/// The name that the claim is, where it is one.
pub fn name_in(claim: &Claim) -> Option<Name>
    ensures { option_map claim_name result ≡ name_in (claim_tree claim.now) }
{
    match claim.shape() {
        Shape::Variable(x) => Some(Name::Variable(x)),
        Shape::OldVariable(x) => Some(Name::OldVariable(x)),
        Shape::LetSymbol(label) => Some(Name::LetSymbol(label)),
        Shape::Literal(_) | Shape::Truth(_) | Shape::Bound(_) => None,
        Shape::Unary(_, _) | Shape::Binary(_, _, _) | Shape::Update(_, _, _) => None,
        Shape::Quantified(_, _, _, _) | Shape::Sequence(_, _) | Shape::Record(_, _) => None,
    }
}
