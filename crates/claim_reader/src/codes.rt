ghost use Rattle.std.specs.Prelude.{◌≡◌};
ghost use Rattle.std.specs.Option.{option_map};
ghost use Rattle.claim_reader.specs.Heads.{claim_head_coded, claim_head_data, type_head_coded, type_head_data};

use slang_values::{Binary, Quantifier};

/// What a type begins with.
#[derive(Clone, Copy)]
pub(crate) enum TypeHead {
    Number,
    Truth,
    Sequence,
    Record,
}

/// What a claim begins with.
#[derive(Clone, Copy)]
pub(crate) enum ClaimHead {
    Literal,
    Truth(bool),
    Variable,
    Bound,
    OldVariable,
    LetSymbol,
    Neg,
    Not,
    Size,
    Field,
    Binary(Binary),
    Update,
    Quantified(Quantifier),
    Sequence,
    Record,
}

/// The beginning of a type with this byte.
pub(crate) fn type_head(byte: u8) -> Option<TypeHead>
    ensures { option_map type_head_data result ≡ type_head_coded byte }
{
    match byte {
        0 => Some(TypeHead::Number),
        1 => Some(TypeHead::Truth),
        2 => Some(TypeHead::Sequence),
        3 => Some(TypeHead::Record),
        _ => None,
    }
}

/// The beginning of a claim with this byte.
pub(crate) fn claim_head(byte: u8) -> Option<ClaimHead>
    ensures { option_map claim_head_data result ≡ claim_head_coded byte }
{
    match byte {
        0 => Some(ClaimHead::Literal),
        1 => Some(ClaimHead::Truth(true)),
        2 => Some(ClaimHead::Truth(false)),
        3 => Some(ClaimHead::Variable),
        4 => Some(ClaimHead::Bound),
        5 => Some(ClaimHead::OldVariable),
        6 => Some(ClaimHead::Neg),
        7 => Some(ClaimHead::Not),
        8 => Some(ClaimHead::Binary(Binary::Add)),
        9 => Some(ClaimHead::Binary(Binary::Sub)),
        10 => Some(ClaimHead::Binary(Binary::Mul)),
        11 => Some(ClaimHead::Binary(Binary::Div)),
        12 => Some(ClaimHead::Binary(Binary::Rem)),
        13 => Some(ClaimHead::Binary(Binary::And)),
        14 => Some(ClaimHead::Binary(Binary::Or)),
        15 => Some(ClaimHead::Binary(Binary::Imply)),
        16 => Some(ClaimHead::Binary(Binary::Eq)),
        17 => Some(ClaimHead::Binary(Binary::Lt)),
        18 => Some(ClaimHead::Binary(Binary::Le)),
        19 => Some(ClaimHead::Size),
        20 => Some(ClaimHead::Binary(Binary::Read)),
        21 => Some(ClaimHead::Update),
        22 => Some(ClaimHead::Binary(Binary::Append)),
        23 => Some(ClaimHead::Sequence),
        24 => Some(ClaimHead::Record),
        25 => Some(ClaimHead::Field),
        26 => Some(ClaimHead::Quantified(Quantifier::All)),
        27 => Some(ClaimHead::Quantified(Quantifier::Exists)),
        28 => Some(ClaimHead::LetSymbol),
        _ => None,
    }
}
