ghost use Rattle.std.specs.Prelude.{◌≡◌, ◌++◌, ◌∷◌, OnOk};
ghost use Rattle.slang_values.specs.Tree.{literal, unary, listed, sequence_of, record_of};
ghost use Rattle.key_rules.specs.Fits.{FitsClaim, FitsList, FitsNumber};
ghost use Rattle.key_rules.specs.Writing.{number_bytes, claim_bytes, list_bytes};
ghost use Rattle.lk_claims.specs.Claim.{claim_tree, claim_trees, value_type};
ghost use Rattle.leg_key.specs.Parts.{claim_key, sequence_key, record_key};

use crate::bytes::{add_byte, add_length, add_number, add_wide_number};
use crate::types::add_type;
use crate::{NoMemory, codes};
use lk_claims::{Claim, Shape, Ty};
use slang_values::Unary;

/// Adds a claim at the end of a key.
#[cycle(claims)]
pub fn add_claim(claim: &Claim, key: &mut Vec<u8>) -> Result<(), NoMemory>
    ensures written { OnOk result (key.new.items ≡ key.old.items ++ claim_key claim.now) }
    ensures fits { OnOk result (FitsClaim (claim_tree claim.now)) }
{
    match claim.shape() {
        Shape::Literal(z) => add_literal(z, key),
        Shape::Truth(b) => add_byte(codes::truth(b), key),
        Shape::Variable(n) => add_name(codes::VARIABLE, n, key),
        Shape::Bound(n) => add_name(codes::BOUND, n, key),
        Shape::OldVariable(n) => add_name(codes::OLD_VARIABLE, n, key),
        Shape::LetSymbol(label) => add_name(codes::LET_SYMBOL, label, key),
        Shape::Unary(op, a) => add_unary(op, a, key),
        Shape::Binary(op, a, b) => add_two(codes::binary(op), a, b, key),
        Shape::Update(a, i, x) => add_three(codes::UPDATE, a, i, x, key),
        Shape::Quantified(q, low, high, body) => {
            add_three(codes::quantified(q), low, high, body, key)
        }
        Shape::Sequence(element, parts) => add_sequence(element, parts, key),
        Shape::Record(number, parts) => add_record(number, parts, key),
    }
}

fn add_literal(z: i128, key: &mut Vec<u8>) -> Result<(), NoMemory>
    ensures written { OnOk result (key.new.items ≡ key.old.items ++ claim_bytes (literal z)) }
    ensures fits { OnOk result (FitsClaim (literal z)) }
{
    add_byte(codes::LITERAL, key)?;
    add_wide_number(z, key)
}

fn add_name(code: u8, number: u32, key: &mut Vec<u8>) -> Result<(), NoMemory>
    ensures written { OnOk result (key.new.items ≡ key.old.items ++ code ∷ number_bytes number) }
    ensures fits { OnOk result (FitsNumber number) }
{
    add_byte(code, key)?;
    add_number(number, key)
}

#[cycle(claims)]
fn add_unary(op: Unary, a: &Claim, key: &mut Vec<u8>) -> Result<(), NoMemory>
    ensures written { OnOk result (key.new.items ≡ key.old.items ++ claim_bytes (unary op (claim_tree a.now))) }
    ensures fits { OnOk result (FitsClaim (unary op (claim_tree a.now))) }
{
    match op {
        Unary::Neg => add_one(codes::NEG, a, key),
        Unary::Not => add_one(codes::NOT, a, key),
        Unary::Size => add_one(codes::SIZE, a, key),
        Unary::Field(place) => {
            add_one(codes::FIELD, a, key)?;
            add_number(place, key)
        }
    }
}

#[cycle(claims)]
fn add_one(code: u8, a: &Claim, key: &mut Vec<u8>) -> Result<(), NoMemory>
    ensures written { OnOk result (key.new.items ≡ key.old.items ++ code ∷ claim_key a.now) }
    ensures fits { OnOk result (FitsClaim (claim_tree a.now)) }
{
    add_byte(code, key)?;
    add_claim(a, key)
}

#[cycle(claims)]
fn add_two(code: u8, a: &Claim, b: &Claim, key: &mut Vec<u8>) -> Result<(), NoMemory>
    ensures written { OnOk result (key.new.items ≡ key.old.items ++ code ∷ (claim_key a.now ++ claim_key b.now)) }
    ensures fits { OnOk result (FitsClaim (claim_tree a.now) × FitsClaim (claim_tree b.now)) }
{
    add_one(code, a, key)?;
    add_claim(b, key)
}

#[cycle(claims)]
fn add_three(code: u8, a: &Claim, b: &Claim, c: &Claim, key: &mut Vec<u8>) -> Result<(), NoMemory>
    ensures written { OnOk result (key.new.items ≡ key.old.items ++ code ∷ (claim_key a.now ++ (claim_key b.now ++ claim_key c.now))) }
    ensures fits { OnOk result (FitsClaim (claim_tree a.now) × FitsClaim (claim_tree b.now) × FitsClaim (claim_tree c.now)) }
{
    add_two(code, a, b, key)?;
    add_claim(c, key)
}

#[cycle(claims)]
fn add_sequence(element: &Ty, parts: &[Claim], key: &mut Vec<u8>) -> Result<(), NoMemory>
    ensures written { OnOk result (key.new.items ≡ key.old.items ++ sequence_key element.now parts.now) }
    ensures fits { OnOk result (FitsClaim (listed (sequence_of (value_type element.now)) (claim_trees parts.now))) }
{
    add_byte(codes::SEQUENCE_LITERAL, key)?;
    add_type(element, key)?;
    add_parts(parts, key)
}

#[cycle(claims)]
fn add_record(number: u32, parts: &[Claim], key: &mut Vec<u8>) -> Result<(), NoMemory>
    ensures written { OnOk result (key.new.items ≡ key.old.items ++ record_key number parts.now) }
    ensures fits { OnOk result (FitsClaim (listed (record_of number) (claim_trees parts.now))) }
{
    add_name(codes::RECORD_LITERAL, number, key)?;
    add_parts(parts, key)
}

#[cycle(claims)]
#[tactic(auto, using(lk_claims::proofs::Sizes::deepest_lines))]
fn add_parts(parts: &[Claim], key: &mut Vec<u8>) -> Result<(), NoMemory>
    ensures written { OnOk result (key.new.items ≡ key.old.items ++ list_bytes claim_key parts.now) }
    ensures fits { OnOk result (FitsList (λ part. FitsClaim (claim_tree part)) parts.now) }
{
    add_length(parts.len(), key)?;
    for part in parts {
        add_claim(part, key)?;
    }
    Ok(())
}
