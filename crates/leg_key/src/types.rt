ghost use Rattle.std.specs.Prelude.{◌≡◌, ◌++◌, OnOk};
ghost use Rattle.key_rules.specs.Fits.{FitsList, FitsType};
ghost use Rattle.key_rules.specs.Writing.{list_bytes};
ghost use Rattle.lk_claims.specs.Claim.{value_type};
ghost use Rattle.leg_key.specs.Parts.{type_key};

use crate::bytes::{add_byte, add_length, add_number};
use crate::{NoMemory, codes};
use lk_claims::Ty;
use std::alloc::AllocError;

/// Adds a type at the end of a key. The type `Unit`, which no part of a leg has, is refused.
#[tactic(auto, using(std::proofs::lemmas::Grind::common_steps, lk_claims::proofs::Types::type_lines))]
pub fn add_type(ty: &Ty, key: &mut Vec<u8>) -> Result<(), NoMemory>
    ensures written { OnOk result (key.new.items ≡ key.old.items ++ type_key ty.now) }
    ensures fits { OnOk result (FitsType (value_type ty.now)) }
{
    match ty {
        Ty::Unit => Err(AllocError),
        Ty::Z => add_byte(codes::NUMBER, key),
        Ty::B => add_byte(codes::TRUTH, key),
        Ty::Seq(element) => {
            add_byte(codes::SEQUENCE, key)?;
            add_type(element.get(), key)
        }
        Ty::Rec(number) => {
            add_byte(codes::RECORD, key)?;
            add_number(*number, key)
        }
    }
}

/// Adds a list of types at the end of a key.
pub fn add_types(types: &[Ty], key: &mut Vec<u8>) -> Result<(), NoMemory>
    ensures written { OnOk result (key.new.items ≡ key.old.items ++ list_bytes type_key types.now) }
    ensures fits { OnOk result (FitsList (λ ty. FitsType (value_type ty)) types.now) }
{
    add_length(types.len(), key)?;
    for ty in types {
        add_type(ty, key)?;
    }
    Ok(())
}
