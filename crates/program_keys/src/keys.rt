ghost use Rattle.std.specs.Prelude.{◌<◌, ◌∷◌, [], length, map, IfOk, OnOk};
ghost use Rattle.std.specs.List.{AllByRecursion};
ghost use Rattle.leg_forms.specs.WellFormed.{IsWellFormedLeg};
ghost use Rattle.lk_programs.specs.LegData.{leg_tree};
ghost use Rattle.leg_orders.specs.Places.{program_of, method_of};
ghost use Rattle.program_keys.specs.Keys.{method_legs, program_legs, bytes_of, AreAdded, AreKeysOf};

use crate::NoMemory;
use leg_key::encode;
use legs::{LegsEnd, legs_of};
use lk_programs::{Leg, Typed};
use std::alloc::{AllocError, Global};

/// Adds the key of a leg.
fn add_key(alloc: Global, leg: &Leg, keys: &mut Vec<Vec<u8>>) -> Result<(), NoMemory>
    requires { IsWellFormedLeg (leg_tree leg.now) }
    ensures { OnOk result (AreAdded (leg_tree leg.now ∷ []) (bytes_of keys.old) (bytes_of keys.new)) }
{
    match encode(alloc, leg) {
        Err(_) => Err(AllocError),
        Ok(key) => {
            keys.push(key)?;
            Ok(())
        }
    }
}

/// Adds the keys of legs.
fn add_keys(alloc: Global, legs: &[Leg], keys: &mut Vec<Vec<u8>>) -> Result<(), NoMemory>
    requires { AllByRecursion (λ leg. IsWellFormedLeg (leg_tree leg)) legs.now }
    ensures { OnOk result (AreAdded (map leg_tree legs.now) (bytes_of keys.old) (bytes_of keys.new)) }
{
    for leg in legs {
        match add_key(alloc, leg, keys) {
            Ok(()) => {}
            Err(_) => return Err(AllocError),
        }
    }
    Ok(())
}

/// Adds the keys of the legs of the method of that number.
fn add_method_keys(
    alloc: Global,
    typed: &Typed,
    method: u32,
    keys: &mut Vec<Vec<u8>>,
) -> Result<(), NoMemory>
    requires { method < length typed.now.methods }
    ensures { OnOk result (AreAdded (method_legs (program_of typed.now) (method_of typed.now method)) (bytes_of keys.old) (bytes_of keys.new)) }
{
    match legs_of(alloc, typed, method) {
        Ok(legs) => add_keys(alloc, legs.legs.as_slice(), keys),
        Err(end) => match end {
            LegsEnd::Many { .. } => Ok(()),
            LegsEnd::NoMemory => Err(AllocError),
        },
    }
}

/// Adds the keys of the legs of the method of that number, where it is one.
fn add_keys_at(
    alloc: Global,
    typed: &Typed,
    number: usize,
    keys: &mut Vec<Vec<u8>>,
) -> Result<(), NoMemory>
    requires { number < length typed.now.methods }
    ensures { OnOk result (AreAdded (method_legs (program_of typed.now) (method_of typed.now number)) (bytes_of keys.old) (bytes_of keys.new)) }
{
    match u32::try_from(number) {
        Ok(method) => add_method_keys(alloc, typed, method, keys),
        Err(_) => Err(AllocError),
    }
}

/// Adds the keys of the legs of all methods.
fn add_program_keys(alloc: Global, typed: &Typed, keys: &mut Vec<Vec<u8>>) -> Result<(), NoMemory>
    ensures { OnOk result (AreAdded (program_legs (program_of typed.now)) (bytes_of keys.old) (bytes_of keys.new)) }
{
    for number in 0..typed.methods.len() {
        match add_keys_at(alloc, typed, number, keys) {
            Ok(()) => {}
            Err(_) => return Err(AllocError),
        }
    }
    Ok(())
}

/// The keys of the legs of all methods of a program, in the order of the methods. A method of more than 256 legs has none.
pub fn program_keys(alloc: Global, typed: &Typed) -> Result<Vec<Vec<u8>>, NoMemory>
    ensures { IfOk result (λ keys. AreKeysOf (program_legs (program_of typed.now)) (bytes_of keys)) }
{
    let mut keys = Vec::new(alloc);
    match add_program_keys(alloc, typed, &mut keys) {
        Ok(()) => Ok(keys),
        Err(_) => Err(AllocError),
    }
}
