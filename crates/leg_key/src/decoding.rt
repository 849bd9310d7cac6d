ghost use Rattle.std.specs.Prelude.{◌≡◌, IfOk, None, Some, if◌then◌else◌};
ghost use Rattle.leg_key.specs.Decoding.{IsLegOf, IsTestedLeg};

use crate::NoMemory;
use key_reader::read_key;
use leg_checks::is_well_formed;
use lk_programs::Leg;
use std::alloc::Global;

fn kept(leg: Leg, is_kept: bool) -> Option<Leg>
    ensures { result ≡ (if is_kept then Some leg else None) }
{
    if is_kept { Some(leg) } else { None }
}

/// The leg, where it is well formed.
fn well_formed(alloc: Global, leg: Leg) -> Result<Option<Leg>, NoMemory>
    ensures { IfOk result (IsTestedLeg leg) }
{
    match is_well_formed(alloc, &leg) {
        Ok(is_kept) => Ok(kept(leg, is_kept)),
        Err(end) => Err(end),
    }
}

/// The well-formed leg whose key these bytes are, where there is one: in time and memory that the number of the bytes bounds.
pub fn decode(alloc: Global, key: &[u8]) -> Result<Option<Leg>, NoMemory>
    ensures { IfOk result (IsLegOf key.now) }
{
    match read_key(alloc, key)? {
        Some(leg) => well_formed(alloc, leg),
        None => Ok(None),
    }
}
