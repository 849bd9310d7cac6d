ghost use Rattle.std.specs.Prelude.{◌≡◌};
ghost use Rattle.height_rules.specs.Faults.{too_high};

use slang_tree::{Fault, Place};

/// How high an expression or a constant may be.
pub const HEIGHT_LIMIT: u32 = 1000;

/// How many blocks of a proof may stand around a step.
pub const BLOCK_LIMIT: u32 = 200;

/// The fault of what is too high at a place.
pub fn too_high(place: Place) -> Fault
    ensures { result ≡ too_high place }
{
    Fault { code: 5, place }
}
