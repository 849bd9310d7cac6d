ghost use Rattle.std.specs.Prelude.{◌≡◌, ◌+◌, ◌<◌, ◌^◌, ◌++◌, ◌∷◌, [], List, ℕ, IfOk, IsOk};
ghost use Rattle.slang_tokens.specs.Places.{place_behind};

use slang_tree::Place;
use std::alloc::AllocError;

/// The place behind more bytes. A line or a column past the greatest number is want of memory.
pub fn moved(place: Place, bytes: &[u8]) -> Result<Place, AllocError>
    ensures { IfOk result (λ place'. (before : List ℕ) → place ≡ place_behind before → place' ≡ place_behind (before ++ bytes.now)) }
{
    let mut here = place;
    for byte in bytes {
        here = passed(here, *byte)?;
    }
    Ok(here)
}

/// The place behind one more byte.
fn passed(place: Place, byte: u8) -> Result<Place, AllocError>
    ensures behind { IfOk result (λ place'. (before : List ℕ) → place ≡ place_behind before → place' ≡ place_behind (before ++ byte ∷ [])) }
    ensures fits { place.line + 1 < 2 ^ 32 → place.col + 1 < 2 ^ 32 → IsOk result }
{
    if byte == b'\n' {
        let line = place.line.checked_add(1).ok_or(AllocError)?;
        return Ok(Place { line, col: 1 });
    }
    if byte >= 128 && byte < 192 {
        return Ok(place);
    }
    let col = place.col.checked_add(1).ok_or(AllocError)?;
    Ok(Place {
        line: place.line,
        col,
    })
}
