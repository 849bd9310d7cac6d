ghost use Rattle.std.specs.Prelude.{◌≡◌, ◌+◌, ◌++◌, ◌∷◌, [], List, ℕ, IfOk};
ghost use Rattle.slang_tokens.specs.Places.{place_behind};

use slang_tree::Place;
use std::alloc::AllocError;

/// The place behind these bytes. A line or a column past the greatest number is want of memory.
pub fn place_behind(bytes: &[u8]) -> Result<Place, AllocError>
    ensures { IfOk result (λ place. place ≡ place_behind bytes.now) }
{
    let mut place = Place { line: 1, col: 1 };
    'bytes: for byte in bytes {
        place = passed(place, *byte)?;
    }
    Ok(place)
}

/// The place behind one more byte.
fn passed(place: Place, byte: u8) -> Result<Place, AllocError>
    ensures { IfOk result (λ place'. (before : List ℕ) → place ≡ place_behind before → place' ≡ place_behind (before ++ byte ∷ [])) }
{
    if byte == b'\n' {
        let line = place.line.checked_add(1).ok_or(AllocError)?;
        return Ok(Place { line, col: 1 });
    }
    if byte >= 128 && byte < 192 {
        return Ok(place);
    }
    let col = place.col.checked_add(1).ok_or(AllocError)?;
    Ok(Place {
        line: place.line,
        col,
    })
}
