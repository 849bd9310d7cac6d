//! Several results taken together: Ok with all parts where each is Ok, else the first error.
//!
//! `let (a, b) = both(first(..), second(..))?;` has no part alive at its `?`, where `let a = first(..)?; let b = second(..)?;`
//! has one that would have to be dropped at the second.
#![tactic(auto)]

ghost use Rattle.std.specs.Prelude.{◌≡◌, ◌⊎◌, IfOk, IfErr, IsOk};

/// Both parts, or the first error.
pub fn both<A: Drop, B: Drop, E: Drop>(a: Result<A, E>, b: Result<B, E>) -> Result<(A, B), E>
    ensures parts { IfOk result (λ p. (a ≡ Ok p.0) × (b ≡ Ok p.1)) }
    ensures first_error { IfErr result (λ e. (a ≡ Err e) ⊎ (IsOk a × (b ≡ Err e))) }
{
    match a {
        Err(e) => Err(e),
        Ok(a) => match b {
            Err(e) => Err(e),
            Ok(b) => Ok((a, b)),
        },
    }
}

/// All three parts, or the first error.
pub fn all_three<A: Drop, B: Drop, C: Drop, E: Drop>(
    a: Result<A, E>,
    b: Result<B, E>,
    c: Result<C, E>,
) -> Result<(A, B, C), E>
    ensures parts { IfOk result (λ p. (a ≡ Ok p.0) × (b ≡ Ok p.1) × (c ≡ Ok p.2)) }
    ensures first_error { IfErr result (λ e. (a ≡ Err e) ⊎ (IsOk a × (b ≡ Err e)) ⊎ (IsOk a × IsOk b × (c ≡ Err e))) }
{
    match a {
        Err(e) => Err(e),
        Ok(a) => match b {
            Err(e) => Err(e),
            Ok(b) => match c {
                Err(e) => Err(e),
                Ok(c) => Ok((a, b, c)),
            },
        },
    }
}
