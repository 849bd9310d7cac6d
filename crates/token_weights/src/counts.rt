ghost use Rattle.std.specs.Prelude.{◌↔◌, [], IfOk, IsTrue};
ghost use Rattle.slang_tokens.specs.Tok.{toks};
ghost use Rattle.slang_tokens.specs.Tokens.{weight_limit};
ghost use Rattle.slang_tokens.specs.Weights.{AreLight};

use crate::NoMemory;
use slang_tokens::{Lexeme, light_len};
use std::alloc::Global;

/// What no token of a text may weigh more than.
const WEIGHT_LIMIT: u32 = 200;

/// Whether none of the tokens weighs more than the limit.
pub fn is_light(alloc: Global, tokens: &[Lexeme<'_>]) -> Result<bool, NoMemory>
    ensures { IfOk result (λ light. IsTrue light ↔ AreLight weight_limit [] (toks tokens.now)) }
{
    let len = light_len(alloc, WEIGHT_LIMIT, tokens)?;
    Ok(len == tokens.len())
}
