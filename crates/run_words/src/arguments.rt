ghost use Rattle.std.specs.Prelude.{◌↔◌, IfOk, IsTrue, map};
ghost use Rattle.std.specs.List.{AllByRecursion};
ghost use Rattle.std.specs.String.{string_bytes};
ghost use Rattle.slang_tokens.specs.Tok.{toks};
ghost use Rattle.run_words.specs.Arguments.{IsArgumentWord, AreArgumentTokens};

use crate::NoMemory;
use argument_forms::is_constant;
use argument_words::word_tokens;
use slang_tokens::Lexeme;
use std::alloc::Global;
use token_weights::is_light;

/// Whether the word is an argument of some type: a constant with blanks between its tokens, without newlines and comments, that does not nest
/// too deep and whose numbers have 128 bits.
pub fn is_argument(alloc: Global, word: &str) -> Result<bool, NoMemory>
    ensures { IfOk result (λ is. IsTrue is ↔ IsArgumentWord word.now) }
{
    match word_tokens(alloc, word) {
        Err(end) => Err(end),
        Ok(None) => Ok(false),
        Ok(Some(tokens)) => are_argument(alloc, tokens.as_slice()),
    }
}

/// Whether the tokens are a constant that does not nest too deep.
fn are_argument(alloc: Global, tokens: &[Lexeme<'_>]) -> Result<bool, NoMemory>
    ensures { IfOk result (λ are. IsTrue are ↔ AreArgumentTokens (toks tokens.now)) }
{
    match is_light(alloc, tokens) {
        Err(end) => Err(end),
        Ok(false) => Ok(false),
        Ok(true) => Ok(is_constant(tokens)),
    }
}

/// Whether all words are arguments of some type.
pub(crate) fn are_arguments(alloc: Global, words: &[String]) -> Result<bool, NoMemory>
    ensures { IfOk result (λ are. IsTrue are ↔ AllByRecursion IsArgumentWord (map string_bytes words.now)) }
{
    let mut left = words;
    'words: while let Some((word, rest)) = left.split_first() {
        match is_argument(alloc, word.as_str()) {
            Err(end) => return Err(end),
            Ok(false) => return Ok(false),
            Ok(true) => left = rest,
        }
    }
    Ok(true)
}
