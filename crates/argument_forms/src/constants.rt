ghost use Rattle.std.specs.Prelude.{◌≡◌, ◌↔◌, Some, Option, IsTrue};
ghost use Rattle.slang_tokens.specs.Tok.{toks};
ghost use Rattle.argument_forms.specs.Constants.{AreConstant};
ghost use Rattle.argument_forms.specs.Machine as machine;

use crate::states::{Due, State};
use crate::steps::step;
use slang_tokens::Lexeme;

/// Whether the tokens are a constant, where the least number of 128 bits may stand in it.
pub fn is_constant(tokens: &[Lexeme<'_>]) -> bool
    ensures { IsTrue result ↔ AreConstant (toks tokens.now) }
{
    is_whole(walk(tokens))
}

fn is_whole(state: Option<State>) -> bool
    ensures { result ≡ machine.is_whole state }
{
    match state {
        None => false,
        Some(state) => is_behind(state.due) && state.lists == 0,
    }
}

fn is_behind(due: Due) -> bool
    ensures { result ≡ machine.is_behind due }
{
    match due {
        Due::Behind => true,
        _ => false,
    }
}

/// What may stand behind the tokens, where a constant is due in front of them.
fn walk(tokens: &[Lexeme<'_>]) -> Option<State>
    ensures { result ≡ machine.walk machine.begins (toks tokens.now) }
{
    let mut state = State {
        due: Due::Constant,
        lists: 0,
        squares: 0,
    };
    for token in tokens {
        match step(state, token) {
            None => return None,
            Some(next) => state = next,
        }
    }
    Some(state)
}
