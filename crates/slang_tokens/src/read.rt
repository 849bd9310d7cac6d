ghost use Rattle.std.specs.Prelude.{◌≡◌, ℕ, List, IfOk};
ghost use Rattle.slang_tokens.specs.Tok.{Tok, tok, toks};
ghost use Rattle.slang_tokens.specs.Tokens.{AreStanding, AreTokens, token_of};

use crate::lexeme::Lexeme;
use crate::lines::Front;
use crate::places::moved;
use crate::weight::light_len;
use slang_lexer::{TokenKind, next_token};
use slang_tree::{Fault, Place};
use std::alloc::{AllocError, Global};

/// The tokens of a text, up to the first that no text holds.
#[derive(Drop)]
pub struct Tokens<'a> {
    pub list: Vec<Lexeme<'a>>,
    pub end: TokensEnd,
}

/// Where the tokens of a text end.
#[derive(Clone, Copy, Debug, PartialEq, Eq)]
pub enum TokensEnd {
    /// At the end of the text, which is here.
    End(Place),
    /// At a character that begins no token, a comment that never ends, a number of more than 127 bits, or a token that
    /// nests too deep.
    Fault(Fault),
}

/// How deep a text may nest.
const WEIGHT_LIMIT: u32 = 200;

/// The code of a token that nests too deep.
pub const NESTS_TOO_DEEP: u8 = 5;

/// The tokens of a text.
pub fn read_tokens<'a>(alloc: Global, text: &'a str) -> Result<Tokens<'a>, AllocError>
    ensures found { IfOk result (λ tokens. AreTokens text.now (toks tokens.list.items) tokens.end) }
    ensures only { (all : List Tok) (end : TokensEnd) → AreTokens text.now all end → IfOk result (λ tokens. (toks tokens.list.items ≡ all) × (tokens.end ≡ end)) }
{
    let mut tokens = standing(alloc, text)?;
    let len = light_len(alloc, WEIGHT_LIMIT, &tokens.list)?;
    if let Some(heavy) = tokens.list.get(len) {
        tokens.end = TokensEnd::Fault(Fault {
            code: NESTS_TOO_DEEP,
            place: heavy.place,
        });
        tokens.list.truncate(len);
    }
    Ok(tokens)
}

/// The tokens of a text, however deep they nest.
fn standing<'a>(alloc: Global, text: &'a str) -> Result<Tokens<'a>, AllocError>
    ensures found { IfOk result (λ tokens. AreStanding text.now (toks tokens.list.items) tokens.end) }
{
    let mut list = Vec::new(alloc);
    let mut front = Front::beginning(alloc);
    let mut place = Place { line: 1, col: 1 };
    let mut at = 0;
    let end = loop {
        let token = match next_token(text, at) {
            Ok(token) => token,
            Err(fault) => {
                let place = moved(place, &text.as_bytes()[at..fault.at])?;
                break TokensEnd::Fault(Fault {
                    code: fault.code,
                    place,
                });
            }
        };
        let begins = moved(place, &text.as_bytes()[at..token.start])?;
        if token.kind == TokenKind::End {
            break TokensEnd::End(begins);
        }
        let piece = &text[token.start..token.end];
        front.take(&mut list, placed(token.kind, piece, begins))?;
        place = moved(begins, piece.as_bytes())?;
        at = token.end;
    };
    front.end_line(&mut list)?;
    Ok(Tokens { list, end })
}

/// A token with its place, and with its text where it is a name or a number.
fn placed(kind: TokenKind, piece: &str, place: Place) -> Lexeme<'_>
    ensures { tok result ≡ token_of kind piece.now place }
{
    let text = if kind == TokenKind::Name || kind == TokenKind::Number {
        piece
    } else {
        ""
    };
    Lexeme { kind, text, place }
}
