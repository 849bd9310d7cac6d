ghost use Rattle.std.specs.Prelude.{◌≡◌, ◌≢◌, ◌<◌, false, length, slice_index, IfOk, MatchOption};
ghost use Rattle.std.specs.List.{prefix_len};
ghost use Rattle.std.specs.Char.{is_ascii_digit};
ghost use Rattle.slang_lexer.specs.Scan.{NoLongerFront, IsLongestFront};
ghost use Rattle.slang_tokens.specs.Tok.{tok};
ghost use Rattle.slang_tokens.specs.Tokens.{token_of};
ghost use Rattle.argument_rules.specs.Words.{is_blank, nowhere};
ghost use Rattle.argument_fronts.specs.Only.{IsOnly};
ghost use Rattle.argument_words.specs.Words.{tokens_in, AreTokensOf, IsBehindBlanks, IsFound, IsShorter};

use crate::NoMemory;
use slang_lexer::{NUMBER_TOO_LARGE, TokenKind, next_token};
use slang_tokens::Lexeme;
use slang_tree::Place;
use std::alloc::Global;

/// The tokens of an argument: the longest ones from its front on, with blanks between them and around. None where it has a newline, a `/` as a
/// token, or a front that is no token. All tokens stand at one place.
pub fn word_tokens<'a>(alloc: Global, text: &'a str) -> Result<Option<Vec<Lexeme<'a>>>, NoMemory>
    ensures { IfOk result (IsOnly tokens_in (AreTokensOf text.now)) }
{
    let mut tokens = Vec::new(alloc);
    let mut left = text;
    'words: loop {
        match word_at(left) {
            Found::Nothing => return Ok(None),
            Found::Over => return Ok(Some(tokens)),
            Found::Word(token, rest) => {
                tokens.push(token)?;
                left = rest;
            }
        }
    }
}

/// What stands in front of what is left of an argument: nothing that it may hold, its end, or a word and what stands behind it.
#[derive(Clone, Copy)]
pub enum Found<'a> {
    Nothing,
    Over,
    Word(Lexeme<'a>, &'a str),
}

fn word_at<'a>(left: &'a str) -> Found<'a>
    ensures found { IsFound left.now result }
    ensures shorter { IsShorter left.now result }
{
    let text = behind_blanks(left);
    if text.is_empty() {
        return Found::Over;
    }
    if text.as_bytes()[0] == b'/' {
        return Found::Nothing;
    }
    match token_front(text) {
        None => Found::Nothing,
        Some((kind, len)) => {
            if kind == TokenKind::Newline {
                Found::Nothing
            } else {
                Found::Word(word_token(kind, &text[..len]), &text[len..])
            }
        }
    }
}

/// The text behind the blanks in front.
fn behind_blanks(text: &str) -> &str
    ensures { IsBehindBlanks text.now result.now }
{
    &text[blanks_len(text.as_bytes())..]
}

/// How many blanks stand in front.
fn blanks_len(bytes: &[u8]) -> usize
    ensures { result ≡ prefix_len is_blank bytes.now }
{
    bytes
        .iter()
        .take_while(|b| **b == 32 || (**b == 9 || **b == 13))
        .count()
}

/// The longest token in front, where neither a blank nor a `/` stands there: its kind, and its length.
fn token_front(text: &str) -> Option<(TokenKind, usize)>
    requires some { 0 < length text.now }
    requires no_blank { is_blank (slice_index text.now 0) ≡ false }
    requires no_slash { slice_index text.now 0 ≢ 47 }
    ensures { MatchOption result (NoLongerFront text.now 0) (λ token. IsLongestFront text.now token.0 token.1) }
{
    match next_token(text, 0) {
        Ok(token) => Some((token.kind, token.end)),
        Err(fault) => {
            if fault.code == NUMBER_TOO_LARGE {
                Some((TokenKind::Number, digits_len(text.as_bytes())))
            } else {
                None
            }
        }
    }
}

/// How many digits stand in front.
fn digits_len(bytes: &[u8]) -> usize
    ensures { result ≡ prefix_len is_ascii_digit bytes.now }
{
    bytes.iter().take_while(|b| b.is_ascii_digit()).count()
}

/// A token of this kind and these characters, which it keeps where it is a name or a number.
fn word_token<'a>(kind: TokenKind, text: &'a str) -> Lexeme<'a>
    ensures { tok result ≡ token_of kind text.now nowhere }
{
    let kept = kind == TokenKind::Name || kind == TokenKind::Number;
    Lexeme {
        kind,
        text: if kept { text } else { "" },
        place: Place { line: 1, col: 1 },
    }
}
