ghost use Rattle.std.specs.Prelude.{◌≡◌, MatchOption, true, false, count_by};
ghost use Rattle.slang_tree.specs.declared.place.Place.{Place as ThePlace};
ghost use Rattle.slang_tokens.specs.declared.lexeme.Lexeme.{Lexeme as TheLexeme};
ghost use Rattle.slang_tokens.specs.Tok.{same_kind, toks};
ghost use Rattle.slang_grammar.specs.Faults.{is_word, ends_with_at, last_place, open_braces};
ghost use Rattle.fault_codes.specs.Codes.{is_mark, is_operator};

use slang_lexer::TokenKind;
use slang_tokens::Lexeme;
use slang_tree::Place;

/// Whether such a token is a number, a newline, the end, or a sign that is no operator.
#[tactic(auto, unfolding(crate::specs::Codes::is_mark))]
fn is_mark(kind: TokenKind) -> bool
    ensures { result ≡ is_mark kind }
{
    matches!(
        kind,
        TokenKind::End
            | TokenKind::Number
            | TokenKind::Newline
            | TokenKind::LeftParen
            | TokenKind::RightParen
            | TokenKind::LeftBracket
            | TokenKind::RightBracket
            | TokenKind::LeftBrace
            | TokenKind::RightBrace
            | TokenKind::Comma
            | TokenKind::Semicolon
            | TokenKind::Colon
            | TokenKind::Dot
            | TokenKind::Equals
            | TokenKind::FatArrow
            | TokenKind::At
            | TokenKind::TildeArrow
            | TokenKind::Turnstile
            | TokenKind::ForAllSign
            | TokenKind::ExistsSign
            | TokenKind::SubstLess
            | TokenKind::SubstGreater
    )
}

/// Whether such a token is an operator.
#[tactic(auto, unfolding(crate::specs::Codes::is_operator))]
fn is_operator(kind: TokenKind) -> bool
    ensures { result ≡ is_operator kind }
{
    matches!(
        kind,
        TokenKind::DoubleEquals
            | TokenKind::NotEquals
            | TokenKind::Less
            | TokenKind::LessOrEqual
            | TokenKind::Greater
            | TokenKind::GreaterOrEqual
            | TokenKind::Plus
            | TokenKind::Minus
            | TokenKind::Star
            | TokenKind::Slash
            | TokenKind::Percent
            | TokenKind::Ampersand
            | TokenKind::DoubleAmpersand
            | TokenKind::Bar
            | TokenKind::DoubleBar
            | TokenKind::Bang
            | TokenKind::DashArrow
            | TokenKind::LongDashArrow
            | TokenKind::LowArrow
            | TokenKind::LongLowArrow
            | TokenKind::ColonPlus
    )
}

/// Whether such a token is a name or a word.
pub fn is_word(kind: TokenKind) -> bool
    ensures { result ≡ is_word kind }
{
    if is_mark(kind) {
        return false;
    }
    !is_operator(kind)
}

/// How many tokens of this kind there are.
fn count_of(kind: TokenKind, tokens: &[Lexeme<'_>]) -> usize
    ensures { result ≡ count_by (λ (token : TheLexeme). same_kind token.kind kind) tokens.now }
{
    tokens.iter().filter(|token| token.kind == kind).count()
}

/// How many braces are open behind these tokens.
pub fn open_braces(front: &[Lexeme<'_>]) -> usize
    ensures { result ≡ open_braces (toks front.now) }
{
    let opened = count_of(TokenKind::LeftBrace, front);
    opened.saturating_sub(count_of(TokenKind::RightBrace, front))
}

/// The place of the `@` with which these tokens end, if they do.
pub fn last_at(front: &[Lexeme<'_>]) -> Option<Place>
    ensures { MatchOption result (ends_with_at (toks front.now) ≡ false)
        (λ place. (ends_with_at (toks front.now) ≡ true) × ((otherwise : ThePlace) → last_place (toks front.now) otherwise ≡ place)) }
{
    let last = front.last()?;
    if last.kind == TokenKind::At {
        return Some(last.place);
    }
    None
}
