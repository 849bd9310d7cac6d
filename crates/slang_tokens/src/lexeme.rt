use slang_lexer::TokenKind;
use slang_tree::Place;

/// A token and the place that it begins at. The text is that of a name or a number, and empty for any other token.
#[derive(Clone, Copy, Debug)]
pub struct Lexeme<'a> {
    pub kind: TokenKind,
    pub text: &'a str,
    pub place: Place,
}
