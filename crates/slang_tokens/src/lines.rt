ghost use Rattle.std.specs.Prelude.{◌≡◌, ◌++◌, ◌∷◌, [], OnOk};
ghost use Rattle.slang_tokens.specs.Tok.{tok, toks};
ghost use Rattle.slang_tokens.specs.Newlines as rule;
ghost use Rattle.slang_tokens.specs.Lines as spec;
ghost use Rattle.slang_tokens.specs.Front.{front};

use crate::kinds::{closes, heads_test, is_line_end, opens};
use crate::lexeme::Lexeme;
use slang_lexer::TokenKind;
use slang_tree::Place;
use std::alloc::{AllocError, Global};

/// The inside of an open bracket.
#[derive(Clone, Copy, Debug, PartialEq, Eq)]
pub enum Level {
    /// Of `[` or `(`.
    Grouped,
    /// Of the `(` of a test.
    Test,
    /// Of `{`.
    Block,
}

/// What the tokens so far say of the next newline.
#[derive(Drop)]
pub struct Front {
    /// The levels that are open, the innermost last.
    pub levels: Vec<Level>,
    /// The kind of the last token, that of the end before the first.
    pub last: TokenKind,
    /// The last token is the `datatype` of `@datatype`.
    pub annotated: bool,
    /// The last token is the `)` of a test.
    pub tested: bool,
    /// A newline that stands if the next token takes it.
    pub waiting: Option<Place>,
}

/// What such a bracket opens behind such a token.
fn opened(kind: TokenKind, last: TokenKind) -> Level
    ensures { result ≡ rule.opened kind last }
{
    if kind == TokenKind::LeftBrace {
        Level::Block
    } else if kind == TokenKind::LeftParen && heads_test(last) {
        Level::Test
    } else {
        Level::Grouped
    }
}

fn is_grouped(level: Option<Level>) -> bool
    ensures { result ≡ rule.is_grouped level }
{
    match level {
        Some(Level::Grouped) | Some(Level::Test) => true,
        Some(Level::Block) | None => false,
    }
}

fn is_test(level: Option<Level>) -> bool
    ensures { result ≡ rule.is_test level }
{
    match level {
        Some(Level::Test) => true,
        Some(Level::Grouped) | Some(Level::Block) | None => false,
    }
}

/// Whether the token is the `datatype` of `@datatype`.
fn ends_annotation(last: TokenKind, token: Lexeme<'_>) -> bool
    ensures { result ≡ rule.ends_annotation_with last (tok token.entry) }
{
    token.kind == TokenKind::Name && token.text == "datatype" && last == TokenKind::At
}

/// Whether such a token takes a newline before it.
fn takes_newline(kind: TokenKind, tested: bool) -> bool
    ensures { result ≡ rule.takes_newline kind tested }
{
    kind.begins_statement() && !(kind == TokenKind::LeftBrace && tested)
}

impl Front {
    pub fn beginning(alloc: Global) -> Front
        ensures { front result ≡ spec.beginning }
    {
        Front {
            levels: Vec::new(alloc),
            last: TokenKind::End,
            annotated: false,
            tested: false,
            waiting: None,
        }
    }

    /// Takes the next token, and adds those that stand from it on up to the next one.
    pub fn take<'a>(
        &mut self,
        tokens: &mut Vec<Lexeme<'a>>,
        token: Lexeme<'a>,
    ) -> Result<(), AllocError>
        ensures stand { OnOk result (toks tokens.new.items ≡ toks tokens.old.items ++ spec.standing_with (front self.old) (tok token.entry)) }
        ensures after { OnOk result (front self.new ≡ spec.after (front self.old) (tok token.entry)) }
    {
        if is_line_end(token.kind) {
            self.note(token);
            return Ok(());
        }
        if takes_newline(token.kind, self.tested) {
            self.end_line(tokens)?;
        }
        tokens.push(token)?;
        self.pass(token)
    }

    /// Adds the newline that waits.
    pub fn end_line<'a>(&self, tokens: &mut Vec<Lexeme<'a>>) -> Result<(), AllocError>
        ensures { OnOk result (toks tokens.new.items ≡ toks tokens.old.items ++ spec.newline (front self.now)) }
    {
        if let Some(place) = self.waiting {
            tokens.push(Lexeme {
                kind: TokenKind::Newline,
                text: "",
                place,
            })?;
        }
        Ok(())
    }

    fn innermost(&self) -> Option<Level>
        ensures { result ≡ rule.innermost self.now.levels.items }
    {
        self.levels.last().copied()
    }

    fn note(&mut self, token: Lexeme<'_>)
        ensures { front self.new ≡ spec.noted (front self.old) (tok token.entry) }
    {
        let able = self.last.ends_statement() && !self.annotated;
        if able && !is_grouped(self.innermost()) {
            let place = if token.kind == TokenKind::Semicolon {
                token.place
            } else {
                self.waiting.unwrap_or(token.place)
            };
            self.waiting = Some(place);
        }
    }

    fn pass(&mut self, token: Lexeme<'_>) -> Result<(), AllocError>
        ensures { OnOk result (front self.new ≡ spec.passed (front self.old) (tok token.entry)) }
    {
        let annotated = ends_annotation(self.last, token);
        let tested = token.kind == TokenKind::RightParen && is_test(self.innermost());
        if opens(token.kind) {
            self.levels.push(opened(token.kind, self.last))?;
        } else if closes(token.kind) {
            self.levels.pop();
        }
        self.last = token.kind;
        self.annotated = annotated;
        self.tested = tested;
        self.waiting = None;
        Ok(())
    }
}
