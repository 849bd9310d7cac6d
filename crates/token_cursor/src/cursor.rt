ghost use Rattle.std.specs.Prelude.{◌≡◌, ◌<◌, ◌≤◌, if◌then◌else◌, length, IfOk, IfErr, IfSome, MatchOption, OnOk, IsTrue, false, [], ◌∷◌};
ghost use Rattle.std.specs.Option.{option_map};
ghost use Rattle.slang_tokens.specs.Tok.{tok, toks};
ghost use Rattle.slang_machine.specs.States.{State};
ghost use Rattle.slang_machine.specs.Expressions.{is as is_of};
ghost use Rattle.token_cursor.specs.Outcome.{outcome, stuck};
ghost use Rattle.token_cursor.specs.Gives.{ahead, IfRefused, Moves, Refuses, Expects};
ghost use Rattle.token_cursor.specs.Lists.{begins, behind, member_end};

use crate::stop::{Due, Stop};
use slang_lexer::TokenKind;
use slang_tokens::Lexeme;

/// The tokens of a text that are still to be read.
#[derive(Clone, Copy)]
pub struct Cursor<'t, 'a> {
    rest: &'t [Lexeme<'a>],
}

/// Whether the token is of this kind.
pub fn is(kind: TokenKind, token: &Lexeme<'_>) -> bool
    ensures { result ≡ is_of kind (tok token.now) }
{
    token.kind == kind
}

impl<'t, 'a> Cursor<'t, 'a> {
    /// At the first of these tokens.
    pub fn new(tokens: &'t [Lexeme<'a>]) -> Cursor<'t, 'a>
        ensures { ahead result ≡ toks tokens.now }
    {
        Cursor { rest: tokens }
    }

    /// The tokens that are still to be read.
    pub fn rest(&self) -> &'t [Lexeme<'a>]
        ensures { toks result.now ≡ ahead self.now }
    {
        self.rest
    }

    /// The next token.
    pub fn first(&self) -> Option<&'t Lexeme<'a>>
        ensures { MatchOption result (ahead self.now ≡ []) (λ token. ahead self.now ≡ tok token.now ∷ behind (ahead self.now)) }
    {
        match self.rest {
            [token, ..] => Some(token),
            [] => None,
        }
    }

    /// Goes behind the next token.
    pub fn advance(&mut self)
        ensures { ahead self.new ≡ behind (ahead self.old) }
    {
        if let [_, rest @ ..] = self.rest {
            self.rest = rest;
        }
    }

    /// Whether a token of this kind comes next.
    pub fn is_at(&self, kind: TokenKind) -> bool
        ensures { result ≡ begins kind (ahead self.now) }
    {
        match self.rest {
            [token, ..] => is(kind, token),
            [] => false,
        }
    }

    /// Goes behind the next token where it is of this kind, and tells whether it is.
    pub fn take(&mut self, kind: TokenKind) -> bool
        ensures found { result ≡ begins kind (ahead self.old) }
        ensures moved { ahead self.new ≡ (if result then behind (ahead self.old) else ahead self.old) }
        ensures shorter { IsTrue result → length (ahead self.new) < length (ahead self.old) }
        ensures no_longer { length (ahead self.new) ≤ length (ahead self.old) }
    {
        if self.is_at(kind) {
            self.advance();
            true
        } else {
            false
        }
    }

    /// Goes behind a token of this kind, which is due.
    pub fn expect(&mut self, kind: TokenKind) -> Result<(), Stop>
        ensures reads { OnOk result ((from to : State) → Expects kind (ahead self.old) from to → Moves self.old from self.new to) }
        ensures shorter { OnOk result (length (ahead self.new) < length (ahead self.old)) }
        ensures refused { IfErr result (λ stop. IfRefused stop (λ due. (from to : State) → Expects kind (ahead self.old) from to → Refuses self.old from self.new due)) }
    {
        if self.take(kind) {
            Ok(())
        } else {
            Err(Stop::Refused(Due::Other))
        }
    }

    /// Behind a member of a list: goes behind the separator, and behind the closing bracket where that comes, and tells
    /// whether another member comes.
    pub fn goes_on(&mut self, separator: TokenKind, closing: TokenKind) -> Result<bool, Stop>
        ensures reads { IfOk result (λ more. (member over : State) →
            member_end separator closing member over (ahead self.old) ≡ outcome (if more then member else over) (ahead self.new)) }
        ensures begins { IfOk result (λ more. IsTrue more → begins closing (ahead self.new) ≡ false) }
        ensures shorter { OnOk result (length (ahead self.new) < length (ahead self.old)) }
        ensures refused { IfErr result (λ stop. IfRefused stop (λ due. (member over : State) →
            member_end separator closing member over (ahead self.old) ≡ stuck (ahead self.new) due)) }
    {
        if self.take(separator) {
            return Ok(!self.take(closing));
        }
        if self.take(closing) {
            return Ok(false);
        }
        Err(Stop::Refused(Due::Other))
    }
}
