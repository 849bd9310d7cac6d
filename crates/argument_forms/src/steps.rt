ghost use Rattle.std.specs.Prelude.{◌≡◌, ◌<◌, ◌-◌, ◌^◌, suc, Some, IfSome};
ghost use Rattle.slang_tokens.specs.Tok.{tok};
ghost use Rattle.argument_forms.specs.Machine as machine;
ghost use Rattle.argument_forms.specs.Machine.{IsNear};

use crate::states::{Due, State};
use crate::tokens::{is_digits, is_digits_below_zero, is_name, is_sign};
use slang_lexer::TokenKind;
use slang_tokens::Lexeme;

/// What may stand next, within so many lists.
fn at(due: Due, lists: u64) -> State
    ensures { result ≡ machine.at due lists }
{
    State {
        due,
        lists,
        squares: 0,
    }
}

fn in_type(due: Due, lists: u64, squares: u64) -> State
    ensures { result ≡ machine.in_type due lists squares }
{
    State {
        due,
        lists,
        squares,
    }
}

fn on(test: bool, state: State) -> Option<State>
    ensures { result ≡ machine.on test state }
{
    if test { Some(state) } else { None }
}

fn above(number: u64) -> u64
    requires { number < 2 ^ 64 - 1 }
    ensures { result ≡ suc number }
{
    number + 1
}

/// One less, where there is one.
fn below(number: u64) -> Option<u64>
    ensures { result ≡ machine.below number }
{
    if number == 0 { None } else { Some(number - 1) }
}

fn close(left: Option<u64>) -> Option<State>
    ensures { result ≡ machine.close left }
{
    match left {
        None => None,
        Some(lists) => Some(at(Due::Behind, lists)),
    }
}

fn next_member(left: Option<u64>, lists: u64) -> Option<State>
    ensures { result ≡ machine.next_member left lists }
{
    match left {
        None => None,
        Some(_) => Some(at(Due::Member, lists)),
    }
}

fn close_type(left: Option<u64>, lists: u64) -> State
    ensures { result ≡ machine.close_type left lists }
{
    match left {
        None => at(Due::Listed, lists),
        Some(squares) => in_type(Due::BehindType, lists, squares),
    }
}

/// Behind the first token of a constant.
fn begin(lists: u64, token: &Lexeme<'_>) -> Option<State>
    ensures { result ≡ machine.begin lists (tok token.now) }
{
    if is_digits(token) {
        Some(at(Due::Behind, lists))
    } else if is_sign(TokenKind::Minus, token) {
        Some(at(Due::Digits, lists))
    } else if is_sign(TokenKind::True, token) {
        Some(at(Due::Behind, lists))
    } else if is_sign(TokenKind::False, token) {
        Some(at(Due::Behind, lists))
    } else if is_sign(TokenKind::TypeIsz, token) {
        Some(at(Due::Elements, lists))
    } else {
        on(is_name(token), at(Due::Fields, lists))
    }
}

/// Behind the first token of a type.
fn begin_type(lists: u64, squares: u64, token: &Lexeme<'_>) -> Option<State>
    ensures { result ≡ machine.begin_type lists squares (tok token.now) }
{
    if is_sign(TokenKind::TypeZ, token) {
        Some(in_type(Due::BehindType, lists, squares))
    } else if is_sign(TokenKind::TypeB, token) {
        Some(in_type(Due::BehindType, lists, squares))
    } else if is_sign(TokenKind::TypeUnit, token) {
        Some(in_type(Due::BehindType, lists, squares))
    } else if is_sign(TokenKind::TypeIsz, token) {
        Some(in_type(Due::Square, lists, squares))
    } else {
        on(is_name(token), in_type(Due::BehindType, lists, squares))
    }
}

fn member(lists: u64, token: &Lexeme<'_>) -> Option<State>
    ensures { result ≡ machine.member lists (tok token.now) }
{
    if is_sign(TokenKind::RightParen, token) {
        close(below(lists))
    } else {
        begin(lists, token)
    }
}

fn elements(lists: u64, token: &Lexeme<'_>) -> Option<State>
    requires { lists < 2 ^ 64 - 1 }
    ensures { result ≡ machine.elements lists (tok token.now) }
{
    if is_sign(TokenKind::LeftParen, token) {
        Some(at(Due::Constant, above(lists)))
    } else {
        on(
            is_sign(TokenKind::LeftBracket, token),
            at(Due::Written, lists),
        )
    }
}

fn behind(lists: u64, token: &Lexeme<'_>) -> Option<State>
    ensures { result ≡ machine.behind lists (tok token.now) }
{
    if is_sign(TokenKind::Comma, token) {
        next_member(below(lists), lists)
    } else if is_sign(TokenKind::RightParen, token) {
        close(below(lists))
    } else {
        None
    }
}

/// What may stand behind a token.
fn next(due: Due, lists: u64, squares: u64, token: &Lexeme<'_>) -> Option<State>
    requires in_lists { lists < 2 ^ 64 - 1 }
    requires in_squares { squares < 2 ^ 64 - 1 }
    ensures { result ≡ machine.next due lists squares (tok token.now) }
{
    match due {
        Due::Constant => begin(lists, token),
        Due::Member => member(lists, token),
        Due::Digits => on(is_digits_below_zero(token), at(Due::Behind, lists)),
        Due::Fields => on(
            is_sign(TokenKind::LeftParen, token),
            at(Due::Constant, above(lists)),
        ),
        Due::Elements => elements(lists, token),
        Due::Written => begin_type(lists, squares, token),
        Due::Square => on(
            is_sign(TokenKind::LeftBracket, token),
            in_type(Due::Written, lists, above(squares)),
        ),
        Due::BehindType => on(
            is_sign(TokenKind::RightBracket, token),
            close_type(below(squares), lists),
        ),
        Due::Listed => on(
            is_sign(TokenKind::LeftParen, token),
            at(Due::Member, above(lists)),
        ),
        Due::Behind => behind(lists, token),
    }
}

/// The state behind a token. Its lists and brackets are at most one more.
pub(crate) fn step(state: State, token: &Lexeme<'_>) -> Option<State>
    requires in_lists { state.lists < 2 ^ 64 - 1 }
    requires in_squares { state.squares < 2 ^ 64 - 1 }
    ensures next { result ≡ machine.step (Some state) (tok token.now) }
    ensures near { IfSome result (IsNear state) }
{
    next(state.due, state.lists, state.squares, token)
}
