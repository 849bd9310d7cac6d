//! The longest token at the front of a text.

ghost use Rattle.std.specs.Prelude.{◌≡◌, MatchOption, unwrap_or};
ghost use Rattle.std.specs.List.{prefix_len};
ghost use Rattle.std.specs.Char.{is_ascii_digit};
ghost use Rattle.slang_lexer.specs.Scan.{table_of, first_at, NoLongerFront, IsLongestFront, IsLongestName};
ghost use Rattle.slang_lexer.specs.Spelling.{signs, words, begins_name, continues_name, kind_in};

use crate::tables::{signs_from, words_of};
use crate::token::TokenKind;

/// The first sign of the table that the bytes begin with: its kind, and its length.
fn first_sign(signs: &[(&str, TokenKind)], bytes: &[u8]) -> Option<(TokenKind, usize)>
    ensures { result ≡ first_at (table_of signs.now) bytes.now }
{
    for (spelling, kind) in signs {
        if bytes.starts_with(spelling.as_bytes()) {
            return Some((*kind, spelling.len()));
        }
    }
    None
}

/// The kind that a table of words gives to a name.
fn word_kind(words: &[(&str, TokenKind)], name: &[u8]) -> Option<TokenKind>
    ensures { result ≡ kind_in (table_of words.now) name.now }
{
    for (spelling, kind) in words {
        if spelling.as_bytes() == name {
            return Some(*kind);
        }
    }
    None
}

/// The longest sign that the bytes begin with: its kind, and its length.
fn sign_at(bytes: &[u8]) -> Option<(TokenKind, usize)>
    ensures { result ≡ first_at signs bytes.now }
{
    match bytes.first() {
        Some(first) => first_sign(signs_from(*first), bytes),
        None => None,
    }
}

/// The kind of a name, which may be a word.
fn name_kind(name: &[u8]) -> TokenKind
    ensures { result ≡ unwrap_or (kind_in words name.now) TokenKind.Name }
{
    word_kind(words_of(name.len()), name).unwrap_or(TokenKind::Name)
}

/// How many digits the bytes begin with.
pub fn digits_len(bytes: &[u8]) -> usize
    ensures { result ≡ prefix_len is_ascii_digit bytes.now }
{
    bytes.iter().take_while(|b| b.is_ascii_digit()).count()
}

/// Whether a name may begin with the character.
fn begins_name(c: char) -> bool
    ensures { result ≡ begins_name c }
{
    if c.is_ascii() {
        c.is_ascii_alphabetic() || c == '_'
    } else {
        unicode_ident::is_xid_start(c)
    }
}

/// Whether a name may go on with the character.
fn continues_name(c: char) -> bool
    ensures { result ≡ continues_name c }
{
    if c.is_ascii() {
        c.is_ascii_alphanumeric() || c == '_'
    } else {
        unicode_ident::is_xid_continue(c)
    }
}

/// The length of the longest name that the text begins with, 0 where there is none.
fn name_len(text: &str) -> usize
    ensures { IsLongestName text.now result }
{
    match text.chars().next() {
        Some(first) if begins_name(first) => match text.find(|c: char| !continues_name(c)) {
            Some(len) => len,
            None => text.len(),
        },
        _ => 0,
    }
}

/// The longest token that the text begins with: its kind, and its length.
pub fn longest(text: &str) -> Option<(TokenKind, usize)>
    ensures { MatchOption result (NoLongerFront text.now 0) (λ token. IsLongestFront text.now token.0 token.1) }
{
    let bytes = text.as_bytes();
    let digits = digits_len(bytes);
    if digits > 0 {
        return Some((TokenKind::Number, digits));
    }
    let name = name_len(text);
    match sign_at(bytes) {
        Some((kind, len)) if name <= len => Some((kind, len)),
        _ if name > 0 => Some((name_kind(&bytes[..name]), name)),
        _ => None,
    }
}
