//! Blanks and comments, which may stand before a token.

ghost use Rattle.std.specs.Prelude.{◌≡◌, ◌+◌, ◌<◌, ◌≤◌, length, IfOk, IfErr, IsTrue, MatchOption};
ghost use Rattle.std.specs.Str.{IsCharBoundary};
ghost use Rattle.slang_lexer.specs.Comment.{is_blank, has_pair, opens_line, opens_block, IsLineComment, IsBlockComment, IsOpenComment, Reaches};
ghost use Rattle.slang_lexer.specs.Next.{IsLexFault, IsFaultPlace};

use crate::token::{BAD_CHARACTER, LexFault};

/// Whether the byte is a space, a tab or a carriage return.
fn is_blank(byte: u8) -> bool
    ensures { result ≡ is_blank byte }
{
    byte == b' ' || byte == b'\t' || byte == b'\r'
}

/// Whether these two bytes stand at `at`.
fn has_pair(bytes: &[u8], at: usize, first: u8, second: u8) -> bool
    requires first_is_some { 0 < first }
    requires second_is_some { 0 < second }
    ensures { result ≡ has_pair bytes.now at first second }
{
    bytes.get(at) == Some(&first) && bytes.get(at + 1) == Some(&second)
}

/// Where the line comment that begins at `at` ends.
fn line_end(bytes: &[u8], at: usize) -> usize
    requires { IsTrue (opens_line bytes.now at) }
    ensures { IsLineComment bytes.now at result }
{
    let mut end = at + 2;
    while end < bytes.len() && bytes[end] != b'\n' {
        end += 1;
    }
    end
}

/// Where the block comment that begins at `at` closes, if it does.
fn block_close(bytes: &[u8], at: usize) -> Option<usize>
    requires { IsTrue (opens_block bytes.now at) }
    ensures { MatchOption result (IsOpenComment bytes.now at) (IsBlockComment bytes.now at) }
{
    for close in at + 2..bytes.len() {
        if has_pair(bytes, close, b'*', b'/') {
            return Some(close);
        }
    }
    None
}

/// The first place from `at` on where neither a blank nor a comment stands, or the comment there that never ends.
pub fn past_blanks(text: &str, at: usize) -> Result<usize, LexFault>
    requires { IsCharBoundary text.now at }
    ensures reached { IfOk result (Reaches text.now at) }
    ensures place { IfOk result (λ next. (at ≤ next) × IsCharBoundary text.now next) }
    ensures fault { IfErr result (IsLexFault text.now at) }
    ensures fault_place { IfErr result (IsFaultPlace text.now at) }
{
    let bytes = text.as_bytes();
    let mut next = at;
    loop {
        if next < bytes.len() && is_blank(bytes[next]) {
            next += 1;
        } else if has_pair(bytes, next, b'/', b'/') {
            next = line_end(bytes, next);
        } else if has_pair(bytes, next, b'/', b'*') {
            match block_close(bytes, next) {
                Some(close) => next = close + 2,
                None => {
                    return Err(LexFault {
                        code: BAD_CHARACTER,
                        at: next,
                    });
                }
            }
        } else {
            return Ok(next);
        }
    }
}
