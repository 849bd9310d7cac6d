ghost use Rattle.std.specs.Prelude.{◌≡◌, ℕ, List, [], map, Some, IfOk, IfErr, IsErrAnd, MatchResult};
ghost use Rattle.std.specs.Str.{IsUtf8};
ghost use Rattle.slang_tree.specs.declared.place.Fault.{Fault as TheFault};
ghost use Rattle.slang_tree.specs.DeclTree.{DeclTree, decl_tree, file_tree};
ghost use Rattle.slang_tokens.specs.Tok.{toks};
ghost use Rattle.slang_tokens.specs.Tokens.{AreTokens};
ghost use Rattle.slang_tokens.specs.Places.{place_behind};
ghost use Rattle.slang_grammar.specs.Texts.{Reads};
ghost use Rattle.slang_grammar.specs.Faults.{HasFault};
ghost use Rattle.slang_machine.specs.States.{top};
ghost use Rattle.token_cursor.specs.Outcome.{outcome, read};
ghost use Rattle.first_faults.specs.Stops.{stop};
ghost use Rattle.text_parser.specs.Ends.{IfFault, IsFaultOf, IsEnd};

use crate::places::place_behind;
use fault_codes::{bad_fault, first_fault};
use file_parser::all_declarations;
use slang_tokens::{Tokens, TokensEnd, read_tokens};
use slang_tree::{Decl, Fault, File};
use sqlite_items::Items;
use std::alloc::{AllocError, Global};
use thiserror::Error;
use token_cursor::{Cursor, Stop};

/// Why bytes are not read as a text.
#[derive(Clone, Copy, Debug, PartialEq, Eq, Error)]
pub enum ParseEnd {
    /// They are no text, and this is their first fault.
    #[error("line {}, column {}: fault {}", .0.place.line, .0.place.col, .0.code)]
    Fault(Fault),
    #[error("out of memory")]
    NoMemory,
}

impl From<AllocError> for ParseEnd {
    ghost use Rattle.text_parser.specs.declared.text.ParseEnd.TheVariants.{NoMemory};

    ghost from_gives = { λ _ end. end ≡ NoMemory };

    fn from(_error: AllocError) -> ParseEnd {
        ParseEnd::NoMemory
    }
}

/// The code of bytes that are not UTF-8.
const NOT_UTF8: u8 = 1;

/// The fault of bytes of which these are the longest front that is UTF-8.
fn not_utf8(front: &[u8]) -> ParseEnd
    ensures { IfFault result (λ fault. fault ≡ record { code = 1; place = place_behind front.now }) }
{
    match place_behind(front) {
        Ok(place) => ParseEnd::Fault(Fault {
            code: NOT_UTF8,
            place,
        }),
        Err(_) => ParseEnd::NoMemory,
    }
}

/// The declarations of the tokens of a text, which may end before the text does.
fn declarations(alloc: Global, tokens: &Tokens<'_>) -> Result<Items<Decl>, ParseEnd>
    ensures read { IfOk result (λ items. outcome (top []) (toks tokens.now.list.items) ≡ read (map decl_tree items)) }
    ensures fault { IfErr result (λ end. IfFault end (IsFaultOf (toks tokens.now.list.items) tokens.now.end)) }
{
    let mut cursor = Cursor::new(&tokens.list);
    match all_declarations(alloc, &mut cursor) {
        Ok(items) => Ok(items),
        Err(Stop::Refused(due)) => Err(ParseEnd::Fault(first_fault(
            &tokens.list,
            tokens.end,
            cursor.rest(),
            due,
        ))),
        Err(Stop::NoMemory) => Err(ParseEnd::NoMemory),
    }
}

/// The tree of these declarations, where the tokens go up to the end of the text.
fn ended(items: Items<Decl>, tokens: &Tokens<'_>) -> Result<File, ParseEnd>
    requires { outcome (top []) (toks tokens.now.list.items) ≡ read (map decl_tree items) }
    ensures read { IfOk result (λ file. (file_tree file ≡ map decl_tree items) × IsEnd tokens.now.end) }
    ensures fault { IfErr result (λ end. IfFault end (IsFaultOf (toks tokens.now.list.items) tokens.now.end)) }
{
    match tokens.end {
        TokensEnd::End(_) => Ok(File { items }),
        TokensEnd::Fault(bad) => Err(ParseEnd::Fault(bad_fault(&tokens.list, bad))),
    }
}

/// The tree of a text in UTF-8.
fn read_text(alloc: Global, text: &str) -> Result<File, ParseEnd>
    ensures read { IfOk result (λ file. Reads text.now (file_tree file)) }
    ensures fault { IfErr result (λ end. IfFault end (HasFault text.now)) }
{
    let tokens = read_tokens(alloc, text)?;
    let items = declarations(alloc, &tokens)?;
    ended(items, &tokens)
}

/// The tree of a text, or its first fault.
fn found(alloc: Global, bytes: &[u8]) -> Result<File, ParseEnd>
    ensures read { IfOk result (λ file. Reads bytes.now (file_tree file)) }
    ensures fault { IfErr result (λ end. IfFault end (HasFault bytes.now)) }
{
    match std::str::from_utf8(bytes) {
        Ok(text) => read_text(alloc, text),
        Err(error) => Err(not_utf8(&bytes[..error.valid_up_to()])),
    }
}

/// The tree of a text, or its first fault.
///
/// A line or a column past the greatest number is want of memory.
pub fn parse(alloc: Global, bytes: &[u8]) -> Result<File, ParseEnd>
    ensures read { IfOk result (λ file. Reads bytes.now (file_tree file)) }
    ensures only { (trees : List DeclTree) → Reads bytes.now trees → MatchResult result (λ file. file_tree file ≡ trees) (λ end. end ≡ ParseEnd.NoMemory) }
    ensures fault { IfErr result (λ end. IfFault end (HasFault bytes.now)) }
    ensures only_fault { (fault : TheFault) → HasFault bytes.now fault → IsErrAnd result (λ end. IfFault end (λ told. told ≡ fault)) }
{
    found(alloc, bytes)
}
