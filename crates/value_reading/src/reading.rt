ghost use Rattle.std.specs.Prelude.{IfOk};
ghost use Rattle.slang_tokens.specs.Tok.{toks};
ghost use Rattle.lk_claims.specs.Claim.{value_type};
ghost use Rattle.lk_programs.specs.Program.{record_types};
ghost use Rattle.run_values.specs.Value.{plain_value};
ghost use Rattle.argument_rules.specs.Arguments.{IsArgumentOf};
ghost use Rattle.argument_fronts.specs.Only.{IsOnly};
ghost use Rattle.argument_fronts.specs.Types.{names_of};
ghost use Rattle.argument_scalars.specs.Fronts.{value_front};
ghost use Rattle.value_reading.specs.Tokens.{IsConstOf, IsAllOf};

use crate::NoMemory;
use argument_values::{Read, const_at};
use argument_words::word_tokens;
use lk_claims::Ty;
use lk_programs::RecordTy;
use run_values::Value;
use slang_tokens::Lexeme;
use std::alloc::Global;
use token_weights::is_light;

/// The value of the argument, a constant of the type with blanks between its tokens. None where the text is no such constant: one that is of
/// another type, nests too deep, has a number outside 128 bits, a newline or a comment.
pub fn read_value(
    alloc: Global,
    records: &[RecordTy],
    ty: &Ty,
    text: &str,
) -> Result<Option<Value>, NoMemory>
    ensures { IfOk result (IsOnly plain_value (IsArgumentOf (names_of records.now) (record_types records.now) text.now (value_type ty.now))) }
{
    match word_tokens(alloc, text) {
        Err(end) => Err(end),
        Ok(None) => Ok(None),
        Ok(Some(tokens)) => value_of_tokens(alloc, records, ty, tokens.as_slice()),
    }
}

/// The value of the constant of the type that the tokens are.
fn value_of_tokens(
    alloc: Global,
    records: &[RecordTy],
    ty: &Ty,
    tokens: &[Lexeme<'_>],
) -> Result<Option<Value>, NoMemory>
    ensures { IfOk result (IsOnly plain_value (IsConstOf (names_of records.now) (record_types records.now) (value_type ty.now) (toks tokens.now))) }
{
    match is_light(alloc, tokens) {
        Err(end) => Err(end),
        Ok(false) => Ok(None),
        Ok(true) => match const_at(alloc, records, tokens, ty) {
            Err(end) => Err(end),
            Ok(None) => Ok(None),
            Ok(Some(read)) => Ok(whole_value(read)),
        },
    }
}

/// The value where nothing stands behind it.
fn whole_value(read: Read<'_, '_>) -> Option<Value>
    ensures { IsOnly plain_value (IsAllOf (value_front read.entry)) result }
{
    if read.rest.is_empty() {
        Some(read.value)
    } else {
        None
    }
}
