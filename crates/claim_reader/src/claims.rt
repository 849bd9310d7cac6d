ghost use Rattle.std.specs.Prelude.{map};
ghost use Rattle.key_rules.specs.Codes.{of_binary, of_field, of_quantified, of_record_literal, of_sequence_literal, of_update};
ghost use Rattle.key_rules.specs.Reading.{claim_behind, read_claim as claim_reader, read_type as type_reader};
ghost use Rattle.key_rules.specs.Readers.{read_list, read_members};
ghost use Rattle.key_cursor.specs.Reads.{Joins, Reads, left};
ghost use Rattle.lk_claims.specs.Claim.{claim_tree};
ghost use Rattle.claim_reader.specs.Heads.{claim_head_data, one_part};

use crate::codes::{ClaimHead, claim_head};
use crate::leaves::{read_bound, read_let_symbol, read_literal, read_old_variable, read_variable};
use crate::types::read_type;
use key_cursor::{KeyCursor, ReadEnd};
use lk_claims::Claim;
use owned_results::{all_three, both};
use slang_values::{Binary, Quantifier, Unary};
use sqlite_items::Items;
use std::alloc::Global;

/// Reads a claim, of so many parts one inside another at most.
#[cycle(claims)]
pub fn read_claim(alloc: Global, cursor: &mut KeyCursor<'_>, depth: u32) -> Result<Claim, ReadEnd>
    ensures { Reads claim_tree (claim_reader depth) (left cursor.old) (left cursor.new) result }
{
    if depth == 0 {
        return Err(ReadEnd::NotKey);
    }
    let byte = cursor.read_byte()?;
    match claim_head(byte) {
        Some(head) => read_behind(alloc, cursor, depth - 1, head),
        None => Err(ReadEnd::NotKey),
    }
}

/// Reads what follows the first byte of a claim.
#[cycle(claims)]
fn read_behind(
    alloc: Global,
    cursor: &mut KeyCursor<'_>,
    depth: u32,
    head: ClaimHead,
) -> Result<Claim, ReadEnd>
    ensures { Reads claim_tree (claim_behind (type_reader depth) (claim_reader depth) (claim_head_data head)) (left cursor.old) (left cursor.new) result }
{
    match head {
        ClaimHead::Truth(b) => Ok(Claim::truth(b)),
        ClaimHead::Neg => read_one(alloc, cursor, depth, Unary::Neg),
        ClaimHead::Not => read_one(alloc, cursor, depth, Unary::Not),
        ClaimHead::Size => read_one(alloc, cursor, depth, Unary::Size),
        ClaimHead::Field => read_field(alloc, cursor, depth),
        ClaimHead::Binary(op) => read_two(alloc, cursor, depth, op),
        ClaimHead::Update => read_update(alloc, cursor, depth),
        ClaimHead::Quantified(q) => read_quantified(alloc, cursor, depth, q),
        ClaimHead::Sequence => read_sequence(alloc, cursor, depth),
        ClaimHead::Record => read_record(alloc, cursor, depth),
        ClaimHead::Literal => read_literal(cursor),
        ClaimHead::Variable => read_variable(cursor),
        ClaimHead::Bound => read_bound(cursor),
        ClaimHead::OldVariable => read_old_variable(cursor),
        ClaimHead::LetSymbol => read_let_symbol(cursor),
    }
}

#[cycle(claims)]
fn read_one(
    alloc: Global,
    cursor: &mut KeyCursor<'_>,
    depth: u32,
    op: Unary,
) -> Result<Claim, ReadEnd>
    ensures { Reads claim_tree (one_part op (claim_reader depth)) (left cursor.old) (left cursor.new) result }
{
    let part = read_claim(alloc, cursor, depth)?;
    let claim = Claim::unary(alloc, op, part)?;
    Ok(claim)
}

#[cycle(claims)]
fn read_field(alloc: Global, cursor: &mut KeyCursor<'_>, depth: u32) -> Result<Claim, ReadEnd>
    ensures { Reads claim_tree (claim_behind (type_reader depth) (claim_reader depth) of_field) (left cursor.old) (left cursor.new) result }
{
    let (part, place) = both(read_claim(alloc, cursor, depth), cursor.read_number())?;
    let claim = Claim::unary(alloc, Unary::Field(place), part)?;
    Ok(claim)
}

#[cycle(claims)]
fn read_two(
    alloc: Global,
    cursor: &mut KeyCursor<'_>,
    depth: u32,
    op: Binary,
) -> Result<Claim, ReadEnd>
    ensures { Reads claim_tree (claim_behind (type_reader depth) (claim_reader depth) (of_binary op)) (left cursor.old) (left cursor.new) result }
{
    let (a, b) = both(
        read_claim(alloc, cursor, depth),
        read_claim(alloc, cursor, depth),
    )?;
    let claim = Claim::binary(alloc, op, a, b)?;
    Ok(claim)
}

#[cycle(claims)]
fn read_update(alloc: Global, cursor: &mut KeyCursor<'_>, depth: u32) -> Result<Claim, ReadEnd>
    ensures { Reads claim_tree (claim_behind (type_reader depth) (claim_reader depth) of_update) (left cursor.old) (left cursor.new) result }
{
    let (a, i, x) = all_three(
        read_claim(alloc, cursor, depth),
        read_claim(alloc, cursor, depth),
        read_claim(alloc, cursor, depth),
    )?;
    let claim = Claim::update(alloc, a, i, x)?;
    Ok(claim)
}

#[cycle(claims)]
fn read_quantified(
    alloc: Global,
    cursor: &mut KeyCursor<'_>,
    depth: u32,
    quantifier: Quantifier,
) -> Result<Claim, ReadEnd>
    ensures { Reads claim_tree (claim_behind (type_reader depth) (claim_reader depth) (of_quantified quantifier)) (left cursor.old) (left cursor.new) result }
{
    let (low, high, body) = all_three(
        read_claim(alloc, cursor, depth),
        read_claim(alloc, cursor, depth),
        read_claim(alloc, cursor, depth),
    )?;
    let claim = Claim::quantified(alloc, quantifier, low, high, body)?;
    Ok(claim)
}

/// Reads a sequence that is written out, behind its first byte.
#[cycle(claims)]
fn read_sequence(alloc: Global, cursor: &mut KeyCursor<'_>, depth: u32) -> Result<Claim, ReadEnd>
    ensures { Reads claim_tree (claim_behind (type_reader depth) (claim_reader depth) of_sequence_literal) (left cursor.old) (left cursor.new) result }
{
    let (element, parts) = both(
        read_type(alloc, cursor, depth),
        read_parts(alloc, cursor, depth),
    )?;
    Ok(Claim::SeqLit(element, parts))
}

/// Reads a record that is written out, behind its first byte.
#[cycle(claims)]
fn read_record(alloc: Global, cursor: &mut KeyCursor<'_>, depth: u32) -> Result<Claim, ReadEnd>
    ensures { Reads claim_tree (claim_behind (type_reader depth) (claim_reader depth) of_record_literal) (left cursor.old) (left cursor.new) result }
{
    let (number, parts) = both(cursor.read_number(), read_parts(alloc, cursor, depth))?;
    Ok(Claim::Rec(number, parts))
}

#[cycle(claims)]
fn add_parts(
    alloc: Global,
    cursor: &mut KeyCursor<'_>,
    depth: u32,
    count: u32,
    parts: &mut Items<Claim>,
) -> Result<(), ReadEnd>
    ensures { Joins claim_tree (read_members (claim_reader depth) count) parts.old parts.new (left cursor.old) (left cursor.new) result }
{
    for _ in 0..count {
        let part = read_claim(alloc, cursor, depth)?;
        parts.push(part)?;
    }
    Ok(())
}

/// Reads a list of claims.
#[cycle(claims)]
fn read_parts(
    alloc: Global,
    cursor: &mut KeyCursor<'_>,
    depth: u32,
) -> Result<Items<Claim>, ReadEnd>
    ensures { Reads (map claim_tree) (read_list (claim_reader depth)) (left cursor.old) (left cursor.new) result }
{
    let count = cursor.read_count()?;
    let mut parts = Items::new(alloc);
    add_parts(alloc, cursor, depth, count, &mut parts)?;
    Ok(parts)
}
