ghost use Rattle.std.specs.Prelude.{map};
ghost use Rattle.key_rules.specs.Codes.{flag_code, flags, of_block, of_line};
ghost use Rattle.key_rules.specs.Reading.{read_claim as reader_of_claims, read_step as step_reader, step_behind};
ghost use Rattle.key_rules.specs.Readers.{read_coded, read_list, read_members};
ghost use Rattle.key_cursor.specs.Reads.{Joins, Reads, itself, left};
ghost use Rattle.lk_claims.specs.Step.{step_tree};
ghost use Rattle.key_reader.specs.Heads.{step_head_data};

use crate::codes::{StepHead, flag, step_head};
use claim_reader::read_claim;
use key_cursor::{KeyCursor, ReadEnd, read_numbers};
use lk_claims::ProofStep;
use owned_results::{all_three, both};
use sqlite_items::Items;
use std::alloc::Global;

/// Reads a step, of so many parts one inside another at most.
#[cycle(steps)]
fn read_step(alloc: Global, cursor: &mut KeyCursor<'_>, depth: u32) -> Result<ProofStep, ReadEnd>
    ensures { Reads step_tree (step_reader depth) (left cursor.old) (left cursor.new) result }
{
    if depth == 0 {
        return Err(ReadEnd::NotKey);
    }
    let byte = cursor.read_byte()?;
    match step_head(byte) {
        Some(head) => read_behind(alloc, cursor, depth - 1, head),
        None => Err(ReadEnd::NotKey),
    }
}

/// Reads what follows the first byte of a step.
#[cycle(steps)]
fn read_behind(
    alloc: Global,
    cursor: &mut KeyCursor<'_>,
    depth: u32,
    head: StepHead,
) -> Result<ProofStep, ReadEnd>
    ensures { Reads step_tree (step_behind (reader_of_claims depth) (step_reader depth) (step_head_data head)) (left cursor.old) (left cursor.new) result }
{
    match head {
        StepHead::Line => read_line(alloc, cursor, depth),
        StepHead::Block => read_block(alloc, cursor, depth),
    }
}

/// Reads a claim by a rule, behind its first byte.
fn read_line(alloc: Global, cursor: &mut KeyCursor<'_>, depth: u32) -> Result<ProofStep, ReadEnd>
    ensures { Reads step_tree (step_behind (reader_of_claims depth) (step_reader depth) of_line) (left cursor.old) (left cursor.new) result }
{
    let label = cursor.read_number()?;
    let (claim, rule, cites) = all_three(
        read_claim(alloc, cursor, depth),
        cursor.read_byte(),
        read_numbers(alloc, cursor),
    )?;
    Ok(ProofStep::Line {
        label,
        claim,
        rule,
        cites,
    })
}

fn read_flag(cursor: &mut KeyCursor<'_>) -> Result<bool, ReadEnd>
    ensures { Reads itself (read_coded flag_code flags) (left cursor.old) (left cursor.new) result }
{
    let byte = cursor.read_byte()?;
    match flag(byte) {
        Some(is_set) => Ok(is_set),
        None => Err(ReadEnd::NotKey),
    }
}

/// Reads a block, behind its first byte.
#[cycle(steps)]
fn read_block(alloc: Global, cursor: &mut KeyCursor<'_>, depth: u32) -> Result<ProofStep, ReadEnd>
    ensures { Reads step_tree (step_behind (reader_of_claims depth) (step_reader depth) of_block) (left cursor.old) (left cursor.new) result }
{
    let label = cursor.read_number()?;
    let bind = read_flag(cursor)?;
    let assumed = cursor.read_number()?;
    let (assumption, steps) = both(
        read_claim(alloc, cursor, depth),
        read_steps(alloc, cursor, depth),
    )?;
    Ok(ProofStep::Sub {
        label,
        bind,
        assumed,
        assumption,
        steps,
    })
}

#[cycle(steps)]
fn add_steps(
    alloc: Global,
    cursor: &mut KeyCursor<'_>,
    depth: u32,
    count: u32,
    steps: &mut Items<ProofStep>,
) -> Result<(), ReadEnd>
    ensures { Joins step_tree (read_members (step_reader depth) count) steps.old steps.new (left cursor.old) (left cursor.new) result }
{
    for _ in 0..count {
        let step = read_step(alloc, cursor, depth)?;
        steps.push(step)?;
    }
    Ok(())
}

/// Reads a list of steps.
#[cycle(steps)]
pub(crate) fn read_steps(
    alloc: Global,
    cursor: &mut KeyCursor<'_>,
    depth: u32,
) -> Result<Items<ProofStep>, ReadEnd>
    ensures { Reads (map step_tree) (read_list (step_reader depth)) (left cursor.old) (left cursor.new) result }
{
    let count = cursor.read_count()?;
    let mut steps = Items::new(alloc);
    add_steps(alloc, cursor, depth, count, &mut steps)?;
    Ok(steps)
}
