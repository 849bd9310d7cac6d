ghost use Rattle.std.specs.Prelude.{◌≡◌, ℕ, suc, ◌↔◌, ◌&&◌, ◌+◌, nat_lt, min, length, map, get_or, true, false, IfOk};
ghost use Rattle.std.specs.List.{list_all, sum_by};
ghost use Rattle.std.specs.Option.{option_map_or};
ghost use Rattle.slang_values.specs.Value.{AreWellFormed, is_known, named_record, parts_of_field};
ghost use Rattle.term_trees.specs.Term.{sort_type};
ghost use Rattle.term_sorts.specs.Types.{record_types};
ghost use Rattle.sorted_sequents.specs.Records.{AreEnds, AreCounts, AreKnown};

use crate::NoMemory;
use crate::sorts::are_known;
use sqlite_items::Items;
use std::alloc::Global;
use term_trees::Sort;

/// The most parts of a record, and one more.
const TOO_MANY: u32 = 1001;

/// Whether all records name records that are there.
fn all_known(records: &[Items<Sort>]) -> bool
    ensures { result ≡ list_all (list_all (is_known (record_types records.now))) (record_types records.now) }
{
    for fields in records {
        if !are_known(records, fields.as_slice()) {
            return false;
        }
    }
    true
}

/// Whether the record that the sort names ends, by the answers of the round before.
#[tactic(auto, using(term_trees::proofs::Sorts::sort_lines))]
fn field_ends(answers: &[bool], sort: &Sort) -> bool
    ensures { result ≡ option_map_or (λ n. get_or answers.now n false) (named_record (sort_type sort.now)) true }
{
    match sort {
        Sort::Z => true,
        Sort::B => true,
        Sort::Seq(element) => field_ends(answers, element.get()),
        Sort::Rec(number) => answer_at(answers, *number),
    }
}

fn answer_at(answers: &[bool], number: u32) -> bool
    ensures { result ≡ get_or answers.now number false }
{
    match answers.get(number as usize) {
        Some(answer) => *answer,
        None => false,
    }
}

fn fields_end(answers: &[bool], sorts: &[Sort]) -> bool
    ensures { result ≡ list_all (λ t. option_map_or (λ n. get_or answers.now n false) (named_record t) true) (map sort_type sorts.now) }
{
    for sort in sorts {
        if !field_ends(answers, sort) {
            return false;
        }
    }
    true
}

/// What ends within one record more.
fn next_ends(
    alloc: Global,
    records: &[Items<Sort>],
    answers: &[bool],
) -> Result<Vec<bool>, NoMemory>
    requires known { AreKnown (record_types records.now) }
    ensures { IfOk result (λ next. (depth : ℕ) →
        AreEnds (record_types records.now) depth answers.now → AreEnds (record_types records.now) (suc depth) next.items) }
{
    let mut next = Vec::new(alloc);
    for place in 0..records.len() {
        next.push(fields_end(answers, records[place].as_slice()))?;
    }
    Ok(next)
}

/// What ends at all: there are no more records than that.
fn ends_of(alloc: Global, records: &[Items<Sort>]) -> Result<Vec<bool>, NoMemory>
    requires known { AreKnown (record_types records.now) }
    ensures { IfOk result (λ answers. AreEnds (record_types records.now) (length records.now) answers.items) }
{
    let mut answers = Vec::new(alloc);
    'records: for _record in records {
        answers.push(false)?;
    }
    'rounds: for _round in 0..records.len() {
        answers = next_ends(alloc, records, answers.as_slice())?;
    }
    Ok(answers)
}

/// How many parts a field adds, by the counts of the round before.
#[tactic(auto, using(term_trees::proofs::Sorts::sort_lines))]
fn field_parts(counts: &[u32], sort: &Sort) -> u32
    ensures { result ≡ parts_of_field (λ n. get_or counts.now n 0) (sort_type sort.now) }
{
    match sort {
        Sort::Z => 0,
        Sort::B => 0,
        Sort::Seq(_) => 0,
        Sort::Rec(number) => count_at(counts, *number),
    }
}

fn count_at(counts: &[u32], number: u32) -> u32
    ensures { result ≡ get_or counts.now number 0 }
{
    match counts.get(number as usize) {
        Some(count) => *count,
        None => 0,
    }
}

/// One field more, up to the limit.
fn with_field(parts: u32, field: u32) -> u32
    ensures { result ≡ min (parts + (1 + field)) 1001 }
{
    parts.saturating_add(field).saturating_add(1).min(TOO_MANY)
}

fn fields_parts(counts: &[u32], sorts: &[Sort]) -> u32
    ensures { result ≡ min (sum_by (λ t. 1 + parts_of_field (λ n. get_or counts.now n 0) t) (map sort_type sorts.now)) 1001 }
{
    let mut parts = 0;
    for sort in sorts {
        parts = with_field(parts, field_parts(counts, sort));
    }
    parts
}

/// The parts within one record more.
fn next_counts(alloc: Global, records: &[Items<Sort>], counts: &[u32]) -> Result<Vec<u32>, NoMemory>
    requires known { AreKnown (record_types records.now) }
    ensures { IfOk result (λ next. (depth : ℕ) →
        AreCounts (record_types records.now) depth counts.now → AreCounts (record_types records.now) (suc depth) next.items) }
{
    let mut next = Vec::new(alloc);
    for place in 0..records.len() {
        next.push(fields_parts(counts, records[place].as_slice()))?;
    }
    Ok(next)
}

/// The parts of all records.
fn counts_of(alloc: Global, records: &[Items<Sort>]) -> Result<Vec<u32>, NoMemory>
    requires known { AreKnown (record_types records.now) }
    ensures { IfOk result (λ counts. AreCounts (record_types records.now) (length records.now) counts.items) }
{
    let mut counts = Vec::new(alloc);
    'records: for _record in records {
        counts.push(0)?;
    }
    'rounds: for _round in 0..records.len() {
        counts = next_counts(alloc, records, counts.as_slice())?;
    }
    Ok(counts)
}

fn all_end(answers: &[bool]) -> bool
    ensures { result ≡ list_all (λ b. b) answers.now }
{
    for answer in answers {
        if !*answer {
            return false;
        }
    }
    true
}

fn are_small(counts: &[u32]) -> bool
    ensures { result ≡ list_all (λ n. nat_lt n 1001) counts.now }
{
    for count in counts {
        if *count >= TOO_MANY {
            return false;
        }
    }
    true
}

/// Whether all records end, and their counts are small.
fn are_all(answers: &[bool], counts: &[u32]) -> bool
    ensures { result ≡ (list_all (λ b. b) answers.now && list_all (λ n. nat_lt n 1001) counts.now) }
{
    all_end(answers) && are_small(counts)
}

/// Whether no record holds itself, and none has more than 1,000 parts.
pub fn are_well_formed(alloc: Global, records: &[Items<Sort>]) -> Result<bool, NoMemory>
    ensures { IfOk result (λ b. (b ≡ true) ↔ AreWellFormed (record_types records.now)) }
{
    if !all_known(records) {
        return Ok(false);
    }
    let answers = ends_of(alloc, records)?;
    let counts = counts_of(alloc, records)?;
    Ok(are_all(answers.as_slice(), counts.as_slice()))
}
