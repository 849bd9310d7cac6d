ghost use Rattle.std.specs.Prelude.{◌≡◌, map};
ghost use Rattle.std.specs.List.{list_all};
ghost use Rattle.slang_values.specs.Value.{is_element_type as element_form, is_value_type as value_form, named_record, parts_of_field};
ghost use Rattle.lk_claims.specs.Claim.{value_type};
ghost use Rattle.record_checks.specs.Summaries.{after_field, after_record, first_of, inside_of, is_field as field_form, later as later_of, parts_at};
ghost use Rattle.record_checks.specs.Summaries.{parts_sum, small_parts, summary_of as summary_form};

use lk_claims::Ty;

/// The most parts of a record.
const PARTS: u64 = 1000;

/// What is known of a record.
#[derive(Clone, Copy)]
pub struct Summary {
    /// How many parts it has.
    pub parts: u32,
    /// How many records must have their numbers, so that it and those inside it get the next ones in order.
    pub first: usize,
}

/// What is known of the fields of a record so far.
#[derive(Clone, Copy)]
struct Inside {
    /// One more than the last of the records inside, or 0.
    seen: usize,
    /// How many records must have their numbers, so that those inside get the next ones in order.
    first: usize,
}

/// The record that a type names.
#[tactic(auto, using(lk_claims::proofs::Types::type_lines))]
pub fn named(ty: &Ty) -> Option<u32>
    ensures { result ≡ named_record (value_type ty.now) }
{
    match ty {
        Ty::Unit => None,
        Ty::Z => None,
        Ty::B => None,
        Ty::Seq(element) => named(element.get()),
        Ty::Rec(number) => Some(*number),
    }
}

#[tactic(auto, using(lk_claims::proofs::Types::type_lines))]
fn is_element_type(ty: &Ty) -> bool
    ensures { result ≡ element_form (value_type ty.now) }
{
    match ty {
        Ty::Unit => false,
        Ty::Z => true,
        Ty::B => true,
        Ty::Seq(_) => false,
        Ty::Rec(_) => true,
    }
}

/// Whether it is the type of a variable or a field.
#[tactic(auto, using(lk_claims::proofs::Types::type_lines))]
pub fn is_value_type(ty: &Ty) -> bool
    ensures { result ≡ value_form (value_type ty.now) }
{
    match ty {
        Ty::Unit => false,
        Ty::Z => true,
        Ty::B => true,
        Ty::Seq(element) => is_element_type(element.get()),
        Ty::Rec(_) => true,
    }
}

/// Whether it is the type of a field, where so many records are before its own.
fn is_field(before: usize, ty: &Ty) -> bool
    ensures { result ≡ field_form before (value_type ty.now) }
{
    match named(ty) {
        Some(number) => is_value_type(ty) && (number as usize) < before,
        None => is_value_type(ty),
    }
}

/// The same of several.
pub fn are_fields(before: usize, types: &[Ty]) -> bool
    ensures { result ≡ list_all (field_form before) (map value_type types.now) }
{
    for ty in types {
        if !is_field(before, ty) {
            return false;
        }
    }
    true
}

fn parts_of_record(table: &[Summary], number: u32) -> u32
    ensures { result ≡ parts_at table.now number }
{
    match table.get(number as usize) {
        Some(summary) => summary.parts,
        None => 0,
    }
}

/// What a field adds to the parts of its record.
#[tactic(auto, using(lk_claims::proofs::Types::type_lines))]
fn parts_inside(table: &[Summary], ty: &Ty) -> u32
    ensures { result ≡ parts_of_field (parts_at table.now) (value_type ty.now) }
{
    match ty {
        Ty::Unit => 0,
        Ty::Z => 0,
        Ty::B => 0,
        Ty::Seq(_) => 0,
        Ty::Rec(number) => parts_of_record(table, *number),
    }
}

/// How many parts a record with these fields has, where they are not too many.
fn parts_of(table: &[Summary], types: &[Ty]) -> Option<u32>
    ensures { result ≡ small_parts (parts_sum table.now (map value_type types.now)) }
{
    let mut total: u64 = 0;
    for ty in types {
        total = total + 1 + parts_inside(table, ty) as u64;
        if total > PARTS {
            return None;
        }
    }
    Some(total as u32)
}

/// The later of two, where it has not come yet.
fn later(inside: Inside, first: usize) -> usize
    ensures { result ≡ later_of inside.seen inside.first first }
{
    if inside.seen < first && inside.first < first {
        first
    } else {
        inside.first
    }
}

fn with_record(table: &[Summary], inside: Inside, number: usize) -> Inside
    ensures { result ≡ after_record table.now inside number }
{
    if number < inside.seen {
        return inside;
    }
    match table.get(number) {
        Some(summary) => Inside {
            seen: number + 1,
            first: later(inside, summary.first),
        },
        None => inside,
    }
}

fn with_field(table: &[Summary], inside: Inside, ty: &Ty) -> Inside
    ensures { result ≡ after_field table.now inside (value_type ty.now) }
{
    match named(ty) {
        Some(number) => with_record(table, inside, number as usize),
        None => inside,
    }
}

fn inside_of_fields(table: &[Summary], types: &[Ty]) -> Inside
    ensures { result ≡ inside_of table.now (record { seen = 0; first = 0 }) (map value_type types.now) }
{
    let mut inside = Inside { seen: 0, first: 0 };
    for ty in types {
        inside = with_field(table, inside, ty);
    }
    inside
}

fn first_number(table: &[Summary], types: &[Ty]) -> usize
    ensures { result ≡ first_of table.now (map value_type types.now) }
{
    let inside = inside_of_fields(table, types);
    if inside.seen == table.len() {
        inside.first
    } else {
        table.len()
    }
}

/// What is known of the record behind those of the table, by its fields, where it is well formed.
pub fn summary_of(table: &[Summary], types: &[Ty]) -> Option<Summary>
    ensures { result ≡ summary_form table.now (map value_type types.now) }
{
    if !are_fields(table.len(), types) {
        return None;
    }
    match parts_of(table, types) {
        Some(parts) => Some(Summary {
            parts,
            first: first_number(table, types),
        }),
        None => None,
    }
}
