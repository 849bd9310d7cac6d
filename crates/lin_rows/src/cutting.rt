//! Rows divided by what their coefficients have in common.

ghost use Rattle.std.specs.Prelude.{◌≡◌, ◌<◌, ◌≤◌, ◌^◌, ℤ, pos, ◌*ℤ◌, ◌↔◌, IsTrue, IfOk, int_div, int_rem, unsigned_abs};
ghost use Rattle.std.specs.Int.{int_div_euclid};
ghost use Rattle.std.specs.Ordering.{int_eq};
ghost use Rattle.lin_rows.specs.Cut as cut_specs;
ghost use Rattle.lin_rows.specs.Inequality as row_specs;
ghost use Rattle.lin_rows.specs.Sum.{is_multiplier};

use crate::row::{NoMemory, Row, RowPart};
use crate::summing::product;
use std::alloc::Global;
use whole_numbers::greatest_common_divisor;

/// The greatest common divisor of the row's coefficients, 0 where there is none.
pub fn divisor(row: &Row) -> u128
    ensures value { result ≡ cut_specs.divisor row.now.parts }
    ensures most { result ≤ 2 ^ 127 }
    ensures same { result ≤ 1 → cut_specs.tightened row.now ≡ row.now }
    ensures cut { 1 < result → cut_specs.tightened row.now ≡ cut_specs.cut row.now (pos result) }
    ensures divides { IsTrue (cut_specs.divides (pos result) row.now.parts) }
    ensures small { IsTrue (row_specs.is_within row.now) → result ≤ 2 ^ 60 }
{
    divisor_of_parts(&row.parts)
}

fn divisor_of_parts(parts: &[RowPart]) -> u128
    ensures value { result ≡ cut_specs.divisor parts.now }
    ensures most { result ≤ 2 ^ 127 }
{
    let mut common = 0;
    for part in parts {
        common = greatest_common_divisor(common, size(*part));
        if common == 1 {
            return 1;
        }
    }
    common
}

/// The coefficient without its sign.
fn size(part: RowPart) -> u128
    ensures value { result ≡ unsigned_abs part.times }
    ensures most { result ≤ 2 ^ 127 }
{
    part.times.unsigned_abs()
}

/// The quotient rounded toward zero. Divisors up to 2^127 occur, and the last is no `i128`.
fn quotient(number: i128, by: u128) -> i128
    requires positive { 0 < by }
    requires most { by ≤ 2 ^ 127 }
    ensures { result ≡ int_div number (pos by) }
{
    if by < 1 << 127 {
        return number / by as i128;
    }
    if number == i128::MIN { -1 } else { 0 }
}

/// The quotient rounded down.
fn floor(number: i128, by: u128) -> i128
    requires positive { 0 < by }
    requires most { by ≤ 2 ^ 127 }
    ensures { result ≡ int_div_euclid number (pos by) }
{
    if by < 1 << 127 {
        return number.div_euclid(by as i128);
    }
    if number < 0 { -1 } else { 0 }
}

/// The row divided by a number that divides its coefficients, its bound rounded down.
pub fn cut(alloc: Global, row: &Row, by: u128) -> Result<Row, NoMemory>
    requires positive { 0 < by }
    requires most { by ≤ 2 ^ 127 }
    requires divides { IsTrue (cut_specs.divides (pos by) row.now.parts) }
    ensures { IfOk result (λ new. new ≡ cut_specs.cut row.now (pos by)) }
{
    let parts = cut_parts(alloc, &row.parts, by)?;
    Ok(Row::new(parts, floor(row.bound, by)))
}

fn cut_parts(alloc: Global, parts: &[RowPart], by: u128) -> Result<Vec<RowPart>, NoMemory>
    requires positive { 0 < by }
    requires most { by ≤ 2 ^ 127 }
    ensures { IfOk result (λ new. new.items ≡ cut_specs.cut_parts (pos by) parts.now) }
{
    let mut new = Vec::with_capacity(alloc, parts.len())?;
    for part in parts {
        new.push(cut_part(*part, by))?;
    }
    Ok(new)
}

fn cut_part(part: RowPart, by: u128) -> RowPart
    requires positive { 0 < by }
    requires most { by ≤ 2 ^ 127 }
    ensures { result ≡ record { var = part.var; times = int_div part.times (pos by) } }
{
    RowPart {
        var: part.var,
        times: quotient(part.times, by),
    }
}

/// The row divided by the greatest common divisor of its coefficients, its bound rounded down. It is true of the same whole
/// numbers. A row without parts stays as it is.
pub fn tighten(alloc: Global, row: &Row) -> Result<Row, NoMemory>
    ensures { IfOk result (λ new. new ≡ cut_specs.tightened row.now) }
{
    let common = divisor_of_parts(&row.parts);
    if common <= 1 {
        return row.copy(alloc);
    }
    cut(alloc, row, common)
}

/// Whether a claimed row is a row cut by `by`, which divides its coefficients. It makes no row of its own.
pub fn is_cut(claimed: &Row, row: &Row, by: i128) -> bool
    requires by { IsTrue (is_multiplier by) }
    requires claimed_within { IsTrue (row_specs.is_within claimed.now) }
    ensures { IsTrue result
        ↔ (IsTrue (cut_specs.divides by row.now.parts) × (claimed.now ≡ cut_specs.cut row.now by)) }
{
    claimed.bound == row.bound.div_euclid(by) && are_quotients(&claimed.parts, &row.parts, by)
}

fn are_quotients(claimed: &[RowPart], parts: &[RowPart], by: i128) -> bool
    requires by { IsTrue (is_multiplier by) }
    requires claimed_small { IsTrue (row_specs.are_small claimed.now) }
    ensures { IsTrue result
        ↔ (IsTrue (cut_specs.divides by parts.now) × (claimed.now ≡ cut_specs.cut_parts by parts.now)) }
{
    if claimed.len() != parts.len() {
        return false;
    }
    for i in 0..parts.len() {
        if !is_quotient(claimed[i], parts[i], by) {
            return false;
        }
    }
    true
}

/// Whether a claimed part, times `by`, is the part.
fn is_quotient(claimed: RowPart, part: RowPart, by: i128) -> bool
    requires by { IsTrue (is_multiplier by) }
    requires claimed_small { IsTrue (row_specs.is_small claimed.times) }
    ensures { IsTrue result
        ↔ ((int_rem part.times by ≡ pos 0) × (claimed ≡ record { var = part.var; times = int_div part.times by })) }
{
    claimed.var == part.var && product(by, claimed.times) == part.times
}
