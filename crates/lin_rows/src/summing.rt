//! Sums of two rows.

ghost use Rattle.std.specs.Prelude.{◌≡◌, ◌≢◌, ◌↔◌, ◌≤◌, ◌<◌, ◌+◌, ℤ, pos, ◌+ℤ◌, ◌*ℤ◌, IsTrue, IfOk, IsErrOf, false, Some, slice_get, length, ◌^◌, unsigned_abs};
ghost use Rattle.lin_rows.specs.Inequality.{IsCanonical, are_small};
ghost use Rattle.lin_rows.specs.Inequality as row_specs;
ghost use Rattle.lin_rows.specs.Step.{IsNextPart};
ghost use Rattle.lin_rows.specs.Sum.{combined, sum_of_parts, is_multiplier};

use crate::row::{Row, RowEnd, RowPart, is_small};
use std::alloc::Global;

/// The product of two numbers that are at most 2^60 without their signs.
pub(crate) fn product(a: i128, b: i128) -> i128
    requires a_small { IsTrue (row_specs.is_small a) }
    requires b_small { IsTrue (row_specs.is_small b) }
    ensures value { result ≡ a *ℤ b }
    ensures size { unsigned_abs result ≤ 2 ^ 120 }
{
    a * b
}

/// The sum of two such products.
fn sum_of_products(p: i128, a: i128, q: i128, b: i128) -> i128
    requires p_small { IsTrue (row_specs.is_small p) }
    requires a_small { IsTrue (row_specs.is_small a) }
    requires q_small { IsTrue (row_specs.is_small q) }
    requires b_small { IsTrue (row_specs.is_small b) }
    ensures { result ≡ p *ℤ a +ℤ q *ℤ b }
{
    product(p, a) + product(q, b)
}

/// Whether a claimed number is that sum.
fn is_sum_of_products(claimed: i128, p: i128, a: i128, q: i128, b: i128) -> bool
    requires p_small { IsTrue (row_specs.is_small p) }
    requires a_small { IsTrue (row_specs.is_small a) }
    requires q_small { IsTrue (row_specs.is_small q) }
    requires b_small { IsTrue (row_specs.is_small b) }
    ensures { IsTrue result ↔ (claimed ≡ p *ℤ a +ℤ q *ℤ b) }
{
    claimed == sum_of_products(p, a, q, b)
}

/// A part with its coefficient multiplied.
fn multiplied(part: RowPart, by: i128) -> RowPart
    requires part_small { IsTrue (row_specs.is_small part.times) }
    requires by_small { IsTrue (row_specs.is_small by) }
    ensures { result ≡ record { var = part.var; times = by *ℤ part.times } }
{
    RowPart {
        var: part.var,
        times: product(by, part.times),
    }
}

/// The next part of the merge of two rows, which is 0 times where the rows cancel, and where each goes on.
#[derive(Clone, Copy)]
struct Step {
    part: RowPart,
    left: usize,
    right: usize,
}

/// The next part of `p` times the left row and `q` times the right one, from `i` and `j` on.
fn next_part(left: &[RowPart], i: usize, p: i128, right: &[RowPart], j: usize, q: i128) -> Step
    requires more { i + j < length left.now + length right.now }
    requires in_left { i ≤ length left.now }
    requires in_right { j ≤ length right.now }
    requires canonical { IsCanonical left.now × IsCanonical right.now }
    requires left_small { IsTrue (row_specs.are_small left.now) }
    requires right_small { IsTrue (row_specs.are_small right.now) }
    requires p_small { IsTrue (row_specs.is_small p) }
    requires q_small { IsTrue (row_specs.is_small q) }
    requires nonzero { (p ≢ pos 0) × (q ≢ pos 0) }
    ensures { IsNextPart left.now i p right.now j q result.part result.left result.right }
{
    if i == left.len() {
        let part = multiplied(right[j], q);
        return Step {
            part,
            left: i,
            right: j + 1,
        };
    }
    if j == right.len() {
        let part = multiplied(left[i], p);
        return Step {
            part,
            left: i + 1,
            right: j,
        };
    }
    let x = left[i];
    let y = right[j];
    if x.var < y.var {
        let part = multiplied(x, p);
        return Step {
            part,
            left: i + 1,
            right: j,
        };
    }
    if y.var < x.var {
        let part = multiplied(y, q);
        return Step {
            part,
            left: i,
            right: j + 1,
        };
    }
    let times = sum_of_products(p, x.times, q, y.times);
    Step {
        part: RowPart { var: x.var, times },
        left: i + 1,
        right: j + 1,
    }
}

/// `p` times the left parts and `q` times the right ones.
fn combine_parts(
    alloc: Global,
    left: &[RowPart],
    p: i128,
    right: &[RowPart],
    q: i128,
) -> Result<Vec<RowPart>, RowEnd>
    requires canonical { IsCanonical left.now × IsCanonical right.now }
    requires left_small { IsTrue (row_specs.are_small left.now) }
    requires right_small { IsTrue (row_specs.are_small right.now) }
    requires p { IsTrue (is_multiplier p) }
    requires q { IsTrue (is_multiplier q) }
    ensures sum { IfOk result (λ parts. parts.items ≡ sum_of_parts left.now p right.now q) }
    ensures small { IfOk result (λ parts. IsTrue (row_specs.are_small parts.items)) }
    ensures wide { IsErrOf result RowEnd.Wide → row_specs.are_small (sum_of_parts left.now p right.now q) ≡ false }
{
    let total = left.len() + right.len();
    let mut parts = Vec::with_capacity(alloc, total)?;
    let mut i = 0;
    let mut j = 0;
    'parts: while i + j < total {
        let step = next_part(left, i, p, right, j, q);
        i = step.left;
        j = step.right;
        let part = step.part;
        if part.times == 0 {
            continue;
        }
        if !is_small(part.times) {
            return Err(RowEnd::Wide);
        }
        parts.push(part)?;
    }
    Ok(parts)
}

/// `p` times one row and `q` times another.
pub fn combine(alloc: Global, a: &Row, p: i128, b: &Row, q: i128) -> Result<Row, RowEnd>
    requires p { IsTrue (is_multiplier p) }
    requires q { IsTrue (is_multiplier q) }
    requires a_within { IsTrue (row_specs.is_within a.now) }
    requires b_within { IsTrue (row_specs.is_within b.now) }
    ensures sum { IfOk result (λ row. row ≡ combined a.now p b.now q) }
    ensures within { IfOk result (λ row. IsTrue (row_specs.is_within row)) }
    // Wide where a number of the sum is beyond 2^60, and only there.
    ensures wide { IsErrOf result RowEnd.Wide → row_specs.is_within (combined a.now p b.now q) ≡ false }
{
    let bound = sum_of_products(p, a.bound, q, b.bound);
    if !is_small(bound) {
        return Err(RowEnd::Wide);
    }
    let parts = combine_parts(alloc, &a.parts, p, &b.parts, q)?;
    Ok(Row::new(parts, bound))
}

/// Whether a claimed row is `p` times one row and `q` times another. It makes no row of its own.
pub fn is_sum(claimed: &Row, a: &Row, p: i128, b: &Row, q: i128) -> bool
    requires p { IsTrue (is_multiplier p) }
    requires q { IsTrue (is_multiplier q) }
    requires a_within { IsTrue (row_specs.is_within a.now) }
    requires b_within { IsTrue (row_specs.is_within b.now) }
    ensures { IsTrue result ↔ (claimed.now ≡ combined a.now p b.now q) }
{
    is_sum_of_products(claimed.bound, p, a.bound, q, b.bound)
        && are_sum_of_parts(&claimed.parts, &a.parts, p, &b.parts, q)
}

/// Whether claimed parts are `p` times the left ones and `q` times the right ones.
fn are_sum_of_parts(
    claimed: &[RowPart],
    left: &[RowPart],
    p: i128,
    right: &[RowPart],
    q: i128,
) -> bool
    requires canonical { IsCanonical left.now × IsCanonical right.now }
    requires left_small { IsTrue (row_specs.are_small left.now) }
    requires right_small { IsTrue (row_specs.are_small right.now) }
    requires p { IsTrue (is_multiplier p) }
    requires q { IsTrue (is_multiplier q) }
    ensures { IsTrue result ↔ (claimed.now ≡ sum_of_parts left.now p right.now q) }
{
    let total = left.len() + right.len();
    let mut n = 0;
    let mut i = 0;
    let mut j = 0;
    'parts: while i + j < total {
        let step = next_part(left, i, p, right, j, q);
        i = step.left;
        j = step.right;
        if step.part.times == 0 {
            continue;
        }
        if !has_at(claimed, n, step.part) {
            return false;
        }
        n += 1;
    }
    n == claimed.len()
}

/// Whether the list has this part at `n`.
fn has_at(parts: &[RowPart], n: usize, part: RowPart) -> bool
    ensures { IsTrue result ↔ (slice_get parts.now n ≡ Some part) }
{
    n < parts.len() && parts[n] == part
}
