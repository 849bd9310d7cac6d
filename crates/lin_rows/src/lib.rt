//! Rows of linear arithmetic over whole numbers: a row says that a sum of variables, each times its coefficient, is at most
//! a bound.
//!
//! `combine` adds multiples of two rows, `tighten` divides a row by what its coefficients have in common and rounds the
//! bound down, and `is_contradiction` tells the rows that no numbers satisfy. `is_sum` and `is_cut` compare a claimed row
//! with what those two give, and take no memory. What a row, a sum and a cut are stands in `specs/`.
#![tactic(auto)]

mod cutting;
mod laws;
mod row;
mod summing;

pub use cutting::{cut, divisor, is_cut, tighten};
pub use laws::{cuts_keep_the_numbers, no_numbers_satisfy_a_contradiction, sums_add_up};
pub use row::{LIMIT, NoMemory, Row, RowEnd, RowPart, is_canonical, is_contradiction, is_within};
pub use summing::{combine, is_sum};
