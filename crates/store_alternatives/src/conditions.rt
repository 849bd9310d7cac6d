ghost use Rattle.std.specs.Prelude.{◌≡◌, ◌<◌, length, pos, IfOk};
ghost use Rattle.slang_values.specs.Tree.{unary, binary, literal};
ghost use Rattle.slang_values.specs.declared.operators.Unary.{Unary};
ghost use Rattle.slang_values.specs.declared.operators.Binary.{Binary};
ghost use Rattle.read_rules.specs.Reads.{both_hold, are_equal, is_updated_place as is_updated_place_tree};
ghost use Rattle.case_rules.specs.Cases.{field};
ghost use Rattle.term_store.specs.Store.{tree_at, Holds, Grows};
ghost use Rattle.store_formulas.specs.Top.{signed_tree};

use crate::NoMemory;
use slang_values::{Binary, Unary};
use store_formulas::Signed;
use store_reads::{add, add_binary, add_unary};
use term_nodes::Node;
use term_store::TermStore;

/// The number of the term, or of its negation.
pub fn formula(store: &mut TermStore, signed: Signed) -> Result<usize, NoMemory>
    requires { signed.id < length store.old }
    ensures number { IfOk result (λ k. Holds store.new k (signed_tree store.old signed)) }
    ensures grows { Grows store.old store.new }
{
    if signed.holds {
        Ok(signed.id)
    } else {
        add_unary(store, Unary::Not, signed.id)
    }
}

/// The number of a count.
pub fn add_count(store: &mut TermStore, count: usize) -> Result<usize, NoMemory>
    ensures number { IfOk result (λ k. Holds store.new k (literal (pos count))) }
    ensures grows { Grows store.old store.new }
{
    add(store, Node::Lit(count as i128))
}

/// The number of the equality of a term and a count.
pub fn equals_count(store: &mut TermStore, j: usize, count: usize) -> Result<usize, NoMemory>
    requires { j < length store.old }
    ensures number { IfOk result (λ k. Holds store.new k (are_equal (tree_at store.old j) (literal (pos count)))) }
    ensures grows { Grows store.old store.new }
{
    let right = add_count(store, count)?;
    add_binary(store, Binary::Eq, j, right)
}

/// The number of the comparison of a term with a count.
pub fn below_count(store: &mut TermStore, j: usize, count: usize) -> Result<usize, NoMemory>
    requires { j < length store.old }
    ensures number { IfOk result (λ k. Holds store.new k (binary Binary.Lt (tree_at store.old j) (literal (pos count)))) }
    ensures grows { Grows store.old store.new }
{
    let right = add_count(store, count)?;
    add_binary(store, Binary::Lt, j, right)
}

/// The number of the comparison of a count with a term.
pub fn at_least(store: &mut TermStore, count: usize, j: usize) -> Result<usize, NoMemory>
    requires { j < length store.old }
    ensures number { IfOk result (λ k. Holds store.new k (binary Binary.Le (literal (pos count)) (tree_at store.old j))) }
    ensures grows { Grows store.old store.new }
{
    let left = add_count(store, count)?;
    add_binary(store, Binary::Le, left, j)
}

/// The number of the comparison of a term with the size of a sequence, by that operator.
pub fn beside_size(store: &mut TermStore, op: Binary, i: usize, a: usize) -> Result<usize, NoMemory>
    requires left { i < length store.old }
    requires right { a < length store.old }
    ensures number { IfOk result (λ k. Holds store.new k (binary op (tree_at store.old i) (unary Unary.Size (tree_at store.old a)))) }
    ensures grows { Grows store.old store.new }
{
    let size = add_unary(store, Unary::Size, a)?;
    add_binary(store, op, i, size)
}

/// The number of the claim that a place is in a sequence's range.
fn is_in_range(store: &mut TermStore, a: usize, i: usize) -> Result<usize, NoMemory>
    requires left { a < length store.old }
    requires right { i < length store.old }
    ensures number { IfOk result (λ k. Holds store.new k (both_hold (binary Binary.Le (literal (pos 0)) (tree_at store.old i)) (binary Binary.Lt (tree_at store.old i) (unary Unary.Size (tree_at store.old a))))) }
    ensures grows { Grows store.old store.new }
{
    let low = at_least(store, 0, i)?;
    let high = beside_size(store, Binary::Lt, i, a)?;
    add_binary(store, Binary::And, low, high)
}

/// The number of the condition under which the place that is read is the one that was updated, and is in range.
pub fn is_updated_place(
    store: &mut TermStore,
    a: usize,
    i: usize,
    j: usize,
) -> Result<usize, NoMemory>
    requires sequence { a < length store.old }
    requires updated { i < length store.old }
    requires read { j < length store.old }
    ensures number { IfOk result (λ k. Holds store.new k (is_updated_place_tree (tree_at store.old a) (tree_at store.old i) (tree_at store.old j))) }
    ensures grows { Grows store.old store.new }
{
    let same = add_binary(store, Binary::Eq, i, j)?;
    let range = is_in_range(store, a, i)?;
    add_binary(store, Binary::And, same, range)
}

/// The number of the equality of a field of two records.
pub fn field_equality(
    store: &mut TermStore,
    place: u32,
    a: usize,
    b: usize,
) -> Result<usize, NoMemory>
    requires left { a < length store.old }
    requires right { b < length store.old }
    ensures number { IfOk result (λ k. Holds store.new k (are_equal (field place (tree_at store.old a)) (field place (tree_at store.old b)))) }
    ensures grows { Grows store.old store.new }
{
    let left = add_unary(store, Unary::Field(place), a)?;
    let right = add_unary(store, Unary::Field(place), b)?;
    add_binary(store, Binary::Eq, left, right)
}
