//! What terms are taken apart into, their order, their copies and their sizes.

use crate::made::{is_spelled, term};
use lk_terms::{Shape, Sort, Term, compare, copy, measure};
use sqlite_items::{Boxed, Items};
use std::alloc::Global;
use std::cmp::Ordering;
use std::test::Fail;

/// Each before the next: by kind, then by the number or the sort in the node, then by how many parts, then by the
/// parts.
const ORDERED: [&str; 70] = [
    "-170141183460469231731687303715884105728",
    "-1",
    "0",
    "1",
    "170141183460469231731687303715884105727",
    "T",
    "F",
    "a",
    "c",
    "z",
    "b0",
    "b1",
    "b4294967295",
    "a neg",
    "c neg",
    "T not",
    "F not",
    "a a +",
    "a c +",
    "c a +",
    "0 0 -",
    "b1 1 *",
    "b1 2 *",
    "0 0 /",
    "0 0 %",
    "T T &",
    "T T |",
    "T F ->:",
    "F T ->:",
    "0 0 ==",
    "0 0 <",
    "0 0 <=",
    "c size",
    "a z at",
    "c a at",
    "c 0 0 upd",
    "c 0 1 upd",
    "c 1 0 upd",
    "z 0 0 upd",
    "a 0 :+",
    "a 1 :+",
    // Sequences by their elements' sort, then by their count.
    "Z:0",
    "a Z:1",
    "c Z:1",
    "0 0 Z:2",
    "0 1 Z:2",
    "B:0",
    "T B:1",
    "ZZ:0",
    "Z:0 ZZ:1",
    "a Z:1 ZZ:1",
    "R:0",
    "R1:0",
    // Records by their number.
    "0 0 rec:2",
    "0 T rec:2",
    "a 0 rec:2",
    "rec1:0",
    "0 0 0 rec1:3",
    "0 0 1 rec1:3",
    // Fields by their place.
    "c .0",
    "z .0",
    "a .1",
    "a .4294967295",
    "0 5 T all",
    "0 5 F all",
    "0 5 b0 all",
    "0 6 T all",
    "1 5 T all",
    "0 5 T exists",
    "0 5 0 5 T all exists",
];

#[test]
fn order_and_copies(rt: HostRuntime) -> Result<(), Fail> {
    let alloc = rt.alloc();
    let mut terms = Items::new(alloc);
    for words in &ORDERED {
        terms.push(term(alloc, words)?)?;
    }
    in_order(alloc, terms.as_slice())
}

/// Each is before the next ones and equal to its copy alone.
fn in_order(alloc: Global, terms: &[Boxed<Term>]) -> Result<(), Fail> {
    for (i, a) in terms.iter().enumerate() {
        for (j, b) in terms.iter().enumerate() {
            if compare(a.get(), b.get()) != i.cmp(&j) {
                return Err(Fail::from("two terms are out of order"));
            }
        }
        let same = Boxed::new(alloc, copy(alloc, a.get())?)?;
        if compare(same.get(), a.get()) != Ordering::Equal {
            return Err(Fail::from("a copy is another term"));
        }
    }
    Ok(())
}

/// A term, what it is, its nodes and its height, and its parts.
type Case = (
    &'static str,
    &'static str,
    u64,
    u64,
    &'static [&'static str],
);

const SHAPES: [Case; 18] = [
    ("5", "literal", 1, 1, &[]),
    ("T", "truth", 1, 1, &[]),
    ("x", "symbol", 1, 1, &[]),
    ("b0", "bound", 1, 1, &[]),
    ("x y + neg", "unary", 4, 3, &["x y +"]),
    ("p not", "unary", 2, 2, &["p"]),
    ("r .1", "unary", 2, 2, &["r"]),
    ("x y z * -", "binary", 5, 3, &["x", "y z *"]),
    ("x y z * z - at", "binary", 7, 4, &["x", "y z * z -"]),
    ("s i x neg upd", "update", 5, 3, &["s", "i", "x neg"]),
    (
        "0 x 1 + b0 b1 < all",
        "quantified",
        8,
        3,
        &["0", "x 1 +", "b0 b1 <"],
    ),
    (
        "x neg neg y T exists",
        "quantified",
        6,
        4,
        &["x neg neg", "y", "T"],
    ),
    ("Z:0", "sequence", 1, 1, &[]),
    ("x Z:1", "sequence", 2, 2, &["x"]),
    ("x 2 y * Z:2", "sequence", 5, 3, &["x", "2 y *"]),
    ("x Z:1 ZZ:1", "sequence", 3, 3, &["x Z:1"]),
    ("rec1:0", "record", 1, 1, &[]),
    ("x neg T Z:0 rec1:3", "record", 5, 3, &["x neg", "T", "Z:0"]),
];

fn kind(term: &Term) -> &'static str {
    match term.shape() {
        Shape::Literal(_) => "literal",
        Shape::Truth(_) => "truth",
        Shape::Symbol(_) => "symbol",
        Shape::Bound(_) => "bound",
        Shape::Unary(_, _) => "unary",
        Shape::Binary(_, _, _) => "binary",
        Shape::Update(_, _, _) => "update",
        Shape::Quantified(_, _, _, _) => "quantified",
        Shape::Sequence(_, _) => "sequence",
        Shape::Record(_, _) => "record",
    }
}

fn is_so(alloc: Global, given: &Term, case: &Case) -> Result<bool, Fail> {
    let (_, what, nodes, height, parts) = *case;
    let size = measure(given);
    if kind(given) != what || size.nodes != nodes || size.height != height {
        return Ok(false);
    }
    if given.part_count() != parts.len() {
        return Ok(false);
    }
    for (place, words) in parts.iter().enumerate() {
        if place >= given.part_count() || !is_spelled(alloc, given.part(place), words)? {
            return Ok(false);
        }
    }
    Ok(true)
}

#[test]
fn shapes_and_sizes(rt: HostRuntime) -> Result<(), Fail> {
    let alloc = rt.alloc();
    for case in &SHAPES {
        let words = case.0;
        let given = term(alloc, words)?;
        assert!(rt; is_so(alloc, given.get(), case)?, "{words}");
    }
    Ok(())
}

#[test]
fn copied_sorts(rt: HostRuntime) -> Result<(), Fail> {
    let alloc = rt.alloc();
    let sort = Sort::Seq(Boxed::new(alloc, Sort::Rec(7))?);
    let same = sort.copy(alloc)?;
    assert!(rt; is_sequence_of_record(&same, 7));
    Ok(())
}

fn is_sequence_of_record(sort: &Sort, number: u32) -> bool {
    match sort {
        Sort::Seq(element) => match element.get() {
            Sort::Rec(n) => *n == number,
            _ => false,
        },
        _ => false,
    }
}
