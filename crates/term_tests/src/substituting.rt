//! Terms in place of bound variables, and which bound variables are loose.

use crate::made::{is_spelled, term};
use lk_terms::{Term, is_closed, substitute};
use sqlite_items::Boxed;
use std::alloc::Global;
use std::test::Fail;

/// A term, the number of a bound variable, what is put in its place, and the term with it.
type Case = (&'static str, u32, &'static str, &'static str);

const CASES: [Case; 26] = [
    ("b0", 0, "x", "x"),
    ("b0", 1, "x", "b0"),
    ("b1", 0, "x", "b1"),
    ("y", 0, "x", "y"),
    // Below each operator.
    ("b0 neg", 0, "x", "x neg"),
    ("b0 b1 + b0 *", 0, "2 x +", "2 x + b1 + 2 x + *"),
    ("s b0 at", 0, "x", "s x at"),
    ("s b0 b1 upd", 1, "x", "s b0 x upd"),
    ("b0 b1 Z:2", 1, "x", "b0 x Z:2"),
    ("b0 T b0 rec1:3", 0, "x", "x T x rec1:3"),
    // The ends of a quantifier are outside it; in its body each number is one more.
    ("b0 b1 b0 b1 + b2 < all", 0, "x", "x b1 b0 x + b2 < all"),
    ("b0 b1 b0 b1 + b2 < all", 1, "x", "b0 x b0 b1 + x < all"),
    (
        "0 5 b1 b0 b2 b1 b0 + < all exists",
        0,
        "x",
        "0 5 x b0 x b1 b0 + < all exists",
    ),
    ("0 5 b0 7 == exists", 0, "x", "0 5 b0 7 == exists"),
    // What is put in has quantifiers of its own, which are not entered.
    (
        "0 9 b1 b0 rec:2 all",
        0,
        "0 5 b0 7 == exists",
        "0 9 0 5 b0 7 == exists b0 rec:2 all",
    ),
    (
        "b0 b1 rec:2",
        0,
        "0 5 0 b0 b1 b0 < all exists",
        "0 5 0 b0 b1 b0 < all exists b1 rec:2",
    ),
    // The last numbers.
    ("b4294967295", 4294967295, "x", "x"),
    ("b4294967295", 4294967294, "x", "b4294967295"),
    ("b0", 4294967295, "x", "b0"),
    (
        "0 5 b4294967295 b0 < all",
        4294967294,
        "x",
        "0 5 x b0 < all",
    ),
    // Past the last number no bound variable is meant.
    (
        "0 5 b4294967295 b0 < all",
        4294967295,
        "x",
        "0 5 b4294967295 b0 < all",
    ),
    (
        "b4294967295 5 b4294967295 all",
        4294967295,
        "x",
        "x 5 b4294967295 all",
    ),
    (
        "0 5 b4294967295 b4294967294 b4294967295 all exists",
        4294967293,
        "x",
        "0 5 b4294967295 x x all exists",
    ),
    (
        "0 5 b4294967295 b4294967294 b4294967295 all exists",
        4294967294,
        "x",
        "0 5 x b4294967294 b4294967295 all exists",
    ),
    (
        "0 5 b4294967295 b4294967294 b0 all exists",
        4294967295,
        "x",
        "0 5 b4294967295 b4294967294 b0 all exists",
    ),
    (
        "0 5 0 5 0 5 b0 all all all",
        4294967295,
        "x",
        "0 5 0 5 0 5 b0 all all all",
    ),
];

fn is_so(alloc: Global, case: &Case) -> Result<bool, Fail> {
    let (words, bound, by, whole) = *case;
    let by = term(alloc, by)?;
    is_put_in(alloc, words, bound, by.get(), whole)
}

fn is_put_in(alloc: Global, words: &str, bound: u32, by: &Term, whole: &str) -> Result<bool, Fail> {
    if !is_closed(by) {
        return Ok(false);
    }
    let given = term(alloc, words)?;
    let made = Boxed::new(alloc, substitute(alloc, given.get(), bound, by)?)?;
    is_spelled(alloc, made.get(), whole)
}

const CLOSED: [(&str, bool); 20] = [
    ("5", true),
    ("x", true),
    ("b0", false),
    ("b4294967295", false),
    ("b0 neg", false),
    ("x b0 +", false),
    ("b0 x +", false),
    ("s b0 1 upd", false),
    ("s 1 b0 upd", false),
    ("0 b0 Z:2", false),
    ("x T b1 rec1:3", false),
    ("x T y rec1:3", true),
    ("0 5 b0 all", true),
    ("0 5 b1 all", false),
    ("b0 5 T all", false),
    ("0 b0 T exists", false),
    ("0 5 0 b0 b1 b0 < all exists", true),
    ("0 5 0 b1 b0 all exists", false),
    ("0 5 0 5 b2 all exists", false),
    ("0 5 b4294967295 all", false),
];

#[test]
fn substitutions(rt: HostRuntime) -> Result<(), Fail> {
    let alloc = rt.alloc();
    for case in &CASES {
        let words = case.0;
        assert!(rt; is_so(alloc, case)?, "{words}");
    }
    for (words, closed) in &CLOSED {
        assert!(rt; is_closed(term(alloc, words)?.get()) == *closed, "{words}");
    }
    Ok(())
}
