//! Forms and their terms, and terms that have none.

use crate::made::{is_spelled, term};
use lk_terms::{Form, FormEnd, form_term, linear_form};
use sqlite_items::Boxed;
use std::alloc::Global;
use std::test::Fail;

/// A term, the parts of its form as times and atoms, the constant, and the term of the form.
type Case = (
    &'static str,
    &'static [(i128, &'static str)],
    i128,
    &'static str,
);

fn is_so(alloc: Global, case: &Case) -> Result<bool, Fail> {
    let given = term(alloc, case.0)?;
    match linear_form(alloc, given.get()) {
        Ok(form) => is_form(alloc, &form, case),
        Err(_) => Ok(false),
    }
}

fn is_form(alloc: Global, form: &Form, case: &Case) -> Result<bool, Fail> {
    let (_, parts, constant, whole) = *case;
    if form.parts.len() != parts.len() || form.constant != constant {
        return Ok(false);
    }
    for (part, (times, atom)) in form.parts.iter().zip(parts) {
        if part.times != *times || !is_spelled(alloc, &part.atom, atom)? {
            return Ok(false);
        }
    }
    let of_form = Boxed::new(alloc, form_term(alloc, form)?)?;
    is_spelled(alloc, of_form.get(), whole)
}

const CASES: [Case; 50] = [
    // Numbers, and atoms that cancel.
    ("5", &[], 5, "5"),
    ("x", &[(1, "x")], 0, "x"),
    ("x x + 2 x * -", &[], 0, "0"),
    ("5 x +", &[(1, "x")], 5, "x 5 +"),
    (
        "3 x y - * y y * + y y * -",
        &[(3, "x"), (-3, "y")],
        0,
        "3 x * -3 y * +",
    ),
    ("y x - neg", &[(1, "x"), (-1, "y")], 0, "x -1 y * +"),
    ("x x - 5 -", &[], -5, "-5"),
    ("z y x + +", &[(1, "x"), (1, "y"), (1, "z")], 0, "x y + z +"),
    // Symbols come before bound variables, and products behind both.
    (
        "b1 b0 + x + b0 +",
        &[(1, "x"), (2, "b0"), (1, "b1")],
        0,
        "x 2 b0 * + b1 +",
    ),
    ("y z * x +", &[(1, "x"), (1, "y z *")], 0, "x y z * +"),
    // One factor is constant.
    ("2 3 + x y + *", &[(5, "x"), (5, "y")], 0, "5 x * 5 y * +"),
    ("x y + -1 *", &[(-1, "x"), (-1, "y")], 0, "-1 x * -1 y * +"),
    ("x y + 0 *", &[], 0, "0"),
    ("x x - y *", &[], 0, "0"),
    // Neither is; the lesser term stands first.
    ("x y + z 1 + *", &[(1, "x y + z 1 + *")], 0, "x y + z 1 + *"),
    ("1 z + y x + *", &[(1, "x y + z 1 + *")], 0, "x y + z 1 + *"),
    ("x y * y x * -", &[], 0, "0"),
    ("x y * z *", &[(1, "z x y * *")], 0, "z x y * *"),
    ("2 x * y *", &[(1, "y 2 x * *")], 0, "y 2 x * *"),
    ("x x * x x * +", &[(2, "x x *")], 0, "2 x x * *"),
    ("x 3 /", &[(1, "x 3 /")], 0, "x 3 /"),
    ("x 3 %", &[(1, "x"), (-3, "x 3 /")], 0, "x -3 x 3 / * +"),
    ("x 3 % 3 x 3 / * +", &[(1, "x")], 0, "x"),
    ("x 1 2 + %", &[(1, "x"), (-3, "x 3 /")], 0, "x -3 x 3 / * +"),
    ("x 1 %", &[(1, "x"), (-1, "x 1 /")], 0, "x -1 x 1 / * +"),
    ("7 3 %", &[(-3, "7 3 /")], 7, "-3 7 3 / * 7 +"),
    ("7 3 /", &[(1, "7 3 /")], 0, "7 3 /"),
    (
        "y x + 1 + 3 %",
        &[(1, "x"), (1, "y"), (-3, "x y + 1 + 3 /")],
        1,
        "x y + -3 x y + 1 + 3 / * + 1 +",
    ),
    // Divisors below 1, and such as are not constant.
    ("x 0 %", &[(1, "x 0 %")], 0, "x 0 %"),
    ("x -3 %", &[(1, "x -3 %")], 0, "x -3 %"),
    ("x y y - %", &[(1, "x 0 %")], 0, "x 0 %"),
    ("x x + y %", &[(1, "2 x * y %")], 0, "2 x * y %"),
    ("s size s size +", &[(2, "s size")], 0, "2 s size *"),
    (
        "r .0 s x at + s size +",
        &[(1, "s size"), (1, "s x at"), (1, "r .0")],
        0,
        "s size s x at + r .0 +",
    ),
    // A number in an atom is the term of its form, at every depth.
    ("s x x + at", &[(1, "s 2 x * at")], 0, "s 2 x * at"),
    ("s s 1 1 + at at", &[(1, "s s 2 at at")], 0, "s s 2 at at"),
    (
        "s 1 x + y y - upd size",
        &[(1, "s x 1 + 0 upd size")],
        0,
        "s x 1 + 0 upd size",
    ),
    (
        "x x - y 0 + Z:2 size",
        &[(1, "0 y Z:2 size")],
        0,
        "0 y Z:2 size",
    ),
    ("s x 0 + :+ x at", &[(1, "s x :+ x at")], 0, "s x :+ x at"),
    (
        "x x + 1 2 + rec:2 .1",
        &[(1, "2 x * 3 rec:2 .1")],
        0,
        "2 x * 3 rec:2 .1",
    ),
    // Below a quantifier too.
    (
        "1 1 + 5 b0 b1 + b0 - 3 < all 7 rec:2 .1",
        &[(1, "2 5 b1 3 < all 7 rec:2 .1")],
        0,
        "2 5 b1 3 < all 7 rec:2 .1",
    ),
    (
        "0 y 1 - x x == not exists 7 rec:2 .1",
        &[(1, "0 y -1 + x x == not exists 7 rec:2 .1")],
        0,
        "0 y -1 + x x == not exists 7 rec:2 .1",
    ),
    // Terms that are no numbers.
    ("x x + 2 <", &[(1, "2 x * 2 <")], 0, "2 x * 2 <"),
    (
        "T F & x 1 1 - <= |",
        &[(1, "T F & x 0 <= |")],
        0,
        "T F & x 0 <= |",
    ),
    (
        "1152921504606846976",
        &[],
        1152921504606846976,
        "1152921504606846976",
    ),
    (
        "-1152921504606846976",
        &[],
        -1152921504606846976,
        "-1152921504606846976",
    ),
    (
        "1152921504606846976 neg",
        &[],
        -1152921504606846976,
        "-1152921504606846976",
    ),
    (
        "1152921504606846975 1 +",
        &[],
        1152921504606846976,
        "1152921504606846976",
    ),
    (
        "1152921504606846976 x *",
        &[(1152921504606846976, "x")],
        0,
        "1152921504606846976 x *",
    ),
    (
        "x 1152921504606846976 %",
        &[(1, "x"), (-1152921504606846976, "x 1152921504606846976 /")],
        0,
        "x -1152921504606846976 x 1152921504606846976 / * +",
    ),
];

const WIDE: [&str; 16] = [
    // A literal past 2^60, and those at the ends of 128 bits.
    "1152921504606846977",
    "-1152921504606846977",
    "170141183460469231731687303715884105727",
    "-170141183460469231731687303715884105728",
    // A sum, a product, a times.
    "1152921504606846976 1 +",
    "-1152921504606846976 1 -",
    "1152921504606846976 1152921504606846976 *",
    "1152921504606846976 x * x +",
    "1152921504606846976 x * 2 *",
    // A part of a term that would itself be small.
    "1152921504606846976 1 + 1 -",
    "1152921504606846977 0 *",
    "1152921504606846976 x * x + x -",
    // A part of an atom, of a term that is no number, and of a quantifier's body.
    "s 1152921504606846977 at",
    "x 1152921504606846977 <",
    "x 1152921504606846977 Z:2 size",
    "0 5 b0 1152921504606846977 < all 7 rec:2 .1",
];

#[test]
fn forms(rt: HostRuntime) -> Result<(), Fail> {
    let alloc = rt.alloc();
    for case in &CASES {
        let words = case.0;
        assert!(rt; is_so(alloc, case)?, "{words}");
    }
    for words in &WIDE {
        assert!(rt; is_wide(alloc, words)?, "{words}");
    }
    Ok(())
}

fn is_wide(alloc: Global, words: &str) -> Result<bool, Fail> {
    let given = term(alloc, words)?;
    match linear_form(alloc, given.get()) {
        Ok(_) => Ok(false),
        Err(end) => Ok(end == FormEnd::Wide),
    }
}
