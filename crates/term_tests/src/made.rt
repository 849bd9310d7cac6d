//! Terms from words.

use lk_terms::{Sort, Term, compare};
use owned_results::both;
use slang_values::{Binary, Quantifier, Unary};
use sqlite_items::{Boxed, Items};
use std::alloc::{AllocError, Global};
use std::cmp::Ordering;
use std::test::Fail;

/// What a word makes of the terms in front of it.
#[derive(Clone, Copy)]
enum Head {
    Unary(Unary),
    Binary(Binary),
    Update,
    Quantified(Quantifier),
    /// Of so many elements.
    Sequence(Element, usize),
    /// The record of that number, of so many fields.
    Record(u32, usize),
}

/// What a sequence holds.
#[derive(Clone, Copy)]
enum Element {
    Number,
    Truth,
    /// Sequences of numbers.
    Numbers,
    /// The record of that number.
    Record(u32),
}

const HEADS: [(&str, Head); 34] = [
    ("neg", Head::Unary(Unary::Neg)),
    ("not", Head::Unary(Unary::Not)),
    ("size", Head::Unary(Unary::Size)),
    (".0", Head::Unary(Unary::Field(0))),
    (".1", Head::Unary(Unary::Field(1))),
    (".4294967295", Head::Unary(Unary::Field(4294967295))),
    ("+", Head::Binary(Binary::Add)),
    ("-", Head::Binary(Binary::Sub)),
    ("*", Head::Binary(Binary::Mul)),
    ("/", Head::Binary(Binary::Div)),
    ("%", Head::Binary(Binary::Rem)),
    ("&", Head::Binary(Binary::And)),
    ("|", Head::Binary(Binary::Or)),
    ("->:", Head::Binary(Binary::Imply)),
    ("==", Head::Binary(Binary::Eq)),
    ("<", Head::Binary(Binary::Lt)),
    ("<=", Head::Binary(Binary::Le)),
    ("at", Head::Binary(Binary::Read)),
    (":+", Head::Binary(Binary::Append)),
    ("upd", Head::Update),
    ("all", Head::Quantified(Quantifier::All)),
    ("exists", Head::Quantified(Quantifier::Exists)),
    ("Z:0", Head::Sequence(Element::Number, 0)),
    ("Z:1", Head::Sequence(Element::Number, 1)),
    ("Z:2", Head::Sequence(Element::Number, 2)),
    ("B:0", Head::Sequence(Element::Truth, 0)),
    ("B:1", Head::Sequence(Element::Truth, 1)),
    ("ZZ:0", Head::Sequence(Element::Numbers, 0)),
    ("ZZ:1", Head::Sequence(Element::Numbers, 1)),
    ("R:0", Head::Sequence(Element::Record(0), 0)),
    ("R1:0", Head::Sequence(Element::Record(1), 0)),
    ("rec:2", Head::Record(0, 2)),
    ("rec1:0", Head::Record(1, 0)),
    ("rec1:3", Head::Record(1, 3)),
];

/// The terms that wait for their operator. In a box a term is let go by one call.
type Stack = Items<Boxed<Term>>;

/// The term that the words spell, each operator behind its parts, as `x 2 *`. A small letter is a symbol, and `b0` the
/// innermost bound variable.
pub(crate) fn term(alloc: Global, words: &str) -> Result<Boxed<Term>, Fail> {
    let mut stack = Items::new(alloc);
    read(alloc, &mut stack, words)?;
    Ok(stack.pop().ok_or("no term")?)
}

/// Whether it is the term that the words spell.
pub(crate) fn is_spelled(alloc: Global, given: &Term, words: &str) -> Result<bool, Fail> {
    Ok(compare(given, term(alloc, words)?.get()) == Ordering::Equal)
}

fn read(alloc: Global, stack: &mut Stack, words: &str) -> Result<(), Fail> {
    for word in words.split(' ') {
        let made = match head_of(word) {
            Some(head) => headed(alloc, stack, head)?,
            None => leaf(word)?,
        };
        stack.push(Boxed::new(alloc, made)?)?;
    }
    Ok(())
}

fn head_of(word: &str) -> Option<Head> {
    for (sign, head) in &HEADS {
        if *sign == word {
            return Some(*head);
        }
    }
    None
}

/// A truth value, a symbol, by its letter, a bound variable or a number.
fn leaf(word: &str) -> Result<Term, Fail> {
    match word {
        "T" => return Ok(Term::truth(true)),
        "F" => return Ok(Term::truth(false)),
        _ => {}
    }
    if let [letter @ b'a'..=b'z'] = word.as_bytes() {
        return Ok(Term::Symbol(u32::from(*letter - b'a')));
    }
    if let Some(digits) = word.strip_prefix('b') {
        return Ok(Term::Bound(digits.parse::<u32>().map_err(|_| "no number")?));
    }
    Ok(Term::Lit(word.parse::<i128>().map_err(|_| "no number")?))
}

/// The term of this operator and of the last terms, which are taken.
fn headed(alloc: Global, stack: &mut Stack, head: Head) -> Result<Term, Fail> {
    if stack.len() < part_count(head) {
        return Err(Fail::from("no part"));
    }
    match head {
        Head::Unary(op) => Ok(Term::unary(alloc, op, last(stack))?),
        Head::Binary(op) => {
            let (b, a) = (last(stack), last(stack));
            Ok(Term::binary(alloc, op, a, b)?)
        }
        Head::Update => {
            let (x, i, a) = (last(stack), last(stack), last(stack));
            Ok(Term::update(alloc, a, i, x)?)
        }
        Head::Quantified(quantifier) => {
            let (body, high, low) = (last(stack), last(stack), last(stack));
            Ok(Term::quantified(alloc, quantifier, low, high, body)?)
        }
        Head::Sequence(element, count) => {
            let (sort, parts) = both(sort_of(alloc, element), last_of(alloc, stack, count))?;
            Ok(Term::SeqLit(sort, parts))
        }
        Head::Record(number, count) => Ok(Term::Rec(number, last_of(alloc, stack, count)?)),
    }
}

fn part_count(head: Head) -> usize {
    match head {
        Head::Unary(_) => 1,
        Head::Binary(_) => 2,
        Head::Update | Head::Quantified(_) => 3,
        Head::Sequence(_, count) | Head::Record(_, count) => count,
    }
}

fn sort_of(alloc: Global, element: Element) -> Result<Sort, AllocError> {
    match element {
        Element::Number => Ok(Sort::Z),
        Element::Truth => Ok(Sort::B),
        Element::Numbers => Ok(Sort::Seq(Boxed::new(alloc, Sort::Z)?)),
        Element::Record(number) => Ok(Sort::Rec(number)),
    }
}

/// The last term, or 0 where there is none.
fn last(stack: &mut Stack) -> Term {
    match stack.pop() {
        Some(term) => term.into_inner(),
        None => Term::Lit(0),
    }
}

/// So many terms, from the left.
fn last_of(alloc: Global, stack: &mut Stack, count: usize) -> Result<Items<Term>, AllocError> {
    let mut turned = Items::new(alloc);
    move_last(stack, &mut turned, count)?;
    let mut parts = Items::new(alloc);
    for _ in 0..count {
        parts.push(last(&mut turned))?;
    }
    Ok(parts)
}

/// Moves so many terms, the last first.
fn move_last(from: &mut Stack, to: &mut Stack, count: usize) -> Result<(), AllocError> {
    for _ in 0..count {
        if let Some(term) = from.pop() {
            to.push(term)?;
        }
    }
    Ok(())
}
