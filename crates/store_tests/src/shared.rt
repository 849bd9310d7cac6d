//! Terms that are added one after another, with the number that each gets and how many trees the store has then.

use slang_values::{Binary, Unary};
use sqlite_items::{Boxed, Items};
use std::alloc::Global;
use std::test::Fail;
use term_store::TermStore;
use term_trees::{Sort, Term};

/// How a term is made of a symbol. Each kind is another term.
#[derive(Clone, Copy)]
enum Made {
    Symbol(u32),
    Unary(Unary),
    /// Of the symbol twice.
    Binary(Binary),
    /// The product of the symbol with itself, twice.
    Twice(Binary),
    NoNumbers,
    NoTruths,
    NoRecords(u32),
    Record(u32),
}

const ADDED: [(Made, usize, usize); 18] = [
    (Made::Symbol(0), 0, 1),
    (Made::Symbol(1), 1, 2),
    (Made::Symbol(0), 0, 2),
    (Made::Binary(Binary::Div), 2, 3),
    (Made::Binary(Binary::Rem), 3, 4),
    (Made::Binary(Binary::Div), 2, 4),
    (Made::Unary(Unary::Field(0)), 4, 5),
    (Made::Unary(Unary::Field(1)), 5, 6),
    (Made::Unary(Unary::Size), 6, 7),
    // The product is one tree more, and the sum another.
    (Made::Twice(Binary::Add), 8, 9),
    (Made::Binary(Binary::Mul), 7, 9),
    (Made::NoNumbers, 9, 10),
    (Made::NoTruths, 10, 11),
    (Made::NoRecords(0), 11, 12),
    (Made::NoRecords(1), 12, 13),
    (Made::Record(0), 13, 14),
    (Made::Record(1), 14, 15),
    (Made::NoRecords(1), 12, 15),
];

fn binary(alloc: Global, op: Binary, a: Term, b: Term) -> Result<Boxed<Term>, Fail> {
    Ok(Boxed::new(alloc, Term::binary(alloc, op, a, b)?)?)
}

fn twice(alloc: Global, op: Binary) -> Result<Boxed<Term>, Fail> {
    let first = binary(alloc, Binary::Mul, Term::Symbol(0), Term::Symbol(0))?;
    let second = binary(alloc, Binary::Mul, Term::Symbol(0), Term::Symbol(0))?;
    binary(alloc, op, first.into_inner(), second.into_inner())
}

fn empty(alloc: Global, sort: Sort) -> Result<Boxed<Term>, Fail> {
    Ok(Boxed::new(alloc, Term::SeqLit(sort, Items::new(alloc)))?)
}

fn record(alloc: Global, number: u32) -> Result<Boxed<Term>, Fail> {
    let mut fields = Items::new(alloc);
    fields.push(Term::Symbol(0))?;
    Ok(Boxed::new(alloc, Term::Rec(number, fields))?)
}

fn term_of(alloc: Global, how: Made) -> Result<Boxed<Term>, Fail> {
    match how {
        Made::Symbol(n) => Ok(Boxed::new(alloc, Term::Symbol(n))?),
        Made::Unary(op) => Ok(Boxed::new(alloc, Term::unary(alloc, op, Term::Symbol(0))?)?),
        Made::Binary(op) => binary(alloc, op, Term::Symbol(0), Term::Symbol(0)),
        Made::Twice(op) => twice(alloc, op),
        Made::NoNumbers => empty(alloc, Sort::Z),
        Made::NoTruths => empty(alloc, Sort::B),
        Made::NoRecords(n) => empty(alloc, Sort::Rec(n)),
        Made::Record(n) => record(alloc, n),
    }
}

/// The first row that does not hold.
fn first_wrong(alloc: Global) -> Result<Option<usize>, Fail> {
    let mut store = TermStore::new(alloc);
    for (row, (how, number, count)) in ADDED.iter().enumerate() {
        let term = term_of(alloc, *how)?;
        let id = store.add(term.get())?;
        if id != *number || store.len() != *count {
            return Ok(Some(row));
        }
    }
    Ok(None)
}

#[test]
fn each_tree_has_one_number(rt: HostRuntime) -> Result<(), Fail> {
    let wrong = first_wrong(rt.alloc())?;
    assert!(rt; wrong.is_none());
    Ok(())
}
