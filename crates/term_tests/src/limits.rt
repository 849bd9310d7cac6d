//! Terms of 20,000 nodes and of height 1,000.

use lk_terms::{
    Form, Sort, Term, compare, copy, form_term, is_closed, linear_form, measure, substitute,
};
use slang_values::{Binary, Quantifier};
use sqlite_items::{Boxed, Items};
use std::alloc::Global;
use std::cmp::Ordering;
use std::test::Fail;

/// `a op (a op (.. op a))`, of that height; each `a` is the bound variable or the symbol 0.
fn tower(alloc: Global, op: Binary, is_bound: bool, height: u32) -> Result<Boxed<Term>, Fail> {
    let mut whole = Boxed::new(alloc, operand(is_bound))?;
    for _ in 1..height {
        let next = Term::binary(alloc, op, operand(is_bound), whole.into_inner())?;
        whole = Boxed::new(alloc, next)?;
    }
    Ok(whole)
}

fn operand(is_bound: bool) -> Term {
    if is_bound {
        Term::Bound(0)
    } else {
        Term::Symbol(0)
    }
}

/// So many quantifiers around the bound variable of that number.
fn nested(alloc: Global, count: u32, number: u32) -> Result<Boxed<Term>, Fail> {
    let mut whole = Boxed::new(alloc, Term::Bound(number))?;
    for _ in 0..count {
        let (low, high) = (Term::Lit(0), Term::Lit(5));
        let next = Term::quantified(alloc, Quantifier::All, low, high, whole.into_inner())?;
        whole = Boxed::new(alloc, next)?;
    }
    Ok(whole)
}

/// A read of 18,001 elements at a place of height 999.
fn greatest(alloc: Global) -> Result<Boxed<Term>, Fail> {
    let place = tower(alloc, Binary::Add, true, 999)?;
    let mut elements = Items::new(alloc);
    for _ in 0..18001 {
        elements.push(Term::Bound(0))?;
    }
    let sequence = Boxed::new(alloc, Term::SeqLit(Sort::Z, elements))?;
    Ok(Boxed::new(alloc, Term::Read(sequence, place))?)
}

fn has_size(given: &Term, nodes: u64, height: u64) -> bool {
    let size = measure(given);
    size.nodes == nodes && size.height == height
}

#[test]
fn of_the_greatest_size(rt: HostRuntime) -> Result<(), Fail> {
    let alloc = rt.alloc();
    let given = greatest(alloc)?;
    assert!(rt; has_size(given.get(), 20000, 1000));
    let same = Boxed::new(alloc, copy(alloc, given.get())?)?;
    assert!(rt; compare(given.get(), same.get()) == Ordering::Equal);
    let by = Boxed::new(alloc, Term::Lit(7))?;
    assert!(rt; is_put_in(alloc, given.get(), by.get())?);
    Ok(())
}

/// Each of its 19,000 leaves is the bound variable 0, which is loose.
fn is_put_in(alloc: Global, given: &Term, by: &Term) -> Result<bool, Fail> {
    if is_closed(given) || !is_closed(by) {
        return Ok(false);
    }
    let closed = Boxed::new(alloc, substitute(alloc, given, 0, by)?)?;
    let is_less = compare(closed.get(), given) == Ordering::Less;
    Ok(is_less && is_closed(closed.get()) && has_size(closed.get(), 20000, 1000))
}

/// Below 999 quantifiers bound variable 999 is the first loose one.
#[test]
fn of_the_greatest_depth(rt: HostRuntime) -> Result<(), Fail> {
    let alloc = rt.alloc();
    assert!(rt; is_closed(nested(alloc, 999, 998)?.get()));
    let deep = nested(alloc, 999, 999)?;
    assert!(rt; has_size(deep.get(), 2998, 1000));
    assert!(rt; is_closed_by_a_number(alloc, deep.get())?);
    Ok(())
}

fn is_closed_by_a_number(alloc: Global, given: &Term) -> Result<bool, Fail> {
    let by = Boxed::new(alloc, Term::Lit(7))?;
    if is_closed(given) || !is_closed(by.get()) {
        return Ok(false);
    }
    let closed = Boxed::new(alloc, substitute(alloc, given, 0, by.get())?)?;
    Ok(is_closed(closed.get()))
}

/// The sum of 2^height symbols, from the last to the first.
fn wide_sum(alloc: Global, height: u32, first: u32) -> Result<Boxed<Term>, Fail> {
    if height == 0 {
        return Ok(Boxed::new(alloc, Term::Symbol(first))?);
    }
    let half = wide_sum(alloc, height - 1, first.wrapping_mul(2).wrapping_add(1))?;
    let other = wide_sum(alloc, height - 1, first.wrapping_mul(2))?;
    Ok(Boxed::new(alloc, Term::Add(half, other))?)
}

fn form(alloc: Global, given: &Term) -> Result<Form, Fail> {
    Ok(linear_form(alloc, given).map_err(|_| "no form")?)
}

#[test]
fn forms_of_the_greatest_height(rt: HostRuntime) -> Result<(), Fail> {
    let alloc = rt.alloc();
    let sum = form(alloc, tower(alloc, Binary::Add, false, 1000)?.get())?;
    assert!(rt; sum.parts.iter().map(|part| part.times).eq([1000]));
    let power = form(alloc, tower(alloc, Binary::Mul, false, 1000)?.get())?;
    let whole = Boxed::new(alloc, form_term(alloc, &power)?)?;
    assert!(rt; has_size(whole.get(), 1999, 1000));
    Ok(())
}

#[test]
fn forms_of_many_nodes(rt: HostRuntime) -> Result<(), Fail> {
    let alloc = rt.alloc();
    let given = wide_sum(alloc, 13, 0)?;
    assert!(rt; has_size(given.get(), 16383, 14));
    let sum = form(alloc, given.get())?;
    assert!(rt; are_symbols(&sum, 8192));
    Ok(())
}

/// Whether it is the sum of so many symbols, from the first on.
fn are_symbols(sum: &Form, count: u32) -> bool {
    for (part, number) in sum.parts.iter().zip(0..count) {
        let is_next = match &part.atom {
            Term::Symbol(symbol) => *symbol == number,
            _ => false,
        };
        if part.times != 1 || !is_next {
            return false;
        }
    }
    sum.parts.len() == count as usize
}
