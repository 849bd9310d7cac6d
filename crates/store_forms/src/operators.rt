ghost use Rattle.std.specs.Prelude.{◌≡◌, ◌<◌, length, IfOk, true, neg_ℤ};
ghost use Rattle.slang_values.specs.Tree.{unary, binary, literal};
ghost use Rattle.tree_forms.specs.Form as forms;
ghost use Rattle.term_store.specs.Store.{tree_at, Holds, Grows};
ghost use Rattle.store_forms.specs.Form.{form_at, HaveAtoms, IsForm, IsSmall, ArePair};

use crate::adding::add_literal;
use crate::form::IdForm;
use crate::terms::form_term;
use crate::{NoMemory, numbers};
use slang_values::{Binary, Unary};
use std::alloc::Global;
use std::cmp::Ordering;
use store_order::compare;
use store_reads::{add_binary, add_unary};
use term_store::TermStore;

/// The form of a node with one part, from the part's form.
pub fn unary_form(
    alloc: Global,
    store: &mut TermStore,
    op: Unary,
    form: &IdForm,
) -> Result<IdForm, NoMemory>
    requires { IsSmall store.old form.now }
    ensures form { IfOk result (λ f. IsForm store.new f (forms.unary_form op (form_at store.old form.now))) }
    ensures grows { Grows store.old store.new }
{
    match op {
        Unary::Neg => form.times(alloc, -1),
        Unary::Not => unary_atom(alloc, store, Unary::Not, form),
        Unary::Size => unary_atom(alloc, store, Unary::Size, form),
        Unary::Field(k) => unary_atom(alloc, store, Unary::Field(k), form),
    }
}

fn unary_atom(
    alloc: Global,
    store: &mut TermStore,
    op: Unary,
    form: &IdForm,
) -> Result<IdForm, NoMemory>
    requires { HaveAtoms store.old form.now.parts.items }
    ensures form { IfOk result (λ f. IsForm store.new f (forms.atom_form (unary op (forms.form_term (form_at store.old form.now))))) }
    ensures grows { Grows store.old store.new }
{
    let part = form_term(store, form)?;
    let atom = add_unary(store, op, part)?;
    IdForm::of_atom(alloc, atom)
}

/// The form of a node with two parts, from their forms.
pub fn binary_form(
    alloc: Global,
    store: &mut TermStore,
    op: Binary,
    left: &IdForm,
    right: &IdForm,
) -> Result<IdForm, NoMemory>
    requires first { IsSmall store.old left.now }
    requires second { IsSmall store.old right.now }
    ensures form { IfOk result (λ f. IsForm store.new f (forms.binary_form op (form_at store.old left.now) (form_at store.old right.now))) }
    ensures grows { Grows store.old store.new }
{
    match op {
        Binary::Add => left.plus(alloc, store, right),
        Binary::Sub => difference(alloc, store, left, right),
        Binary::Mul => product(alloc, store, left, right),
        Binary::Rem => remainder(alloc, store, left, right),
        Binary::Div => binary_atom(alloc, store, Binary::Div, left, right),
        Binary::And => binary_atom(alloc, store, Binary::And, left, right),
        Binary::Or => binary_atom(alloc, store, Binary::Or, left, right),
        Binary::Imply => binary_atom(alloc, store, Binary::Imply, left, right),
        Binary::Eq => binary_atom(alloc, store, Binary::Eq, left, right),
        Binary::Lt => binary_atom(alloc, store, Binary::Lt, left, right),
        Binary::Le => binary_atom(alloc, store, Binary::Le, left, right),
        Binary::Read => binary_atom(alloc, store, Binary::Read, left, right),
        Binary::Append => binary_atom(alloc, store, Binary::Append, left, right),
    }
}

fn binary_atom(
    alloc: Global,
    store: &mut TermStore,
    op: Binary,
    left: &IdForm,
    right: &IdForm,
) -> Result<IdForm, NoMemory>
    requires first { HaveAtoms store.old left.now.parts.items }
    requires second { HaveAtoms store.old right.now.parts.items }
    ensures form { IfOk result
        (λ f. IsForm store.new f (forms.atom_form (binary op (forms.form_term (form_at store.old left.now)) (forms.form_term (form_at store.old right.now))))) }
    ensures grows { Grows store.old store.new }
{
    let terms = two_terms(store, left, right)?;
    let atom = add_binary(store, op, terms.0, terms.1)?;
    IdForm::of_atom(alloc, atom)
}

/// The numbers of the terms of two forms.
fn two_terms(
    store: &mut TermStore,
    left: &IdForm,
    right: &IdForm,
) -> Result<(usize, usize), NoMemory>
    requires first { HaveAtoms store.old left.now.parts.items }
    requires second { HaveAtoms store.old right.now.parts.items }
    ensures numbers { IfOk result (λ p. ArePair store.new p (forms.form_term (form_at store.old left.now)) (forms.form_term (form_at store.old right.now))) }
    ensures grows { Grows store.old store.new }
{
    let a = form_term(store, left)?;
    let b = form_term(store, right)?;
    Ok((a, b))
}

/// The form of a difference, from the forms of its parts.
pub fn difference(
    alloc: Global,
    store: &TermStore,
    left: &IdForm,
    right: &IdForm,
) -> Result<IdForm, NoMemory>
    requires first { IsSmall store.now left.now }
    requires second { IsSmall store.now right.now }
    ensures { IfOk result (λ f. IsForm store.now f (forms.binary_form Binary.Sub (form_at store.now left.now) (form_at store.now right.now))) }
{
    let negative = right.times(alloc, -1)?;
    left.plus(alloc, store, &negative)
}

/// A multiple, where one of the two is constant, and else an atom.
fn product(
    alloc: Global,
    store: &mut TermStore,
    left: &IdForm,
    right: &IdForm,
) -> Result<IdForm, NoMemory>
    requires first { IsSmall store.old left.now }
    requires second { IsSmall store.old right.now }
    ensures form { IfOk result (λ f. IsForm store.new f (forms.product (form_at store.old left.now) (form_at store.old right.now))) }
    ensures grows { Grows store.old store.new }
{
    if left.is_constant() {
        return right.times(alloc, left.constant);
    }
    if right.is_constant() {
        return left.times(alloc, right.constant);
    }
    product_of_terms(alloc, store, left, right)
}

fn product_of_terms(
    alloc: Global,
    store: &mut TermStore,
    left: &IdForm,
    right: &IdForm,
) -> Result<IdForm, NoMemory>
    requires first { HaveAtoms store.old left.now.parts.items }
    requires second { HaveAtoms store.old right.now.parts.items }
    ensures form { IfOk result
        (λ f. IsForm store.new f (forms.atom_form (forms.product_atom (forms.form_term (form_at store.old left.now)) (forms.form_term (form_at store.old right.now))))) }
    ensures grows { Grows store.old store.new }
{
    let terms = two_terms(store, left, right)?;
    let atom = product_atom(store, terms.0, terms.1)?;
    IdForm::of_atom(alloc, atom)
}

/// Of the two terms the lesser stands first.
fn product_atom(store: &mut TermStore, a: usize, b: usize) -> Result<usize, NoMemory>
    requires first { a < length store.old }
    requires second { b < length store.old }
    ensures number { IfOk result (λ k. Holds store.new k (forms.product_atom (tree_at store.old a) (tree_at store.old b))) }
    ensures grows { Grows store.old store.new }
{
    match compare(store, b, a) {
        Ordering::Less => add_binary(store, Binary::Mul, b, a),
        Ordering::Equal => add_binary(store, Binary::Mul, a, b),
        Ordering::Greater => add_binary(store, Binary::Mul, a, b),
    }
}

/// For a constant divisor `c` of 1 or more `a - c * Div(a, c)`, and else an atom.
fn remainder(
    alloc: Global,
    store: &mut TermStore,
    left: &IdForm,
    right: &IdForm,
) -> Result<IdForm, NoMemory>
    requires first { IsSmall store.old left.now }
    requires second { IsSmall store.old right.now }
    ensures form { IfOk result (λ f. IsForm store.new f (forms.remainder_form (form_at store.old left.now) (form_at store.old right.now))) }
    ensures grows { Grows store.old store.new }
{
    if right.is_constant() && 1 <= right.constant {
        return constant_remainder(alloc, store, left, right.constant);
    }
    binary_atom(alloc, store, Binary::Rem, left, right)
}

fn constant_remainder(
    alloc: Global,
    store: &mut TermStore,
    form: &IdForm,
    divisor: i128,
) -> Result<IdForm, NoMemory>
    requires form { IsSmall store.old form.now }
    requires divisor { forms.is_within divisor ≡ true }
    ensures form { IfOk result
        (λ f. IsForm store.new f (forms.plus (form_at store.old form.now) (forms.scaled (neg_ℤ divisor) (forms.atom_form (binary Binary.Div (forms.form_term (form_at store.old form.now)) (literal divisor)))))) }
    ensures grows { Grows store.old store.new }
{
    let quotient = quotient_term(store, form, divisor)?;
    let multiple = multiple_of_atom(alloc, store, quotient, numbers::opposite(divisor))?;
    form.plus(alloc, store, &multiple)
}

fn quotient_term(store: &mut TermStore, form: &IdForm, divisor: i128) -> Result<usize, NoMemory>
    requires { HaveAtoms store.old form.now.parts.items }
    ensures number { IfOk result (λ k. Holds store.new k (binary Binary.Div (forms.form_term (form_at store.old form.now)) (literal divisor))) }
    ensures grows { Grows store.old store.new }
{
    let dividend = form_term(store, form)?;
    let divisor = add_literal(store, divisor)?;
    add_binary(store, Binary::Div, dividend, divisor)
}

/// The atom so many times.
pub fn multiple_of_atom(
    alloc: Global,
    store: &TermStore,
    atom: usize,
    times: i128,
) -> Result<IdForm, NoMemory>
    requires atom { atom < length store.now }
    requires times { forms.is_within times ≡ true }
    ensures form { IfOk result (λ f. IsForm store.now f (forms.scaled times (forms.atom_form (tree_at store.now atom)))) }
    ensures small { IfOk result (λ f. IsSmall store.now f) }
{
    let form = IdForm::of_atom(alloc, atom)?;
    form.times(alloc, times)
}
