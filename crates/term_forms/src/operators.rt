ghost use Rattle.std.specs.Prelude.{◌≡◌, IfOk, true, neg_ℤ};
ghost use Rattle.slang_values.specs.Tree.{unary, binary, literal};
ghost use Rattle.tree_forms.specs.Form as forms;
ghost use Rattle.term_trees.specs.Term.{tree};
ghost use Rattle.term_forms.specs.Form.{form_of, HasRoom};

use crate::form::Form;
use crate::terms::form_term;
use crate::{NoMemory, numbers};
use owned_results::both;
use slang_values::{Binary, Unary};
use std::alloc::{AllocError, Global};
use std::cmp::Ordering;
use term_trees::Term;
use term_walks::compare;

/// The form of a node with one part, from the part's form.
pub fn unary_form(alloc: Global, op: Unary, form: Form) -> Result<Form, AllocError>
    requires { forms.has_small_numbers (form_of form) ≡ true }
    ensures { IfOk result (λ f. form_of f ≡ forms.unary_form op (form_of form)) }
{
    match op {
        Unary::Neg => Ok(form.times(-1)),
        Unary::Not => unary_atom(alloc, form, Unary::Not),
        Unary::Size => unary_atom(alloc, form, Unary::Size),
        Unary::Field(k) => unary_atom(alloc, form, Unary::Field(k)),
    }
}

fn unary_atom(alloc: Global, form: Form, op: Unary) -> Result<Form, AllocError>
    ensures { IfOk result (λ f. form_of f ≡ forms.atom_form (unary op (forms.form_term (form_of form)))) }
{
    let part = form.into_term(alloc)?;
    let atom = Term::unary(alloc, op, part)?;
    Form::of_atom(alloc, atom)
}

/// The form of a node with two parts, from their forms.
pub fn binary_form(alloc: Global, op: Binary, left: Form, right: Form) -> Result<Form, AllocError>
    requires first { forms.has_small_numbers (form_of left) ≡ true }
    requires second { forms.has_small_numbers (form_of right) ≡ true }
    ensures { IfOk result (λ f. form_of f ≡ forms.binary_form op (form_of left) (form_of right)) }
{
    match op {
        Binary::Add => left.plus(right),
        Binary::Sub => difference(left, right),
        Binary::Mul => product(alloc, left, right),
        Binary::Rem => remainder(alloc, left, right),
        Binary::Div => binary_atom(alloc, left, right, Binary::Div),
        Binary::And => binary_atom(alloc, left, right, Binary::And),
        Binary::Or => binary_atom(alloc, left, right, Binary::Or),
        Binary::Imply => binary_atom(alloc, left, right, Binary::Imply),
        Binary::Eq => binary_atom(alloc, left, right, Binary::Eq),
        Binary::Lt => binary_atom(alloc, left, right, Binary::Lt),
        Binary::Le => binary_atom(alloc, left, right, Binary::Le),
        Binary::Read => binary_atom(alloc, left, right, Binary::Read),
        Binary::Append => binary_atom(alloc, left, right, Binary::Append),
    }
}

fn binary_atom(alloc: Global, left: Form, right: Form, op: Binary) -> Result<Form, AllocError>
    ensures { IfOk result
        (λ f. form_of f ≡ forms.atom_form (binary op (forms.form_term (form_of left)) (forms.form_term (form_of right)))) }
{
    let (a, b) = two_terms(alloc, left, right)?;
    let atom = Term::binary(alloc, op, a, b)?;
    Form::of_atom(alloc, atom)
}

fn two_terms(alloc: Global, left: Form, right: Form) -> Result<(Term, Term), AllocError>
    ensures first { IfOk result (λ p. tree p.0 ≡ forms.form_term (form_of left)) }
    ensures second { IfOk result (λ p. tree p.1 ≡ forms.form_term (form_of right)) }
{
    both(left.into_term(alloc), right.into_term(alloc))
}

/// The form of a difference, from the forms of its parts.
pub fn difference(left: Form, right: Form) -> Result<Form, NoMemory>
    requires first { forms.has_small_numbers (form_of left) ≡ true }
    requires second { forms.has_small_numbers (form_of right) ≡ true }
    ensures form { IfOk result (λ f. form_of f ≡ forms.binary_form Binary.Sub (form_of left) (form_of right)) }
    ensures room { IfOk result (λ f. HasRoom (form_of f)) }
{
    left.plus(right.times(-1))
}

/// A multiple, where one of the two is constant, and else an atom.
fn product(alloc: Global, left: Form, right: Form) -> Result<Form, AllocError>
    requires first { forms.has_small_numbers (form_of left) ≡ true }
    requires second { forms.has_small_numbers (form_of right) ≡ true }
    ensures { IfOk result (λ f. form_of f ≡ forms.product (form_of left) (form_of right)) }
{
    if left.is_constant() {
        let by = left.constant;
        return Ok(right.times(by));
    }
    if right.is_constant() {
        let by = right.constant;
        return Ok(left.times(by));
    }
    let (a, b) = two_terms(alloc, left, right)?;
    let atom = product_atom(alloc, a, b)?;
    Form::of_atom(alloc, atom)
}

/// Of the two terms the lesser stands first.
fn product_atom(alloc: Global, a: Term, b: Term) -> Result<Term, AllocError>
    ensures { IfOk result (λ t. tree t ≡ forms.product_atom (tree a) (tree b)) }
{
    match compare(&b, &a) {
        Ordering::Less => Term::binary(alloc, Binary::Mul, b, a),
        Ordering::Equal => Term::binary(alloc, Binary::Mul, a, b),
        Ordering::Greater => Term::binary(alloc, Binary::Mul, a, b),
    }
}

/// For a constant divisor `c` of 1 or more `a - c * Div(a, c)`, and else an atom.
fn remainder(alloc: Global, left: Form, right: Form) -> Result<Form, AllocError>
    requires first { forms.has_small_numbers (form_of left) ≡ true }
    requires second { forms.has_small_numbers (form_of right) ≡ true }
    ensures { IfOk result (λ f. form_of f ≡ forms.remainder_form (form_of left) (form_of right)) }
{
    let divisor = right.constant;
    if right.is_constant() && 1 <= divisor {
        return constant_remainder(alloc, left, divisor);
    }
    binary_atom(alloc, left, right, Binary::Rem)
}

fn constant_remainder(alloc: Global, form: Form, divisor: i128) -> Result<Form, AllocError>
    requires small { forms.has_small_numbers (form_of form) ≡ true }
    requires narrow { forms.is_within divisor ≡ true }
    ensures { IfOk result
        (λ f. form_of f ≡ forms.plus (form_of form) (forms.scaled (neg_ℤ divisor) (forms.atom_form (binary Binary.Div (forms.form_term (form_of form)) (literal divisor))))) }
{
    let dividend = form_term(alloc, &form)?;
    let quotient = Term::binary(alloc, Binary::Div, dividend, Term::Lit(divisor))?;
    let quotient = Form::of_atom(alloc, quotient)?;
    form.plus(quotient.times(numbers::opposite(divisor)))
}
