ghost use Rattle.std.specs.Prelude.{◌≡◌, [], IfOk, IfErr, IsErrOf, OnOk, true, false};
ghost use Rattle.slang_values.specs.Tree.{unary, binary, update, quantified};
ghost use Rattle.tree_forms.specs.Form as forms;
ghost use Rattle.tree_forms.specs.Laws.{HasValueOf, IsInOrder};
ghost use Rattle.term_trees.specs.Term.{tree, trees};
ghost use Rattle.term_forms.specs.declared.form.FormEnd.TheVariants.{Wide, NoMemory};
ghost use Rattle.term_forms.specs.Form.{form_of, IsFormOf, IsTermOf, AreTermsOf, IsEndOf, AreEndsOf};

use crate::form::{Form, FormEnd};
use crate::operators::{binary_form, unary_form};
use owned_results::{all_three, both};
use slang_values::{Binary, Quantifier, Unary};
use sqlite_items::{Boxed, Items};
use std::alloc::Global;
use term_trees::{Shape, Sort, Term};

/// The linear form of a term. Of a term that is no number it is the term alone, as an atom with canonical parts.
pub fn linear_form(alloc: Global, term: &Term) -> Result<Form, FormEnd>
    ensures form { IfOk result (λ f. form_of f ≡ forms.form (tree term.now)) }
    ensures narrow { OnOk result (forms.is_narrow (tree term.now) ≡ true) }
    ensures wide { IsErrOf result Wide → forms.is_narrow (tree term.now) ≡ false }
    ensures has_value { IfOk result (λ f. HasValueOf (tree term.now) (form_of f)) }
    ensures in_order { IfOk result (λ f. IsInOrder (form_of f)) }
{
    let form = form_of_term(alloc, term)?;
    Ok(form)
}

#[cycle(form)]
#[tactic(auto, using(term_trees::proofs::Trees::tree_lines, crate::proofs::Forms::form_lines))]
fn form_of_term(alloc: Global, term: &Term) -> Result<Form, FormEnd>
    ensures form { IfOk result (λ f. IsFormOf (tree term.now) (form_of f)) }
    ensures end { IfErr result (λ e. IsEndOf (tree term.now) e) }
{
    match term.shape() {
        Shape::Literal(z) => Form::of_constant(alloc, z).narrowed(),
        Shape::Truth(b) => Ok(Form::of_atom(alloc, Term::truth(b))?),
        Shape::Symbol(n) => Ok(Form::of_atom(alloc, Term::Symbol(n))?),
        Shape::Bound(n) => Ok(Form::of_atom(alloc, Term::Bound(n))?),
        Shape::Unary(op, a) => form_of_unary(alloc, a, op),
        Shape::Binary(op, a, b) => form_of_binary(alloc, a, b, op),
        Shape::Update(a, i, x) => form_of_update(alloc, a, i, x),
        Shape::Quantified(q, low, high, body) => form_of_quantified(alloc, low, high, body, q),
        Shape::Sequence(s, ts) => {
            let (sort, parts) = both(copy_of_sort(alloc, s), canonical_terms(alloc, ts))?;
            Ok(Form::of_atom(alloc, Term::SeqLit(sort, parts))?)
        }
        Shape::Record(n, ts) => {
            let parts = canonical_terms(alloc, ts)?;
            Ok(Form::of_atom(alloc, Term::Rec(n, parts))?)
        }
    }
}

#[cycle(form)]
#[tactic(auto, using(crate::proofs::Forms::form_lines))]
fn form_of_unary(alloc: Global, a: &Term, op: Unary) -> Result<Form, FormEnd>
    ensures form { IfOk result (λ f. IsFormOf (unary op (tree a.now)) (form_of f)) }
    ensures end { IfErr result (λ e. IsEndOf (unary op (tree a.now)) e) }
{
    let part = form_of_term(alloc, a)?;
    unary_form(alloc, op, part)?.narrowed()
}

#[cycle(form)]
#[tactic(auto, using(crate::proofs::Forms::form_lines))]
fn form_of_binary(alloc: Global, a: &Term, b: &Term, op: Binary) -> Result<Form, FormEnd>
    ensures form { IfOk result (λ f. IsFormOf (binary op (tree a.now) (tree b.now)) (form_of f)) }
    ensures end { IfErr result (λ e. IsEndOf (binary op (tree a.now) (tree b.now)) e) }
{
    let (left, right) = both(form_of_term(alloc, a), form_of_term(alloc, b))?;
    binary_form(alloc, op, left, right)?.narrowed()
}

#[cycle(form)]
#[tactic(auto, using(crate::proofs::Forms::form_lines))]
fn form_of_update(alloc: Global, a: &Term, i: &Term, x: &Term) -> Result<Form, FormEnd>
    ensures form { IfOk result (λ f. IsFormOf (update (tree a.now) (tree i.now) (tree x.now)) (form_of f)) }
    ensures end { IfErr result (λ e. IsEndOf (update (tree a.now) (tree i.now) (tree x.now)) e) }
{
    let (a, i, x) = all_three(
        canonical_term(alloc, a),
        canonical_term(alloc, i),
        canonical_term(alloc, x),
    )?;
    Ok(Form::of_atom(alloc, Term::Update(a, i, x))?)
}

#[cycle(form)]
#[tactic(auto, using(crate::proofs::Forms::form_lines))]
fn form_of_quantified(
    alloc: Global,
    low: &Term,
    high: &Term,
    body: &Term,
    quantifier: Quantifier,
) -> Result<Form, FormEnd>
    ensures form { IfOk result
        (λ f. IsFormOf (quantified quantifier (tree low.now) (tree high.now) (tree body.now)) (form_of f)) }
    ensures end { IfErr result (λ e. IsEndOf (quantified quantifier (tree low.now) (tree high.now) (tree body.now)) e) }
{
    let (low, high, body) = all_three(
        canonical_term(alloc, low),
        canonical_term(alloc, high),
        canonical_term(alloc, body),
    )?;
    Ok(Form::of_atom(alloc, quantified_term(quantifier, low, high, body))?)
}

#[tactic(auto, using(term_trees::proofs::Trees::tree_lines))]
fn quantified_term(
    quantifier: Quantifier,
    low: Boxed<Term>,
    high: Boxed<Term>,
    body: Boxed<Term>,
) -> Term
    ensures { tree result ≡ quantified quantifier (tree low) (tree high) (tree body) }
{
    match quantifier {
        Quantifier::All => Term::All(low, high, body),
        Quantifier::Exists => Term::Exists(low, high, body),
    }
}

/// The term of the term's form.
#[cycle(form)]
#[tactic(auto, using(crate::proofs::Forms::form_lines))]
fn canonical_term(alloc: Global, term: &Term) -> Result<Boxed<Term>, FormEnd>
    ensures term { IfOk result (λ t. IsTermOf (tree term.now) (tree t)) }
    ensures end { IfErr result (λ e. IsEndOf (tree term.now) e) }
{
    let form = form_of_term(alloc, term)?;
    Ok(form.into_boxed_term(alloc)?)
}

#[cycle(form)]
#[tactic(auto, using(term_trees::proofs::Sizes::deepest_lines, crate::proofs::Forms::form_lines))]
fn canonical_terms(alloc: Global, terms: &[Term]) -> Result<Items<Term>, FormEnd>
    ensures terms { IfOk result (λ ts. AreTermsOf (trees terms.now) (trees ts)) }
    ensures end { IfErr result (λ e. AreEndsOf (trees terms.now) e) }
{
    let mut parts = Items::new(alloc);
    add_canonical_terms(alloc, &mut parts, terms)?;
    Ok(parts)
}

/// Adds the terms of the terms' forms to none.
#[cycle(form)]
#[tactic(auto, using(term_trees::proofs::Sizes::deepest_lines, crate::proofs::Forms::form_lines))]
fn add_canonical_terms(
    alloc: Global,
    parts: &mut Items<Term>,
    terms: &[Term],
) -> Result<(), FormEnd>
    requires { parts.old ≡ [] }
    ensures terms { OnOk result (AreTermsOf (trees terms.now) (trees parts.new)) }
    ensures end { IfErr result (λ e. AreEndsOf (trees terms.now) e) }
{
    for term in terms {
        let form = form_of_term(alloc, term)?;
        parts.push(form.into_term(alloc)?)?;
    }
    Ok(())
}

fn copy_of_sort(alloc: Global, sort: &Sort) -> Result<Sort, FormEnd>
    ensures same { IfOk result (λ s. s ≡ sort.now) }
    ensures end { IfErr result (λ e. e ≡ NoMemory) }
{
    Ok(sort.copy(alloc)?)
}
