ghost use Rattle.std.specs.Prelude.{◌≡◌, ◌++◌, IfOk, OnOk, map, reverse, None};
ghost use Rattle.std.specs.Option.{option_map};
ghost use Rattle.tree_forms.specs.Form as forms;
ghost use Rattle.term_trees.specs.Term.{tree};
ghost use Rattle.term_forms.specs.Form.{part_of, form_of};

use crate::NoMemory;
use crate::form::{Form, Part};
use slang_values::Binary;
use sqlite_items::Boxed;
use std::alloc::{AllocError, Global};
use term_trees::Term;
use term_walks::copy;

/// The term of a form: its parts in order, added from the left, and last its constant.
pub fn form_term(alloc: Global, form: &Form) -> Result<Term, NoMemory>
    ensures { IfOk result (λ t. tree t ≡ forms.form_term (form_of form.now)) }
{
    let parts = copy_parts(alloc, form.parts.as_slice())?;
    let copied = Form {
        parts,
        constant: form.constant,
    };
    copied.into_term(alloc)
}

impl Form {
    /// The term of the form.
    pub(crate) fn into_term(self, alloc: Global) -> Result<Term, AllocError>
        ensures { IfOk result (λ t. tree t ≡ forms.form_term (form_of self)) }
    {
        let constant = self.constant;
        let sum = sum_of_parts(alloc, self.parts)?;
        with_constant(alloc, sum, constant)
    }

    pub(crate) fn into_boxed_term(self, alloc: Global) -> Result<Boxed<Term>, AllocError>
        ensures { IfOk result (λ t. tree t ≡ forms.form_term (form_of self)) }
    {
        let term = self.into_term(alloc)?;
        Boxed::new(alloc, term)
    }
}

fn copy_parts(alloc: Global, parts: &[Part]) -> Result<Vec<Part>, AllocError>
    ensures { IfOk result (λ v. map part_of v.items ≡ map part_of parts.now) }
{
    let mut copies = Vec::new(alloc);
    add_copies(alloc, &mut copies, parts)?;
    Ok(copies)
}

/// Adds copies of the parts.
fn add_copies(alloc: Global, copies: &mut Vec<Part>, parts: &[Part]) -> Result<(), AllocError>
    ensures { OnOk result (map part_of copies.new.items ≡ map part_of copies.old.items ++ map part_of parts.now) }
{
    for part in parts {
        let atom = copy(alloc, &part.atom)?;
        copies.push(Part {
            atom,
            times: part.times,
        })?;
    }
    Ok(())
}

fn sum_of_parts(alloc: Global, parts: Vec<Part>) -> Result<Option<Term>, AllocError>
    ensures { IfOk result (λ t. option_map tree t ≡ forms.sum_of_parts None (map part_of parts.items)) }
{
    let mut rest = parts;
    rest.reverse();
    let mut sum = None;
    while let Some(part) = rest.pop() {
        sum = Some(with_part(alloc, sum, part)?);
    }
    Ok(sum)
}

fn with_part(alloc: Global, sum: Option<Term>, part: Part) -> Result<Term, AllocError>
    ensures { IfOk result (λ t. tree t ≡ forms.added (option_map tree sum) (forms.part_term (part_of part))) }
{
    match sum {
        None => part_term(alloc, part),
        Some(before) => {
            let term = part_term(alloc, part)?;
            Term::binary(alloc, Binary::Add, before, term)
        }
    }
}

#[tactic(auto, using(term_trees::proofs::Trees::tree_lines))]
fn part_term(alloc: Global, part: Part) -> Result<Term, AllocError>
    ensures { IfOk result (λ t. tree t ≡ forms.part_term (part_of part)) }
{
    if part.times == 1 {
        Ok(part.atom)
    } else {
        Term::binary(alloc, Binary::Mul, Term::Lit(part.times), part.atom)
    }
}

#[tactic(auto, using(term_trees::proofs::Trees::tree_lines))]
fn with_constant(alloc: Global, sum: Option<Term>, constant: i128) -> Result<Term, AllocError>
    ensures { IfOk result (λ t. tree t ≡ forms.with_constant (option_map tree sum) constant) }
{
    match sum {
        None => Ok(Term::Lit(constant)),
        Some(term) => {
            if constant == 0 {
                Ok(term)
            } else {
                Term::binary(alloc, Binary::Add, term, Term::Lit(constant))
            }
        }
    }
}
