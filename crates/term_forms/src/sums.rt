ghost use Rattle.std.specs.Prelude.{◌≡◌, ◌^◌, ◌≤◌, IfOk, true, map, unsigned_abs};
ghost use Rattle.std.specs.List.{list_all};
ghost use Rattle.tree_forms.specs.Form as forms;
ghost use Rattle.term_trees.specs.Term.{tree};
ghost use Rattle.term_forms.specs.Form.{part_of, form_of, TimesWithin, HasRoom, IsNarrowed};

use crate::form::{Form, FormEnd, Part};
use crate::numbers;
use crate::parts::insert_part;
use std::alloc::{AllocError, Global};
use term_trees::Term;

impl Form {
    pub(crate) fn of_constant(alloc: Global, constant: i128) -> Form
        ensures { form_of result ≡ forms.constant_form constant }
    {
        Form {
            parts: Vec::new(alloc),
            constant,
        }
    }

    /// The atom alone, once.
    pub fn of_atom(alloc: Global, atom: Term) -> Result<Form, AllocError>
        ensures { IfOk result (λ f. form_of f ≡ forms.atom_form (tree atom)) }
    {
        let mut parts = Vec::new(alloc);
        parts.push(Part { atom, times: 1 })?;
        Ok(Form { parts, constant: 0 })
    }

    pub(crate) fn is_constant(&self) -> bool
        ensures { result ≡ forms.is_constant (form_of self.now) }
    {
        self.parts.is_empty()
    }

    /// Whether each number is within 2^60.
    #[tactic(auto, using(crate::proofs::SumLemmas::small_lines))]
    fn has_small_numbers(&self) -> bool
        ensures { result ≡ forms.has_small_numbers (form_of self.now) }
    {
        if !are_small(self.parts.as_slice()) {
            return false;
        }
        numbers::is_within(self.constant)
    }

    /// Itself, where each number is within 2^60.
    pub(crate) fn narrowed(self) -> Result<Form, FormEnd>
        ensures { IsNarrowed (form_of self) result }
    {
        if self.has_small_numbers() {
            Ok(self)
        } else {
            Err(FormEnd::Wide)
        }
    }

    /// The sum of two forms.
    pub fn plus(self, other: Form) -> Result<Form, AllocError>
        requires first { forms.has_small_numbers (form_of self) ≡ true }
        requires second { forms.has_small_numbers (form_of other) ≡ true }
        ensures sum { IfOk result (λ f. form_of f ≡ forms.plus (form_of self) (form_of other)) }
        ensures room { IfOk result (λ f. HasRoom (form_of f)) }
    {
        let constant = numbers::sum(self.constant, other.constant);
        let parts = with_all(self.parts, other.parts)?;
        Ok(Form { parts, constant })
    }

    /// The form taken so many times.
    pub fn times(self, by: i128) -> Form
        requires small { forms.has_small_numbers (form_of self) ≡ true }
        requires factor { forms.is_within by ≡ true }
        ensures { form_of result ≡ forms.scaled by (form_of self) }
    {
        let Form {
            mut parts,
            constant,
        } = self;
        if by == 0 {
            parts.clear();
            return Form { parts, constant: 0 };
        }
        multiply_all(&mut parts, by);
        let constant = numbers::product(by, constant);
        Form { parts, constant }
    }
}

fn are_small(parts: &[Part]) -> bool
    ensures { result ≡ list_all (λ p. forms.is_within p.times) parts.now }
{
    parts.iter().all(|p| numbers::is_within(p.times))
}

/// The parts, with all the others at their places.
fn with_all(parts: Vec<Part>, others: Vec<Part>) -> Result<Vec<Part>, AllocError>
    requires first { TimesWithin (2 ^ 60) (map part_of parts.items) }
    requires second { TimesWithin (2 ^ 60) (map part_of others.items) }
    ensures sum { IfOk result (λ v. map part_of v.items ≡ forms.all_inserted (map part_of others.items) (map part_of parts.items)) }
    ensures room { IfOk result (λ v. TimesWithin (2 ^ 126) (map part_of v.items)) }
{
    let mut all = parts;
    let mut rest = others;
    while let Some(part) = rest.pop() {
        insert_part(&mut all, part)?;
    }
    Ok(all)
}

fn multiply_all(parts: &mut [Part], by: i128)
    requires small { TimesWithin (2 ^ 60) (map part_of parts.old) }
    requires factor { unsigned_abs by ≤ 2 ^ 60 }
    ensures { map part_of parts.new ≡ map (forms.multiplied by) (map part_of parts.old) }
{
    for at in 0..parts.len() {
        let times = numbers::product(by, parts[at].times);
        parts[at].times = times;
    }
}
