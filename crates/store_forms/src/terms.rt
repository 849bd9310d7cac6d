ghost use Rattle.std.specs.Prelude.{◌≡◌, ◌<◌, length, map, Some, None, IfOk};
ghost use Rattle.std.specs.Option.{option_map};
ghost use Rattle.slang_values.specs.Tree.{binary, literal};
ghost use Rattle.tree_forms.specs.Form as forms;
ghost use Rattle.term_store.specs.Store.{tree_at, Holds, Grows};
ghost use Rattle.store_forms.specs.Form.{part_at, form_at, HaveAtoms, IsSum, HasSum};

use crate::NoMemory;
use crate::adding::add_literal;
use crate::form::{IdForm, IdPart};
use crate::parts::part_there;
use slang_values::Binary;
use store_reads::add_binary;
use term_store::TermStore;

/// The number of the term of a form: its parts in order, added from the left, and last its constant.
pub fn form_term(store: &mut TermStore, form: &IdForm) -> Result<usize, NoMemory>
    requires { HaveAtoms store.old form.now.parts.items }
    ensures number { IfOk result (λ k. Holds store.new k (forms.form_term (form_at store.old form.now))) }
    ensures grows { Grows store.old store.new }
{
    let sum = sum_of_parts(store, form.parts.as_slice())?;
    with_constant(store, sum, form.constant)
}

/// The number of the sum of the parts, where there are any.
fn sum_of_parts(store: &mut TermStore, parts: &[IdPart]) -> Result<Option<usize>, NoMemory>
    requires { HaveAtoms store.old parts.now }
    ensures sum { IfOk result (λ sum. IsSum store.new sum (forms.sum_of_parts None (map (part_at store.old) parts.now))) }
    ensures grows { Grows store.old store.new }
{
    let mut sum = None;
    for place in 0..parts.len() {
        sum = Some(with_part(store, sum, part_there(parts, place))?);
    }
    Ok(sum)
}

/// The sum so far and one more part.
fn with_part(store: &mut TermStore, sum: Option<usize>, part: IdPart) -> Result<usize, NoMemory>
    requires sum { HasSum store.old sum }
    requires atom { part.atom < length store.old }
    ensures number { IfOk result (λ k. Holds store.new k (forms.added (option_map (tree_at store.old) sum) (forms.part_term (part_at store.old part)))) }
    ensures grows { Grows store.old store.new }
{
    match sum {
        None => part_term(store, part),
        Some(before) => sum_with_part(store, before, part),
    }
}

fn sum_with_part(store: &mut TermStore, before: usize, part: IdPart) -> Result<usize, NoMemory>
    requires before { before < length store.old }
    requires atom { part.atom < length store.old }
    ensures number { IfOk result (λ k. Holds store.new k (binary Binary.Add (tree_at store.old before) (forms.part_term (part_at store.old part)))) }
    ensures grows { Grows store.old store.new }
{
    let term = part_term(store, part)?;
    add_binary(store, Binary::Add, before, term)
}

/// The atom, or a multiple of it.
fn part_term(store: &mut TermStore, part: IdPart) -> Result<usize, NoMemory>
    requires { part.atom < length store.old }
    ensures number { IfOk result (λ k. Holds store.new k (forms.part_term (part_at store.old part))) }
    ensures grows { Grows store.old store.new }
{
    if part.times == 1 {
        Ok(part.atom)
    } else {
        multiple_term(store, part.times, part.atom)
    }
}

fn multiple_term(store: &mut TermStore, times: i128, atom: usize) -> Result<usize, NoMemory>
    requires { atom < length store.old }
    ensures number { IfOk result (λ k. Holds store.new k (binary Binary.Mul (literal times) (tree_at store.old atom))) }
    ensures grows { Grows store.old store.new }
{
    let times = add_literal(store, times)?;
    add_binary(store, Binary::Mul, times, atom)
}

fn with_constant(
    store: &mut TermStore,
    sum: Option<usize>,
    constant: i128,
) -> Result<usize, NoMemory>
    requires { HasSum store.old sum }
    ensures number { IfOk result (λ k. Holds store.new k (forms.with_constant (option_map (tree_at store.old) sum) constant)) }
    ensures grows { Grows store.old store.new }
{
    match sum {
        None => add_literal(store, constant),
        Some(term) => term_and_constant(store, term, constant),
    }
}

/// The term, where the constant is 0, and else the sum of the two.
fn term_and_constant(store: &mut TermStore, term: usize, constant: i128) -> Result<usize, NoMemory>
    requires { term < length store.old }
    ensures number { IfOk result (λ k. Holds store.new k (forms.with_constant (Some (tree_at store.old term)) constant)) }
    ensures grows { Grows store.old store.new }
{
    if constant == 0 {
        Ok(term)
    } else {
        sum_with_constant(store, term, constant)
    }
}

fn sum_with_constant(store: &mut TermStore, term: usize, constant: i128) -> Result<usize, NoMemory>
    requires { term < length store.old }
    ensures number { IfOk result (λ k. Holds store.new k (binary Binary.Add (tree_at store.old term) (literal constant))) }
    ensures grows { Grows store.old store.new }
{
    let constant = add_literal(store, constant)?;
    add_binary(store, Binary::Add, term, constant)
}
