//! A program of one method whose body is `if (b) { }`, so many times.

ghost use Rattle.std.specs.Prelude.{◌≡◌, [], ◌∷◌, IfOk, length, map};
ghost use Rattle.lk_claims.specs.Claim.{value_type};
ghost use Rattle.lk_programs.specs.Program.{code_tree, code_trees, field_types, method_tree, noted_tree};
ghost use Rattle.slang_values.specs.Value.{truth_type};
ghost use Rattle.leg_tests.specs.Programs.{branches as all_branches, branching as branching_tree, ensures_b, if_b};

use lk_claims::{Claim, Ty};
use lk_programs::{Code, Expr, FieldTy, Method, NoMemory, NodeNo, NodePlace, Noted, Typed};
use owned_results::{all_three, both};
use slang_tree::{Place, Text};
use sqlite_items::Items;
use std::alloc::Global;

pub fn one<T: Drop>(alloc: Global, item: T) -> Result<Items<T>, NoMemory>
    ensures { IfOk result (λ items. items ≡ item ∷ []) }
{
    let mut items = Items::new(alloc);
    items.push(item)?;
    Ok(items)
}

/// if (b) { }
#[tactic(auto, using(lk_programs::proofs::Codes::code_lines, lk_programs::proofs::Exprs::leaf_lines))]
fn empty_branch(alloc: Global) -> Code
    ensures { code_tree result ≡ if_b }
{
    Code::If {
        node: NodeNo(0),
        test: Expr::Var(NodeNo(0), 0),
        then: Items::new(alloc),
        otherwise: Items::new(alloc),
    }
}

fn branches(alloc: Global, count: u32) -> Result<Items<Code>, NoMemory>
    ensures { IfOk result (λ codes. code_trees codes ≡ all_branches count) }
{
    let mut codes = Items::new(alloc);
    for number in 0..count {
        codes.push(empty_branch(alloc))?;
    }
    Ok(codes)
}

/// (b: B)
#[tactic(auto, using(lk_claims::proofs::Types::type_lines))]
fn params(alloc: Global) -> Result<Items<FieldTy>, NoMemory>
    ensures { IfOk result (λ params. field_types params ≡ truth_type ∷ []) }
{
    let name = Text::from_str(alloc, "b")?;
    one(alloc, FieldTy { name, ty: Ty::B })
}

#[tactic(auto, using(lk_claims::proofs::Types::type_lines))]
fn locals(alloc: Global) -> Result<Items<Ty>, NoMemory>
    ensures { IfOk result (λ types. map value_type types ≡ truth_type ∷ []) }
{
    one(alloc, Ty::B)
}

/// Ensures(b)
#[tactic(auto, using(lk_claims::proofs::Trees::claim_lines))]
fn claims(alloc: Global) -> Result<Items<Noted>, NoMemory>
    ensures { IfOk result (λ claims. map noted_tree claims ≡ ensures_b ∷ []) }
{
    one(
        alloc,
        Noted {
            claim: Claim::Var(0),
            node: NodeNo(0),
        },
    )
}

fn method(alloc: Global, count: u32) -> Result<Method, NoMemory>
    ensures { IfOk result (λ m. method_tree m ≡ branching_tree count) }
{
    let ((name, params, ensures_), (locals, body)) = both(
        all_three(Text::from_str(alloc, "m"), params(alloc), claims(alloc)),
        both(locals(alloc), branches(alloc, count)),
    )?;
    Ok(Method {
        name,
        node: NodeNo(0),
        params,
        result: Ty::Unit,
        requires_: Items::new(alloc),
        modifies: Items::new(alloc),
        ensures_,
        locals,
        body,
    })
}

fn methods(alloc: Global, count: u32) -> Result<Items<Method>, NoMemory>
    ensures { IfOk result (λ methods. map method_tree methods ≡ branching_tree count ∷ []) }
{
    let method = method(alloc, count)?;
    one(alloc, method)
}

pub fn files(alloc: Global) -> Result<Items<Text>, NoMemory>
    ensures { IfOk result (λ files. length files ≡ 1) }
{
    let name = Text::from_str(alloc, "m.sc")?;
    one(alloc, name)
}

/// The program with so many branches.
pub fn branching(alloc: Global, count: u32) -> Result<Typed, NoMemory>
    ensures { IfOk result (λ typed. length typed.methods ≡ 1) }
{
    let place = NodePlace {
        file: 0,
        place: Place { line: 1, col: 1 },
    };
    let (files, methods, nodes) = all_three(
        files(alloc),
        methods(alloc, count),
        one(alloc, place),
    )?;
    Ok(Typed::new(files, Items::new(alloc), Items::new(alloc), methods, nodes))
}
