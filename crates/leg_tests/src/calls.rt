//! A program of two methods: one assigns a global, and the other calls it.

ghost use Rattle.std.specs.Prelude.{◌≡◌, [], ◌∷◌, IfOk, length, map, true, false};
ghost use Rattle.lk_claims.specs.Claim.{value_type};
ghost use Rattle.lk_programs.specs.Expr.{typed_expr};
ghost use Rattle.lk_programs.specs.Program.{code_trees, field_types, global_tree, method_tree};
ghost use Rattle.slang_values.specs.Value.{number_type};
ghost use Rattle.leg_tests.specs.Calls.{body_of, counter, method_of, name_of, next_g, two_methods};

use crate::programs::{files, one};
use lk_claims::Ty;
use lk_programs::{
    Code, Expr, FieldTy, Global as ProgramGlobal, Method, NoMemory, NodeNo, NodePlace, Typed,
};
use owned_results::{all_three, both};
use slang_tree::{Operator, Place, Text};
use sqlite_items::Items;
use std::alloc::Global;

/// g + 1
#[tactic(auto, using(lk_programs::proofs::Exprs::leaf_lines))]
fn next(alloc: Global) -> Result<Expr, NoMemory>
    ensures { IfOk result (λ e. typed_expr e ≡ next_g) }
{
    Expr::binary(
        alloc,
        NodeNo(0),
        Operator::Add,
        Expr::Var(NodeNo(0), 1),
        Expr::Lit(NodeNo(0), 1),
    )
}

/// g = g + 1
#[tactic(auto, using(lk_programs::proofs::Codes::code_lines))]
fn assignment(alloc: Global) -> Result<Items<Code>, NoMemory>
    ensures { IfOk result (λ codes. code_trees codes ≡ body_of false) }
{
    let value = next(alloc)?;
    one(
        alloc,
        Code::Assign {
            node: NodeNo(0),
            variable: 1,
            value,
        },
    )
}

/// A call of the first method.
#[tactic(auto, using(lk_programs::proofs::Codes::code_lines, lk_programs::proofs::Exprs::leaf_lines))]
fn call(alloc: Global) -> Result<Items<Code>, NoMemory>
    ensures { IfOk result (λ codes. code_trees codes ≡ body_of true) }
{
    let arguments = one(alloc, Expr::Var(NodeNo(0), 0))?;
    one(
        alloc,
        Code::Call {
            node: NodeNo(0),
            target: None,
            name: NodeNo(0),
            method: 0,
            arguments,
        },
    )
}

fn body(alloc: Global, calls: bool) -> Result<Items<Code>, NoMemory>
    ensures { IfOk result (λ codes. code_trees codes ≡ body_of calls) }
{
    if calls {
        call(alloc)
    } else {
        assignment(alloc)
    }
}

fn name(alloc: Global, calls: bool) -> Result<Text, NoMemory>
    ensures { IfOk result (λ name. name ≡ name_of calls) }
{
    if calls {
        Text::from_str(alloc, "\u{1}")
    } else {
        Text::from_str(alloc, "")
    }
}

/// (x: Z)
#[tactic(auto, using(lk_claims::proofs::Types::type_lines))]
fn params(alloc: Global) -> Result<Items<FieldTy>, NoMemory>
    ensures { IfOk result (λ params. field_types params ≡ number_type ∷ []) }
{
    let name = Text::from_str(alloc, "x")?;
    one(alloc, FieldTy { name, ty: Ty::Z })
}

#[tactic(auto, using(lk_claims::proofs::Types::type_lines))]
fn locals(alloc: Global) -> Result<Items<Ty>, NoMemory>
    ensures { IfOk result (λ types. map value_type types ≡ number_type ∷ []) }
{
    one(alloc, Ty::Z)
}

/// var g: Z = 0
#[tactic(auto, using(lk_claims::proofs::Types::type_lines, lk_programs::proofs::Exprs::leaf_lines))]
fn globals(alloc: Global) -> Result<Items<ProgramGlobal>, NoMemory>
    ensures { IfOk result (λ globals. map global_tree globals ≡ counter ∷ []) }
{
    let name = Text::from_str(alloc, "g")?;
    one(
        alloc,
        ProgramGlobal {
            name,
            fixed: false,
            ty: Ty::Z,
            init: Expr::Lit(NodeNo(0), 0),
        },
    )
}

fn method(alloc: Global, calls: bool) -> Result<Method, NoMemory>
    ensures { IfOk result (λ m. method_tree m ≡ method_of calls) }
{
    let ((name, params), (locals, modifies, body)) = both(
        both(name(alloc, calls), params(alloc)),
        all_three(locals(alloc), one(alloc, 0), body(alloc, calls)),
    )?;
    Ok(Method {
        name,
        node: NodeNo(0),
        params,
        result: Ty::Unit,
        requires_: Items::new(alloc),
        modifies,
        ensures_: Items::new(alloc),
        locals,
        body,
    })
}

fn two(alloc: Global, first: Method, second: Method) -> Result<Items<Method>, NoMemory>
    ensures { IfOk result (λ methods. methods ≡ first ∷ second ∷ []) }
{
    let mut methods = Items::new(alloc);
    both(methods.push(first), methods.push(second))?;
    Ok(methods)
}

fn methods(alloc: Global) -> Result<Items<Method>, NoMemory>
    ensures { IfOk result (λ methods. map method_tree methods ≡ method_of false ∷ method_of true ∷ []) }
{
    let (first, second) = both(method(alloc, false), method(alloc, true))?;
    two(alloc, first, second)
}

/// The program with a call.
pub fn calling(alloc: Global) -> Result<Typed, NoMemory>
    ensures { IfOk result (λ typed. length typed.methods ≡ 2) }
{
    let place = NodePlace {
        file: 0,
        place: Place { line: 1, col: 1 },
    };
    let ((files, globals), methods, nodes) = all_three(
        both(files(alloc), globals(alloc)),
        methods(alloc),
        one(alloc, place),
    )?;
    Ok(Typed::new(files, Items::new(alloc), globals, methods, nodes))
}
