ghost use Rattle.std.specs.Prelude.{◌≡◌, ◌++◌, IfOk, OnOk};
ghost use Rattle.run_rules.specs.Reach.{calls, calls_of_all};
ghost use Rattle.lk_programs.specs.Program.{code_tree, code_trees, method_tree};

use crate::NoMemory;
use lk_programs::{Code, Method};
use sqlite_items::Items;
use std::alloc::Global;

/// The numbers of the methods that statements call, behind others.
#[cycle(calls)]
#[tactic(auto, using(leg_count::proofs::Sizes::size_lines))]
fn add_calls(codes: &[Code], called: &mut Items<u32>) -> Result<(), NoMemory>
    ensures { OnOk result (called.new ≡ called.old ++ calls_of_all (code_trees codes.now)) }
{
    for code in codes {
        add_calls_of(code, called)?;
    }
    Ok(())
}

/// The numbers of the methods that a statement calls, behind others.
#[cycle(calls)]
#[tactic(auto, using(leg_count::proofs::Sizes::size_lines, lk_programs::proofs::Codes::code_lines))]
fn add_calls_of(code: &Code, called: &mut Items<u32>) -> Result<(), NoMemory>
    ensures { OnOk result (called.new ≡ called.old ++ calls (code_tree code.now)) }
{
    match code {
        Code::If {
            then,
            otherwise,
            ..
        } => {
            add_calls(then.as_slice(), called)?;
            add_calls(otherwise.as_slice(), called)
        }
        Code::While { body, .. } => add_calls(body.as_slice(), called),
        Code::Call { method, .. } => called.push(*method),
        Code::Val { .. } => Ok(()),
        Code::Assign { .. } => Ok(()),
        Code::Assert(_) => Ok(()),
        Code::Deduce { .. } => Ok(()),
        Code::Return { .. } => Ok(()),
    }
}

/// The numbers of the methods that a method calls, in the order of the text.
pub fn method_calls(alloc: Global, method: &Method) -> Result<Items<u32>, NoMemory>
    ensures { IfOk result (λ called. called ≡ calls_of_all (method_tree method.now).body) }
{
    let mut called = Items::new(alloc);
    add_calls(method.body.as_slice(), &mut called)?;
    Ok(called)
}
