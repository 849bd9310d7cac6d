ghost use Rattle.std.specs.Prelude.{◌≡◌, ◌+◌, IfOk, length, map};
ghost use Rattle.slang_tree.specs.StmtTree.{stmt_tree, stmts_of};
ghost use Rattle.lk_claims.specs.Claim.{value_type};
ghost use Rattle.lk_programs.specs.Program.{field_types};
ghost use Rattle.type_rules.specs.Statements as rule;

use crate::NoMemory;
use lk_claims::Ty;
use lk_programs::FieldTy;
use local_counting::local_counts;
use slang_tree::MethodDecl;
use sqlite_items::Items;
use std::alloc::{AllocError, Global};
use typed_names::Numbering;

/// So many parameters and so many locals that are declared, if the sum fits.
fn sum(params: usize, declared: u32) -> Result<u32, NoMemory>
    ensures { IfOk result (λ n. n ≡ params + declared) }
{
    match u32::try_from(params) {
        Err(_) => Err(AllocError),
        Ok(params) => params.checked_add(declared).ok_or(AllocError),
    }
}

/// The numbers of a method's variables, where there are so many globals.
pub fn numbering(globals: u32, decl: &MethodDecl) -> Result<Numbering, NoMemory>
    ensures locals { IfOk result (λ numbers. numbers.locals ≡ length decl.now.params + rule.local_counts (stmts_of (map stmt_tree decl.now.body))) }
    ensures globals { IfOk result (λ numbers. numbers.globals ≡ globals) }
{
    let declared = local_counts(decl.body.as_slice())?;
    let locals = sum(decl.params.len(), declared)?;
    Ok(Numbering { locals, globals })
}

/// The types of parameters.
pub fn param_tys(alloc: Global, params: &[FieldTy]) -> Result<Items<Ty>, NoMemory>
    ensures { IfOk result (λ tys. map value_type tys ≡ field_types params.now) }
{
    let mut tys = Items::new(alloc);
    for param in params {
        tys.push(param.ty.copy(alloc)?)?;
    }
    Ok(tys)
}
