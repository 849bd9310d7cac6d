ghost use Rattle.std.specs.Prelude.{◌≡◌, ◌+◌, ◌++◌, ◌∷◌, [], IfOk, List, filter_map, length};
ghost use Rattle.slang_tree.specs.DeclTree.{DeclTree, decl_tree};
ghost use Rattle.type_rules.specs.Projects as rule;
ghost use Rattle.type_faults.specs.FirstFault.{with_first};
ghost use Rattle.declarations_before.specs.Before.{AreCounts};

use crate::NoMemory;
use slang_tree::{Decl, Fault};
use std::alloc::AllocError;
use type_faults::FirstFault;

/// How many methods a project may have.
const METHOD_LIMIT: usize = 10000;

/// How many records and methods stand before a declaration.
#[derive(Clone, Copy)]
pub struct Counts {
    pub records: usize,
    pub methods: usize,
}

/// One more, where there is such a number.
fn next(count: usize) -> Result<usize, NoMemory>
    ensures { IfOk result (λ after. after ≡ count + 1) }
{
    count.checked_add(1).ok_or(AllocError)
}

/// Tells where a method is one too many, behind so many others.
pub fn judged_count(told: &mut FirstFault, methods: usize, decl: &Decl)
    ensures { (front : List DeclTree) → methods ≡ length (filter_map rule.method_of front)
        → told.new.found ≡ with_first told.old.found (rule.count_faults front (decl_tree decl.now)) }
{
    match decl {
        Decl::Import { .. } => {}
        Decl::Global(_) => {}
        Decl::Record(_) => {}
        Decl::Method(method) => {
            told.tell_unless(
                methods != METHOD_LIMIT,
                Fault {
                    code: 16,
                    place: method.name.place,
                },
            );
        }
    }
}

/// With a declaration more.
pub fn counted(counts: Counts, decl: &Decl) -> Result<Counts, NoMemory>
    ensures { IfOk result (λ after. (front : List DeclTree) → AreCounts counts front → AreCounts after (front ++ decl_tree decl.now ∷ [])) }
{
    match decl {
        Decl::Import { .. } => Ok(counts),
        Decl::Global(_) => Ok(counts),
        Decl::Record(_) => {
            let records = next(counts.records)?;
            Ok(Counts {
                records,
                methods: counts.methods,
            })
        }
        Decl::Method(_) => {
            let methods = next(counts.methods)?;
            Ok(Counts {
                records: counts.records,
                methods,
            })
        }
    }
}
