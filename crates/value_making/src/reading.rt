ghost use Rattle.std.specs.Prelude.{◌≡◌, IfOk};
ghost use Rattle.program_trees.specs.Programs as tree;
ghost use Rattle.lk_programs.specs.Expr.{typed_expr, typed_exprs};
ghost use Rattle.value_making.specs.Values.{first_number};

use crate::NoMemory;
use lk_programs::{Expr, NodeNo};
use sqlite_items::Items;
use std::alloc::Global;

/// The first of some arguments. Where there is none it is no value.
#[tactic(auto, using(lk_programs::proofs::Exprs::leaf_lines))]
fn first_of(node: NodeNo, arguments: Items<Expr>) -> Expr
    ensures { typed_expr result ≡ first_number node.0 (typed_exprs arguments) }
{
    let mut arguments = arguments;
    if arguments.is_empty() {
        Expr::Lit(node, 0)
    } else {
        arguments.remove(0)
    }
}

/// The element of a sequence at the first of some arguments.
pub fn read_at(
    alloc: Global,
    node: NodeNo,
    head: Expr,
    arguments: Items<Expr>,
) -> Result<Expr, NoMemory>
    ensures { IfOk result (λ e. typed_expr e ≡ tree.read node.0 (typed_expr head) (first_number node.0 (typed_exprs arguments))) }
{
    let index = first_of(node, arguments);
    Expr::read(alloc, node, head, index)
}
