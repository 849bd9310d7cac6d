ghost use Rattle.std.specs.Prelude.{◌≡◌};
ghost use Rattle.lk_programs.specs.Program.{code_tree, code_trees};
ghost use Rattle.code_paths.specs.Places.{block_in, inner_block, part_of as part_of_tree};
ghost use Rattle.code_places.specs.Statements.{IsStatement};

use code_paths::Inside;
use lk_programs::Code;
use sqlite_items::at;

/// The block at the end of a path into the code.
pub fn block_at<'p>(code: &'p [Code], path: &[Inside]) -> &'p [Code]
    ensures { code_trees result.now ≡ block_in (code_trees code.now) path.now }
{
    let mut block = code;
    'steps: for inside in path {
        block = block_inside(block, *inside);
    }
    block
}

/// The block inside a statement.
fn block_inside<'p>(block: &'p [Code], inside: Inside) -> &'p [Code]
    ensures { code_trees result.now ≡ inner_block (code_trees block.now) inside.statement inside.otherwise }
{
    match at(block, inside.statement as usize) {
        None => &[],
        Some(code) => part_of(code, inside.otherwise),
    }
}

#[tactic(auto, using(lk_programs::proofs::Codes::code_lines))]
fn part_of<'p>(code: &'p Code, is_otherwise: bool) -> &'p [Code]
    ensures { code_trees result.now ≡ part_of_tree (code_tree code.now) is_otherwise }
{
    match code {
        Code::If {
            then,
            otherwise,
            ..
        } => {
            if is_otherwise {
                otherwise.as_slice()
            } else {
                then.as_slice()
            }
        }
        Code::While { body, .. } => body.as_slice(),
        Code::Val { .. }
        | Code::Assign { .. }
        | Code::Call { .. }
        | Code::Assert(_)
        | Code::Deduce { .. }
        | Code::Return { .. } => &[],
    }
}

/// The statement of that number in a block, where there is one.
pub fn statement_at(block: &[Code], number: u32) -> Option<&Code>
    ensures { IsStatement (code_trees block.now) number result }
{
    match at(block, number as usize) {
        None => None,
        Some(code) => Some(code),
    }
}
