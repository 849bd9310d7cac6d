ghost use Rattle.std.specs.Prelude.{OnOk};
ghost use Rattle.slang_tree.specs.DeclTree.{const_tree};
ghost use Rattle.print_declarations.specs.Accounts.{const_account};
ghost use Rattle.print_layout.specs.Declarations.{const_pieces};
ghost use Rattle.token_printing.specs.Gaps.{gap_seen};
ghost use Rattle.expression_printing.specs.Printed.{Adds};
ghost use Rattle.constant_printing.specs.Printed.{enclosed_consts, consts_listed, consts_behind};

use crate::NoMemory;
use expression_printing::{add_element, add_number};
use slang_tree::Const;
use token_printing::{Gap, add_name, add_text, add_word};

/// Adds a constant behind a gap.
#[cycle(printing)]
#[tactic(auto, using(slang_tree::proofs::Lines::const_lines, crate::proofs::Sizes::smaller_lines))]
pub fn add_const(constant: &Const, gap: Gap, text: &mut Vec<u8>) -> Result<(), NoMemory>
    ensures { OnOk result (Adds text.old.items text.new.items (const_pieces (gap_seen gap) (const_account (const_tree constant.now)))) }
{
    match constant {
        Const::Number(_, z) => add_number(*z, gap, text),
        Const::Minus(_, _, z) => {
            add_word(gap, "-", text)?;
            add_number(*z, Gap::None, text)
        }
        Const::True(_) => add_word(gap, "T", text),
        Const::False(_) => add_word(gap, "F", text),
        Const::Sequence(_, ty, elements) => {
            add_word(gap, "ISZ", text)?;
            add_element(ty, text)?;
            add_enclosed(elements.as_slice(), text)
        }
        Const::Record(name, fields) => {
            add_name(gap, name, text)?;
            add_enclosed(fields.as_slice(), text)
        }
    }
}

/// Adds constants in round brackets.
#[cycle(printing)]
fn add_enclosed(constants: &[Const], text: &mut Vec<u8>) -> Result<(), NoMemory>
    ensures { OnOk result (Adds text.old.items text.new.items (enclosed_consts constants.now)) }
{
    add_text("(", text)?;
    add_listed(constants, text)?;
    add_text(")", text)
}

/// Adds constants, parted by commas.
#[cycle(printing)]
fn add_listed(constants: &[Const], text: &mut Vec<u8>) -> Result<(), NoMemory>
    ensures { OnOk result (Adds text.old.items text.new.items (consts_listed constants.now)) }
{
    match constants.split_first() {
        None => Ok(()),
        Some((constant, others)) => {
            add_const(constant, Gap::None, text)?;
            add_behind(others, text)
        }
    }
}

/// Adds constants, each behind a comma.
#[cycle(printing)]
#[tactic(auto, using(crate::proofs::Sizes::size_lines))]
fn add_behind(constants: &[Const], text: &mut Vec<u8>) -> Result<(), NoMemory>
    ensures { OnOk result (Adds text.old.items text.new.items (consts_behind constants.now)) }
{
    for constant in constants {
        add_text(",", text)?;
        add_const(constant, Gap::Blank, text)?;
    }
    Ok(())
}
