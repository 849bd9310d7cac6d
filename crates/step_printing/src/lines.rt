ghost use Rattle.std.specs.Prelude.{◌≡◌, suc, OnOk, IfOk};
ghost use Rattle.slang_tree.specs.ExprTree.{expr_tree};
ghost use Rattle.print_statements.specs.Accounts.{cites_account, assume_account, let_account};
ghost use Rattle.print_layout.specs.Pieces.{line, blank};
ghost use Rattle.print_layout.specs.Statements.{cites_pieces, let_pieces};
ghost use Rattle.token_printing.specs.Gaps.{gap_seen};
ghost use Rattle.expression_printing.specs.Printed.{Adds};
ghost use Rattle.step_printing.specs.Printed.{label_pieces, labels_behind, rule_pieces, line_pieces, assumption_pieces};

use crate::NoMemory;
use expression_printing::add_expr;
use slang_tree::{Expr, Label, Name};
use std::alloc::AllocError;
use token_printing::{Gap, add_gap, add_name, add_numeral, add_text, add_word};

/// One level deeper. No memory holds a text that has more levels.
pub fn deeper(depth: u32) -> Result<u32, NoMemory>
    ensures { IfOk result (λ inner. inner ≡ suc depth) }
{
    depth.checked_add(1).ok_or(AllocError)
}

/// Adds a label behind a gap.
pub(crate) fn add_label(label: Label, gap: Gap, text: &mut Vec<u8>) -> Result<(), NoMemory>
    ensures { OnOk result (Adds text.old.items text.new.items (label_pieces (gap_seen gap) label)) }
{
    add_gap(gap, text)?;
    add_numeral(label.number as u128, text)
}

/// Adds labels, each behind a comma.
fn add_labels(labels: &[Label], text: &mut Vec<u8>) -> Result<(), NoMemory>
    ensures { OnOk result (Adds text.old.items text.new.items (labels_behind labels.now)) }
{
    for label in labels {
        add_text(",", text)?;
        add_label(*label, Gap::Blank, text)?;
    }
    Ok(())
}

/// Adds the labels that a step cites, where it cites some.
fn add_cites(cites: &[Label], text: &mut Vec<u8>) -> Result<(), NoMemory>
    ensures { OnOk result (Adds text.old.items text.new.items (cites_pieces (cites_account cites.now))) }
{
    match cites.split_first() {
        None => Ok(()),
        Some((label, others)) => {
            add_text("(", text)?;
            add_label(*label, Gap::None, text)?;
            add_labels(others, text)?;
            add_text(")", text)
        }
    }
}

/// Adds a rule. Those of substitution are spelled as they are named.
fn add_rule(rule: &Name, text: &mut Vec<u8>) -> Result<(), NoMemory>
    ensures { OnOk result (Adds text.old.items text.new.items (rule_pieces rule.now)) }
{
    add_name(Gap::Blank, rule, text)
}

/// Adds a step by a rule.
pub(crate) fn add_line(
    label: Label,
    claim: &Expr,
    rule: &Name,
    cites: &[Label],
    depth: u32,
    light: bool,
    text: &mut Vec<u8>,
) -> Result<(), NoMemory>
    ensures { OnOk result (Adds text.old.items text.new.items (line_pieces light depth label claim.now rule.now cites.now)) }
{
    add_label(label, Gap::Line(depth), text)?;
    add_word(Gap::Blank, "(", text)?;
    add_expr(claim, Gap::None, light, text)?;
    add_text(")", text)?;
    add_word(Gap::Blank, "by", text)?;
    add_rule(rule, text)?;
    add_cites(cites, text)
}

/// Adds an assumption, on a line of its own.
pub(crate) fn add_assumption(
    label: Label,
    claim: &Expr,
    inner: u32,
    light: bool,
    text: &mut Vec<u8>,
) -> Result<(), NoMemory>
    ensures { OnOk result (Adds text.old.items text.new.items (assumption_pieces inner (assume_account light label (expr_tree claim.now)))) }
{
    add_word(Gap::Blank, "SubProof", text)?;
    add_text("(", text)?;
    add_label(label, Gap::Line(inner), text)?;
    add_word(Gap::Blank, "Assume", text)?;
    add_text("(", text)?;
    add_expr(claim, Gap::None, light, text)?;
    add_text(")", text)
}

/// Adds the variable that a block stands for.
pub(crate) fn add_let(name: &Name, text: &mut Vec<u8>) -> Result<(), NoMemory>
    ensures { OnOk result (Adds text.old.items text.new.items (let_pieces (let_account name.now))) }
{
    add_word(Gap::Blank, "Let", text)?;
    add_text("(", text)?;
    add_text("(", text)?;
    add_name(Gap::None, name, text)?;
    add_text(":", text)?;
    add_word(Gap::Blank, "Z", text)?;
    add_text(")", text)?;
    add_word(Gap::Blank, "=>", text)
}
