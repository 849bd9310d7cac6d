ghost use Rattle.std.specs.Prelude.{OnOk, nat_abs, [], ◌∷◌};
ghost use Rattle.std.specs.Option.{option_map};
ghost use Rattle.slang_grammar.specs.Expressions as account;
ghost use Rattle.slang_tree.specs.TypeTree.{type_tree};
ghost use Rattle.print_expressions.specs.Bare.{nowhere, bare_name};
ghost use Rattle.print_expressions.specs.Operators.{row_of};
ghost use Rattle.print_expressions.specs.Hefts as hefts;
ghost use Rattle.print_expressions.specs.Accounts as accounts;
ghost use Rattle.print_layout.specs.Pieces as pieces;
ghost use Rattle.print_layout.specs.Expressions.{expr_pieces, exprs_pieces};
ghost use Rattle.token_printing.specs.Gaps.{gap_seen};
ghost use Rattle.expression_standing.specs.Account.{account_of, accounts_of};
ghost use Rattle.expression_printing.specs.Printed.{Adds, placed_pieces, behind_pieces, arguments_pieces, element_pieces, named_pieces, bound_of, body_pieces};

use crate::NoMemory;
use expression_standing::{
    left_stands, right_stands, stands_as_head, stands_before_arguments, stands_before_dot,
    stands_before_element, stands_behind_prefix, stands_first,
};
use slang_tree::{Expr, Name, Operator, TypeName};
use slang_values::Quantifier;
use token_printing::{
    Gap, add_gap, add_name, add_numeral, add_text, add_type, add_word, operator_sign,
};

/// Adds the type of the elements, where there is one.
pub fn add_element(ty: &Option<TypeName>, text: &mut Vec<u8>) -> Result<(), NoMemory>
    ensures { OnOk result (Adds text.old.items text.new.items (element_pieces ty.now)) }
{
    match ty {
        None => Ok(()),
        Some(ty) => {
            add_text("[", text)?;
            add_type(ty, Gap::None, text)?;
            add_text("]", text)
        }
    }
}

/// Adds a name in round brackets.
fn add_named(name: &Name, text: &mut Vec<u8>) -> Result<(), NoMemory>
    ensures { OnOk result (Adds text.old.items text.new.items (named_pieces name.now)) }
{
    add_text("(", text)?;
    add_name(Gap::None, name, text)?;
    add_text(")", text)
}

/// Adds a number behind a gap.
pub fn add_number(z: i128, gap: Gap, text: &mut Vec<u8>) -> Result<(), NoMemory>
    ensures { OnOk result (Adds text.old.items text.new.items (expr_pieces (gap_seen gap) (account.number (accounts.numeral (nat_abs z)) nowhere))) }
{
    add_gap(gap, text)?;
    add_numeral(z.unsigned_abs(), text)
}

/// Adds the word of a quantifier behind a gap.
fn add_quantifier(quantifier: Quantifier, gap: Gap, text: &mut Vec<u8>) -> Result<(), NoMemory>
    ensures { OnOk result (Adds text.old.items text.new.items
        (pieces.mark (gap_seen gap) (account.quantifier_kind (accounts.word_of quantifier)) nowhere ∷ [])) }
{
    match quantifier {
        Quantifier::All => add_word(gap, "All", text),
        Quantifier::Exists => add_word(gap, "Exists", text),
    }
}

/// Adds an expression behind a gap, with brackets only where they are needed, or lightly.
#[cycle(printing)]
#[tactic(auto, using(slang_tree::proofs::Lines::expr_lines, crate::proofs::Sizes::smaller_lines))]
pub fn add_expr(expr: &Expr, gap: Gap, light: bool, text: &mut Vec<u8>) -> Result<(), NoMemory>
    ensures { OnOk result (Adds text.old.items text.new.items (expr_pieces (gap_seen gap) (account_of light expr.now))) }
{
    match expr {
        Expr::Number(_, z) => add_number(*z, gap, text),
        Expr::True(_) => add_word(gap, "T", text),
        Expr::False(_) => add_word(gap, "F", text),
        Expr::Name(name) => add_name(gap, name, text),
        Expr::Res(_, ty) => {
            add_word(gap, "Res", text)?;
            add_element(ty, text)
        }
        Expr::In(_, name) => {
            add_word(gap, "In", text)?;
            add_named(name, text)
        }
        Expr::Old(_, name) => {
            add_word(gap, "Old", text)?;
            add_named(name, text)
        }
        Expr::Minus(_, operand) => {
            add_word(gap, "-", text)?;
            add_tight(operand.get(), light, text)
        }
        Expr::Not(_, operand) => {
            add_word(gap, "!", text)?;
            add_tight(operand.get(), light, text)
        }
        Expr::Binary(_, operator, left, right) => {
            add_binary(left.get(), right.get(), *operator, gap, light, text)
        }
        Expr::Apply(_, head, arguments) => {
            add_application(head.get(), arguments.as_slice(), gap, light, text)
        }
        Expr::Update(_, head, index, element) => {
            add_update(head.get(), index.get(), element.get(), gap, light, text)
        }
        Expr::Field(_, head, name) => add_field(head.get(), name, gap, light, text),
        Expr::Sequence(_, ty, elements) => {
            add_sequence(elements.as_slice(), ty, gap, light, text)
        }
        Expr::Quantified(_, quantifier, low, high, name, body) => {
            add_quantified(
                low.get(),
                high.get(),
                body.get(),
                *quantifier,
                name,
                gap,
                light,
                text,
            )
        }
        Expr::QuantifiedIndices(_, quantifier, head, name, body) => {
            add_indices(head.get(), body.get(), *quantifier, name, gap, light, text)
        }
    }
}

/// Adds an expression behind a gap, in brackets where it does not stand without them.
#[cycle(printing)]
fn add_placed(
    expr: &Expr,
    stands: bool,
    gap: Gap,
    light: bool,
    text: &mut Vec<u8>,
) -> Result<(), NoMemory>
    ensures { OnOk result (Adds text.old.items text.new.items (placed_pieces (gap_seen gap) stands light expr.now)) }
{
    if stands {
        add_expr(expr, gap, light, text)
    } else {
        add_word(gap, "(", text)?;
        add_expr(expr, Gap::None, light, text)?;
        add_text(")", text)
    }
}

/// Adds what stands behind a prefix.
#[cycle(printing)]
fn add_tight(expr: &Expr, light: bool, text: &mut Vec<u8>) -> Result<(), NoMemory>
    ensures { OnOk result (Adds text.old.items text.new.items (expr_pieces pieces.none (accounts.as_prefixed (account_of light expr.now)))) }
{
    add_placed(expr, stands_behind_prefix(expr), Gap::None, light, text)
}

/// Adds an operator between two operands.
#[cycle(printing)]
fn add_binary(
    left: &Expr,
    right: &Expr,
    operator: Operator,
    gap: Gap,
    light: bool,
    text: &mut Vec<u8>,
) -> Result<(), NoMemory>
    ensures { OnOk result (Adds text.old.items text.new.items (expr_pieces (gap_seen gap)
        (accounts.binary_account light (row_of operator) (account_of light left.now) (account_of light right.now)))) }
{
    add_placed(
        left,
        left_stands(left, right, operator, light),
        gap,
        light,
        text,
    )?;
    add_word(Gap::Blank, operator_sign(operator), text)?;
    add_placed(
        right,
        right_stands(left, right, operator, light),
        Gap::Blank,
        light,
        text,
    )
}

/// Adds a head with its arguments.
#[cycle(printing)]
fn add_application(
    head: &Expr,
    arguments: &[Expr],
    gap: Gap,
    light: bool,
    text: &mut Vec<u8>,
) -> Result<(), NoMemory>
    ensures { OnOk result (Adds text.old.items text.new.items (expr_pieces (gap_seen gap)
        (accounts.application_account light (account_of light head.now) (accounts_of light arguments.now)))) }
{
    add_placed(
        head,
        stands_before_arguments(head, arguments, light),
        gap,
        light,
        text,
    )?;
    add_arguments(arguments, light, text)
}

/// Adds a sequence with another element at an index.
#[cycle(printing)]
fn add_update(
    head: &Expr,
    index: &Expr,
    element: &Expr,
    gap: Gap,
    light: bool,
    text: &mut Vec<u8>,
) -> Result<(), NoMemory>
    ensures { OnOk result (Adds text.old.items text.new.items (expr_pieces (gap_seen gap)
        (accounts.update_account light (account_of light head.now) (account_of light index.now) (account_of light element.now)))) }
{
    add_placed(
        head,
        stands_before_element(head, index, element, light),
        gap,
        light,
        text,
    )?;
    add_text("(", text)?;
    add_placed(
        index,
        stands_first(index, element, light),
        Gap::None,
        light,
        text,
    )?;
    add_word(Gap::Blank, "~>", text)?;
    add_expr(element, Gap::Blank, light, text)?;
    add_text(")", text)
}

/// Adds a field of a head.
#[cycle(printing)]
fn add_field(
    head: &Expr,
    name: &Name,
    gap: Gap,
    light: bool,
    text: &mut Vec<u8>,
) -> Result<(), NoMemory>
    ensures { OnOk result (Adds text.old.items text.new.items (expr_pieces (gap_seen gap)
        (account.field (accounts.head_before light (account_of light head.now) hefts.one) nowhere (bare_name name.now)))) }
{
    add_placed(head, stands_before_dot(head, light), gap, light, text)?;
    add_text(".", text)?;
    add_name(Gap::None, name, text)
}

/// Adds a sequence of elements.
#[cycle(printing)]
fn add_sequence(
    elements: &[Expr],
    ty: &Option<TypeName>,
    gap: Gap,
    light: bool,
    text: &mut Vec<u8>,
) -> Result<(), NoMemory>
    ensures { OnOk result (Adds text.old.items text.new.items (expr_pieces (gap_seen gap)
        (account.sequence nowhere (option_map accounts.element_account (option_map type_tree ty.now)) nowhere (accounts_of light elements.now) nowhere))) }
{
    add_word(gap, "ISZ", text)?;
    add_element(ty, text)?;
    add_arguments(elements, light, text)
}

/// Adds a quantifier over a range.
#[cycle(printing)]
fn add_quantified(
    low: &Expr,
    high: &Expr,
    body: &Expr,
    quantifier: Quantifier,
    name: &Name,
    gap: Gap,
    light: bool,
    text: &mut Vec<u8>,
) -> Result<(), NoMemory>
    ensures { OnOk result (Adds text.old.items text.new.items (expr_pieces (gap_seen gap)
        (account.quantified (accounts.word_of quantifier) nowhere nowhere
        (accounts.first_before light (account_of light low.now) (account_of light high.now)) nowhere (account_of light high.now) nowhere
        (bound_of name.now) (account_of light body.now)))) }
{
    add_quantifier(quantifier, gap, text)?;
    add_text("(", text)?;
    add_placed(low, stands_first(low, high, light), Gap::None, light, text)?;
    add_word(Gap::Blank, "until", text)?;
    add_expr(high, Gap::Blank, light, text)?;
    add_text(")", text)?;
    add_body(body, name, light, text)
}

/// Adds a quantifier over the indices of a sequence.
#[cycle(printing)]
fn add_indices(
    head: &Expr,
    body: &Expr,
    quantifier: Quantifier,
    name: &Name,
    gap: Gap,
    light: bool,
    text: &mut Vec<u8>,
) -> Result<(), NoMemory>
    ensures { OnOk result (Adds text.old.items text.new.items (expr_pieces (gap_seen gap)
        (account.quantified_indices (accounts.word_of quantifier) nowhere nowhere (accounts.as_head (account_of light head.now)) nowhere nowhere nowhere
        (bound_of name.now) (account_of light body.now)))) }
{
    add_quantifier(quantifier, gap, text)?;
    add_text("(", text)?;
    add_placed(head, stands_as_head(head), Gap::None, light, text)?;
    add_text(".", text)?;
    add_text("indices", text)?;
    add_text(")", text)?;
    add_body(body, name, light, text)
}

/// Adds the variable of a quantifier and its body.
#[cycle(printing)]
fn add_body(body: &Expr, name: &Name, light: bool, text: &mut Vec<u8>) -> Result<(), NoMemory>
    ensures { OnOk result (Adds text.old.items text.new.items (body_pieces light name.now body.now)) }
{
    add_text("(", text)?;
    add_name(Gap::None, name, text)?;
    add_word(Gap::Blank, "=>", text)?;
    add_expr(body, Gap::Blank, light, text)?;
    add_text(")", text)
}

/// Adds arguments in round brackets.
#[cycle(printing)]
pub fn add_arguments(exprs: &[Expr], light: bool, text: &mut Vec<u8>) -> Result<(), NoMemory>
    ensures { OnOk result (Adds text.old.items text.new.items (arguments_pieces light exprs.now)) }
{
    add_text("(", text)?;
    add_exprs(exprs, Gap::None, Gap::Blank, light, text)?;
    add_text(")", text)
}

/// Adds expressions parted by commas, with the gap before the first and that before each that follows.
#[cycle(printing)]
pub fn add_exprs(
    exprs: &[Expr],
    first: Gap,
    next: Gap,
    light: bool,
    text: &mut Vec<u8>,
) -> Result<(), NoMemory>
    ensures { OnOk result (Adds text.old.items text.new.items (exprs_pieces (gap_seen first) (gap_seen next) (accounts_of light exprs.now))) }
{
    match exprs.split_first() {
        None => Ok(()),
        Some((expr, others)) => {
            add_expr(expr, first, light, text)?;
            add_behind(others, next, light, text)
        }
    }
}

/// Adds expressions, each behind a comma.
#[cycle(printing)]
#[tactic(auto, using(crate::proofs::Sizes::size_lines))]
fn add_behind(exprs: &[Expr], gap: Gap, light: bool, text: &mut Vec<u8>) -> Result<(), NoMemory>
    ensures { OnOk result (Adds text.old.items text.new.items (behind_pieces (gap_seen gap) light exprs.now)) }
{
    for expr in exprs {
        add_text(",", text)?;
        add_expr(expr, gap, light, text)?;
    }
    Ok(())
}
