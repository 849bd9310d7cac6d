ghost use Rattle.std.specs.Prelude.{◌≡◌, ◌≤◌, ◌<◌, IfSome, IfNone, IfErr, OnOk, map};
ghost use Rattle.slang_tree.specs.ExprTree.{ExprTree};
ghost use Rattle.slang_grammar.specs.declared.operator.Side.TheVariants.{Left};
ghost use Rattle.slang_grammar.specs.Operators.{infix_in, infix_of};
ghost use Rattle.slang_machine.specs.Open.{Around, pull, held};
ghost use Rattle.slang_machine.specs.States.{whole, have};
ghost use Rattle.token_cursor.specs.Gives.{ahead, IfRefused, Refuses};
ghost use Rattle.expression_parser.specs.Below.{row_infix, operator_at, StopsAt, IsBelow};

use slang_grammar::{Infix, Side};
use slang_lexer::TokenKind;
use slang_tree::Operator;
use token_cursor::{Cursor, Due, Stop};

/// The operators between two operands: the sign of each, its level, and the side to which it joins.
const OPERATORS: [(TokenKind, Operator, u8, Side); 20] = [
    (TokenKind::LowArrow, Operator::LooseImply, 1, Side::Right),
    (
        TokenKind::LongLowArrow,
        Operator::LooseCondImply,
        1,
        Side::Right,
    ),
    (TokenKind::Bar, Operator::Or, 2, Side::Left),
    (TokenKind::DoubleBar, Operator::CondOr, 2, Side::Left),
    (TokenKind::Ampersand, Operator::And, 3, Side::Left),
    (TokenKind::DoubleAmpersand, Operator::CondAnd, 3, Side::Left),
    (TokenKind::DoubleEquals, Operator::Eq, 4, Side::Left),
    (TokenKind::NotEquals, Operator::Ne, 4, Side::Left),
    (TokenKind::Less, Operator::Lt, 5, Side::Left),
    (TokenKind::LessOrEqual, Operator::Le, 5, Side::Left),
    (TokenKind::Greater, Operator::Gt, 5, Side::Left),
    (TokenKind::GreaterOrEqual, Operator::Ge, 5, Side::Left),
    (TokenKind::ColonPlus, Operator::Append, 6, Side::Left),
    (TokenKind::Plus, Operator::Add, 7, Side::Left),
    (TokenKind::Minus, Operator::Sub, 7, Side::Left),
    (TokenKind::DashArrow, Operator::Imply, 7, Side::Right),
    (
        TokenKind::LongDashArrow,
        Operator::CondImply,
        7,
        Side::Right,
    ),
    (TokenKind::Star, Operator::Mul, 8, Side::Left),
    (TokenKind::Slash, Operator::Div, 8, Side::Left),
    (TokenKind::Percent, Operator::Rem, 8, Side::Left),
];

/// How strongly an operator pulls its operand on this side. An operand between two operators goes to the one that pulls
/// it more strongly, and to none where both pull alike.
pub fn pull(side: Side, row: Infix) -> u8
    requires { row.level ≤ 8 }
    ensures value { result ≡ pull side row }
    ensures some { 0 < result }
    ensures small { result ≤ 18 }
{
    match (side, row.joins) {
        (Side::Left, Side::Left) | (Side::Right, Side::Right) => 2 * row.level + 1,
        (Side::Left, Side::Right) | (Side::Right, Side::Left) => 2 * row.level + 2,
    }
}

/// The operator of a table whose sign this is.
fn infix_in(rows: &[(TokenKind, Operator, u8, Side)], kind: TokenKind) -> Option<Infix>
    ensures { result ≡ infix_in (map row_infix rows.now) kind }
{
    for &(sign, operator, level, joins) in rows {
        if sign == kind {
            return Some(Infix {
                sign,
                operator,
                level,
                joins,
            });
        }
    }
    None
}

/// The operator between two operands whose sign this is.
fn infix_of(kind: TokenKind) -> Option<Infix>
    ensures value { result ≡ infix_of kind }
    ensures small { IfSome result (λ row. row.level ≤ 8) }
{
    infix_in(&OPERATORS, kind)
}

/// The operator that comes next.
fn operator_at(tokens: &Cursor<'_, '_>) -> Option<Infix>
    ensures value { result ≡ operator_at (ahead tokens.now) }
    ensures small { IfSome result (λ row. row.level ≤ 8) }
{
    match tokens.first() {
        Some(token) => infix_of(token.kind),
        None => None,
    }
}

/// The operator that comes next, where it pulls more strongly than the one before, which pulls so.
pub fn stronger(before: u8, tokens: &Cursor<'_, '_>) -> Option<Infix>
    ensures some { IfSome result (λ row. (operator_at (ahead tokens.now) ≡ Some row) × (before < pull Left row) × (row.level ≤ 8)) }
    ensures none { IfNone result (StopsAt before (ahead tokens.now)) }
{
    let row = operator_at(tokens)?;
    if pull(Side::Left, row) > before {
        Some(row)
    } else {
        None
    }
}

/// Refuses an operator that pulls just as strongly as the one before: of one level, they join to two sides.
pub fn refuse_mixed(before: u8, tokens: &Cursor<'_, '_>) -> Result<(), Stop>
    ensures stops { OnOk result (StopsAt before (ahead tokens.now) → IsBelow before (operator_at (ahead tokens.now))) }
    ensures refused { IfErr result (λ stop. IfRefused stop (λ due. (expr : ExprTree) (around : Around) → held around ≡ before
        → Refuses tokens.now (have (whole expr) around) tokens.now due)) }
{
    match operator_at(tokens) {
        Some(row) if pull(Side::Left, row) == before => Err(Stop::Refused(Due::Other)),
        _ => Ok(()),
    }
}
