ghost use Rattle.std.specs.Prelude.{◌≡◌, ◌++◌};
ghost use Rattle.slang_lexer.specs.Spelling.{signs, words};
ghost use Rattle.slang_grammar.specs.Operators.{entry};
ghost use Rattle.print_expressions.specs.Operators.{row_of};
ghost use Rattle.print_layout.specs.Pieces.{spelled_in};

use slang_grammar::{Infix, Side};
use slang_lexer::TokenKind;
use slang_tree::Operator;

/// A row of the table of operators.
fn row(operator: Operator, sign: TokenKind, level: u8, joins: Side) -> Infix
    ensures { result ≡ entry sign operator level joins }
{
    Infix {
        sign,
        operator,
        level,
        joins,
    }
}

/// The row of an operator in the table of operators.
#[tactic(auto, unfolding(print_expressions::specs::Operators::row_of, slang_grammar::specs::Operators::operators))]
pub fn operator_row(operator: Operator) -> Infix
    ensures { result ≡ row_of operator }
{
    match operator {
        Operator::LooseImply => row(operator, TokenKind::LowArrow, 1, Side::Right),
        Operator::LooseCondImply => row(operator, TokenKind::LongLowArrow, 1, Side::Right),
        Operator::Or => row(operator, TokenKind::Bar, 2, Side::Left),
        Operator::CondOr => row(operator, TokenKind::DoubleBar, 2, Side::Left),
        Operator::And => row(operator, TokenKind::Ampersand, 3, Side::Left),
        Operator::CondAnd => row(operator, TokenKind::DoubleAmpersand, 3, Side::Left),
        Operator::Eq => row(operator, TokenKind::DoubleEquals, 4, Side::Left),
        Operator::Ne => row(operator, TokenKind::NotEquals, 4, Side::Left),
        Operator::Lt => row(operator, TokenKind::Less, 5, Side::Left),
        Operator::Le => row(operator, TokenKind::LessOrEqual, 5, Side::Left),
        Operator::Gt => row(operator, TokenKind::Greater, 5, Side::Left),
        Operator::Ge => row(operator, TokenKind::GreaterOrEqual, 5, Side::Left),
        Operator::Append => row(operator, TokenKind::ColonPlus, 6, Side::Left),
        Operator::Imply => row(operator, TokenKind::DashArrow, 7, Side::Right),
        Operator::CondImply => row(operator, TokenKind::LongDashArrow, 7, Side::Right),
        Operator::Add => row(operator, TokenKind::Plus, 7, Side::Left),
        Operator::Sub => row(operator, TokenKind::Minus, 7, Side::Left),
        Operator::Mul => row(operator, TokenKind::Star, 8, Side::Left),
        Operator::Div => row(operator, TokenKind::Slash, 8, Side::Left),
        Operator::Rem => row(operator, TokenKind::Percent, 8, Side::Left),
    }
}

/// How an operator is spelled.
#[tactic(auto, unfolding(print_expressions::specs::Operators::row_of, slang_grammar::specs::Operators::operators, slang_lexer::specs::Spelling::signs, slang_lexer::specs::Spelling::words))]
pub fn operator_sign(operator: Operator) -> &'static str
    ensures { result.now ≡ spelled_in (signs ++ words) (row_of operator).sign }
{
    match operator {
        Operator::LooseImply => "__>:",
        Operator::LooseCondImply => "___>:",
        Operator::Or => "|",
        Operator::CondOr => "||",
        Operator::And => "&",
        Operator::CondAnd => "&&",
        Operator::Eq => "==",
        Operator::Ne => "!=",
        Operator::Lt => "<",
        Operator::Le => "<=",
        Operator::Gt => ">",
        Operator::Ge => ">=",
        Operator::Append => ":+",
        Operator::Imply => "->:",
        Operator::CondImply => "-->:",
        Operator::Add => "+",
        Operator::Sub => "-",
        Operator::Mul => "*",
        Operator::Div => "/",
        Operator::Rem => "%",
    }
}
