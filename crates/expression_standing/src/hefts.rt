ghost use Rattle.std.specs.Prelude.{◌≡◌, ◌≤◌, ◌&&◌, ℕ, min, nat_eq, not, true};
ghost use Rattle.slang_grammar.specs.declared.operator.Infix.{Infix};
ghost use Rattle.slang_grammar.specs.declared.operator.Side.TheVariants.{Left, Right};
ghost use Rattle.slang_grammar.specs.Operators.{whole_level};
ghost use Rattle.slang_grammar.specs.Expressions.{ExprText, level};
ghost use Rattle.print_expressions.specs.Hefts as spec;
ghost use Rattle.print_expressions.specs.Accounts as accounts;
ghost use Rattle.expression_standing.specs.Hefts.{IsCapped, is_less};

use crate::heft::Heft;

/// Of tokens that do not count.
pub(crate) fn nothing() -> Heft
    ensures { IsCapped result spec.nothing }
{
    Heft { peak: 0, count: 0 }
}

/// Of brackets round what does not count.
pub(crate) fn named() -> Heft
    ensures { IsCapped result (spec.around 0) }
{
    Heft { peak: 1, count: 1 }
}

/// Of a token that counts.
pub(crate) fn one() -> Heft
    ensures { IsCapped result spec.one }
{
    Heft { peak: 1, count: 1 }
}

/// Of brackets round what adds so much.
pub(crate) fn around(peak: u16) -> Heft
    requires { peak ≤ 201 }
    ensures { (p : ℕ) → peak ≡ min p spec.heavy → IsCapped result (spec.around p) }
{
    Heft {
        peak: (peak + 1).min(201),
        count: 1,
    }
}

/// Of one thing, and then another.
pub(crate) fn followed(a: Heft, b: Heft) -> Heft
    ensures { (x y : spec.Heft) → IsCapped a x → IsCapped b y → IsCapped result (spec.followed x y) }
{
    Heft {
        peak: a.peak.max(a.count + b.peak).min(201),
        count: (a.count + b.count).min(201),
    }
}

/// Of an operator between two operands.
pub(crate) fn between(a: Heft, b: Heft) -> Heft
    ensures { (x y : spec.Heft) → IsCapped a x → IsCapped b y → IsCapped result (spec.binary_heft x y) }
{
    followed(a, followed(one(), b))
}

/// Of an expression in brackets, where it does not stand without them.
pub(crate) fn placed(stands: bool, own: Heft) -> Heft
    ensures { (text : ExprText) → IsCapped own (spec.heft text) → IsCapped result (spec.heft (accounts.in_brackets_unless stands text)) }
{
    if stands { own } else { around(own.peak) }
}

/// Whether the one adds less than the other, or the same and leaves less counted.
fn is_lighter(a: Heft, b: Heft) -> bool
    ensures { result ≡ is_less a b }
{
    a.peak < b.peak || (a.peak == b.peak && a.count < b.count)
}

/// Whether a part stands without brackets where the whole is to be light, by the whole with the part as it is and with the
/// part in brackets.
fn stays(may: bool, bare: Heft, enclosed: Heft) -> bool
    ensures { result ≡ (may && not (is_less enclosed bare)) }
{
    may && !is_lighter(enclosed, bare)
}

/// The same of the left one of two operands, by whether each may stand without brackets.
pub(crate) fn left_stays(may_left: bool, may_right: bool, left: Heft, right: Heft) -> bool
    ensures { (row : Infix) (l r : ExprText) → may_left ≡ accounts.is_operand Left row l → may_right ≡ accounts.is_operand Right row r →
        IsCapped left (spec.heft l) → IsCapped right (spec.heft r) → result ≡ accounts.left_stays true row l r }
{
    let next = placed(may_right, right);
    stays(
        may_left,
        between(left, next),
        between(around(left.peak), next),
    )
}

/// The same of the right one.
pub(crate) fn right_stays(may_left: bool, may_right: bool, left: Heft, right: Heft) -> bool
    ensures { (row : Infix) (l r : ExprText) → may_left ≡ accounts.is_operand Left row l → may_right ≡ accounts.is_operand Right row r →
        IsCapped left (spec.heft l) → IsCapped right (spec.heft r) → result ≡ accounts.right_stays true row l r }
{
    let own = placed(left_stays(may_left, may_right, left, right), left);
    stays(
        may_right,
        between(own, right),
        between(own, around(right.peak)),
    )
}

/// Of an operator between two operands, each in brackets where it does not stand without them.
pub(crate) fn binary(may_left: bool, may_right: bool, left: Heft, right: Heft) -> Heft
    ensures { (row : Infix) (l r : ExprText) → may_left ≡ accounts.is_operand Left row l → may_right ≡ accounts.is_operand Right row r →
        IsCapped left (spec.heft l) → IsCapped right (spec.heft r) → IsCapped result (spec.heft (accounts.binary_account true row l r)) }
{
    let own = placed(left_stays(may_left, may_right, left, right), left);
    let next = placed(right_stays(may_left, may_right, left, right), right);
    between(own, next)
}

/// Whether a head stands without brackets in front of what adds so much.
pub(crate) fn head_stays(may: bool, own: Heft, next: Heft) -> bool
    ensures { (text : ExprText) (behind : spec.Heft) → may ≡ nat_eq (level text) whole_level → IsCapped own (spec.heft text) → IsCapped next behind →
        result ≡ accounts.head_stays true text behind }
{
    stays(may, followed(own, next), followed(around(own.peak), next))
}

/// Of a head and what stands behind it.
pub(crate) fn headed(may: bool, own: Heft, next: Heft) -> Heft
    ensures { (text : ExprText) (behind : spec.Heft) → may ≡ nat_eq (level text) whole_level → IsCapped own (spec.heft text) → IsCapped next behind →
        IsCapped result (spec.followed (spec.heft (accounts.head_before true text behind)) behind) }
{
    followed(placed(head_stays(may, own, next), own), next)
}

/// Whether the first of two that count together stands without brackets.
pub(crate) fn first_stays(own: Heft, next: Heft) -> bool
    ensures { (text behind : ExprText) → IsCapped own (spec.heft text) → IsCapped next (spec.heft behind) →
        result ≡ accounts.first_stays true text behind }
{
    stays(true, followed(own, next), followed(around(own.peak), next))
}

/// Of two that count together.
pub(crate) fn pair(own: Heft, next: Heft) -> Heft
    ensures { (text behind : ExprText) → IsCapped own (spec.heft text) → IsCapped next (spec.heft behind) →
        IsCapped result (spec.followed (spec.heft (accounts.first_before true text behind)) (spec.heft behind)) }
{
    followed(placed(first_stays(own, next), own), next)
}
