ghost use Rattle.std.specs.Prelude.{◌≡◌};
ghost use Rattle.slang_values.specs.Value.{same_value, same_values, same_type as same_plain_type};
ghost use Rattle.lk_claims.specs.Claim.{value_type};
ghost use Rattle.run_values.specs.Value.{plain_value, plain_values};

use crate::value::Value;
use lk_claims::Ty;

/// Whether two types are the same.
#[tactic(auto, using(lk_claims::proofs::Types::type_lines))]
pub fn same_type(a: &Ty, b: &Ty) -> bool
    ensures { result ≡ same_plain_type (value_type a.now) (value_type b.now) }
{
    match (a, b) {
        (Ty::Unit, Ty::Unit) | (Ty::Z, Ty::Z) | (Ty::B, Ty::B) => true,
        (Ty::Seq(a), Ty::Seq(b)) => same_type(a.get(), b.get()),
        (Ty::Rec(m), Ty::Rec(n)) => m == n,
        (Ty::Unit, Ty::Z | Ty::B | Ty::Seq(_) | Ty::Rec(_))
        | (Ty::Z, Ty::Unit | Ty::B | Ty::Seq(_) | Ty::Rec(_))
        | (Ty::B, Ty::Unit | Ty::Z | Ty::Seq(_) | Ty::Rec(_))
        | (Ty::Seq(_), Ty::Unit | Ty::Z | Ty::B | Ty::Rec(_))
        | (Ty::Rec(_), Ty::Unit | Ty::Z | Ty::B | Ty::Seq(_)) => false,
    }
}

impl Value {
    /// Whether two values are the same.
    pub fn same(&self, other: &Value) -> bool
        ensures { result ≡ same_value (plain_value self.now) (plain_value other.now) }
    {
        are_same(self, other)
    }
}

#[cycle(same)]
#[tactic(auto, using(crate::proofs::Values::value_lines))]
fn are_same(a: &Value, b: &Value) -> bool
    ensures { result ≡ same_value (plain_value a.now) (plain_value b.now) }
{
    match (a, b) {
        (Value::Unit, Value::Unit) => true,
        (Value::Z(y), Value::Z(z)) => y == z,
        (Value::B(a), Value::B(b)) => a == b,
        (Value::Seq(s, vs), Value::Seq(t, ws)) => {
            same_type(s, t) && are_all_same(vs.as_slice(), ws.as_slice())
        }
        (Value::Rec(m, vs), Value::Rec(n, ws)) => {
            m == n && are_all_same(vs.as_slice(), ws.as_slice())
        }
        (Value::Unit, Value::Z(_) | Value::B(_) | Value::Seq(_, _) | Value::Rec(_, _))
        | (Value::Z(_), Value::Unit | Value::B(_) | Value::Seq(_, _) | Value::Rec(_, _))
        | (Value::B(_), Value::Unit | Value::Z(_) | Value::Seq(_, _) | Value::Rec(_, _))
        | (Value::Seq(_, _), Value::Unit | Value::Z(_) | Value::B(_) | Value::Rec(_, _))
        | (Value::Rec(_, _), Value::Unit | Value::Z(_) | Value::B(_) | Value::Seq(_, _)) => false,
    }
}

#[cycle(same)]
#[tactic(auto, using(crate::proofs::Values::other_lengths))]
fn are_all_same(a: &[Value], b: &[Value]) -> bool
    ensures { result ≡ same_values (plain_values a.now) (plain_values b.now) }
{
    if a.len() != b.len() {
        return false;
    }
    for place in 0..a.len() {
        if !are_same(&a[place], &b[place]) {
            return false;
        }
    }
    true
}
