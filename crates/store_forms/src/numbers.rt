ghost use Rattle.std.specs.Prelude.{◌≡◌, neg_ℤ, ◌+ℤ◌, ◌*ℤ◌, ◌^◌, ◌≤◌, unsigned_abs};
ghost use Rattle.tree_forms.specs.Form as forms;

const LIMIT: u128 = 1152921504606846976;

/// Whether the number is within 2^60.
pub fn is_within(z: i128) -> bool
    ensures { result ≡ forms.is_within z }
{
    z.unsigned_abs() <= LIMIT
}

pub fn sum(a: i128, b: i128) -> i128
    requires first { unsigned_abs a ≤ 2 ^ 126 }
    requires second { unsigned_abs b ≤ 2 ^ 60 }
    ensures { result ≡ a +ℤ b }
{
    a + b
}

pub fn product(a: i128, b: i128) -> i128
    requires first { unsigned_abs a ≤ 2 ^ 60 }
    requires second { unsigned_abs b ≤ 2 ^ 60 }
    ensures { result ≡ a *ℤ b }
{
    a * b
}

pub fn opposite(z: i128) -> i128
    requires { unsigned_abs z ≤ 2 ^ 60 }
    ensures { result ≡ neg_ℤ z }
{
    -z
}
