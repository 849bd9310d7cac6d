//! Laws of products, floors and truncated quotients of whole numbers.
//!
//! std reads whole numbers linearly (`omega (arith, ints)`), and has few laws of their products and quotients. Those that
//! the proofs of this repository need stand here once, in `proofs/Products.antt`, `proofs/Floors.antt` and
//! `proofs/Truncation.antt`; another crate imports them as `Rattle.whole_numbers.proofs.Products.{mul-sum}`. The functions
//! named after laws have no code: their contracts state the laws, so that the check of this crate proves them.
#![tactic(auto)]

ghost use Rattle.std.specs.Prelude.{◌≡◌, ◌≢◌, ◌<◌, ◌↔◌, ℤ, pos, ◌+ℤ◌, ◌-ℤ◌, ◌*ℤ◌, ◌≤ℤ◌, ◌<ℤ◌, unsigned_abs, int_div, int_rem};
ghost use Rattle.std.specs.Int.{int_div_euclid, IsGcd};
ghost use Rattle.whole_numbers.specs.Gcd.{gcd};

/// The greatest common divisor, by Euclid's rule; that of 0 and 0 is 0.
pub fn greatest_common_divisor(a: u128, b: u128) -> u128
    ensures value { result ≡ gcd a b }
    ensures greatest { IsGcd a b result }
{
    let mut x = a;
    let mut y = b;
    'steps: while y != 0 {
        let rest = x % y;
        x = y;
        y = rest;
    }
    x
}

/// Products of sums and of products, under an order, and where they are 0.
pub fn laws_of_products()
    ensures over_a_sum { (a b c : ℤ) → a *ℤ (b +ℤ c) ≡ a *ℤ b +ℤ a *ℤ c }
    ensures of_a_sum { (a b c : ℤ) → (a +ℤ b) *ℤ c ≡ a *ℤ c +ℤ b *ℤ c }
    ensures over_a_difference { (a b c : ℤ) → a *ℤ (b -ℤ c) ≡ a *ℤ b -ℤ a *ℤ c }
    ensures associative { (a b c : ℤ) → (a *ℤ b) *ℤ c ≡ a *ℤ (b *ℤ c) }
    ensures ordered { (k a b : ℤ) → pos 0 ≤ℤ k → a ≤ℤ b → (k *ℤ a) ≤ℤ (k *ℤ b) }
    ensures strictly { (k a b : ℤ) → pos 0 <ℤ k → a <ℤ b → (k *ℤ a) <ℤ (k *ℤ b) }
    ensures nonzero { (a b : ℤ) → a ≢ pos 0 → b ≢ pos 0 → a *ℤ b ≢ pos 0 }
    ensures cancelled { (k a b : ℤ) → k ≢ pos 0 → k *ℤ a ≡ k *ℤ b → a ≡ b }
{}

/// The floor of `n / d` is the greatest whole number `z` with `d * z` at most `n`.
pub fn laws_of_floors()
    ensures greatest { (n d z : ℤ) → pos 0 <ℤ d → ((d *ℤ z) ≤ℤ n) ↔ (z ≤ℤ int_div_euclid n d) }
    ensures of_a_product { (d z : ℤ) → pos 0 <ℤ d → int_div_euclid (d *ℤ z) d ≡ z }
{}

/// The quotient toward zero and the remainder, which has the dividend's sign, are the only ones there are.
pub fn laws_of_truncation()
    ensures whole { (a d : ℤ) → d *ℤ int_div a d +ℤ int_rem a d ≡ a }
    ensures below { (a d : ℤ) → d ≢ pos 0 → unsigned_abs (int_rem a d) < unsigned_abs d }
    ensures bounds { (a d : ℤ) → pos 0 <ℤ d →
        ((pos 1 -ℤ d) ≤ℤ (a -ℤ d *ℤ int_div a d)) × ((a -ℤ d *ℤ int_div a d) ≤ℤ (d -ℤ pos 1)) }
    ensures unique { (a d q r : ℤ) → d *ℤ q +ℤ r ≡ a → unsigned_abs r < unsigned_abs d →
        (pos 0 ≤ℤ a → pos 0 ≤ℤ r) → (a ≤ℤ pos 0 → r ≤ℤ pos 0) → (int_div a d ≡ q) × (int_rem a d ≡ r) }
    ensures exact { (d z : ℤ) → d ≢ pos 0 → (int_div (d *ℤ z) d ≡ z) × (int_rem (d *ℤ z) d ≡ pos 0) }
{}
