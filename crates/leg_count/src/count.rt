ghost use Rattle.std.specs.Prelude.{◌≡◌, ℕ};
ghost use Rattle.lk_programs.specs.Program.{code_tree, code_trees, method_tree};
ghost use Rattle.leg_rules.specs.Legs.{leg_count as count_of_method, leg_count_of, leg_count_of_code};
ghost use Rattle.leg_count.specs.Capped.{capped};

use lk_programs::{Code, Method};

/// How many legs statements have before that many of what follows them, or the greatest number.
#[cycle(count)]
#[tactic(auto, using(crate::proofs::Sizes::size_lines))]
pub fn leg_count_behind(codes: &[Code], following: u64) -> u64
    ensures { (n : ℕ) → following ≡ capped n → result ≡ capped (leg_count_of_code (code_trees codes.now) n) }
{
    let mut total = following;
    let mut at = codes.len();
    'codes: while at > 0 {
        at -= 1;
        total = count_of(&codes[at], total);
    }
    total
}

/// How many legs a statement has before that many of what follows it, or the greatest number.
#[cycle(count)]
#[tactic(auto, using(crate::proofs::Sizes::size_lines, lk_programs::proofs::Codes::code_lines))]
fn count_of(code: &Code, following: u64) -> u64
    ensures { (n : ℕ) → following ≡ capped n → result ≡ capped (leg_count_of (code_tree code.now) n) }
{
    match code {
        Code::If {
            then,
            otherwise,
            ..
        } => {
            let on_true = leg_count_behind(then.as_slice(), following);
            on_true.saturating_add(leg_count_behind(otherwise.as_slice(), following))
        }
        Code::While { body, .. } => {
            leg_count_behind(body.as_slice(), 1).saturating_add(following)
        }
        Code::Val { .. } => following,
        Code::Assign { .. } => following,
        Code::Call { .. } => following,
        Code::Assert(_) => following,
        Code::Deduce { .. } => following,
        Code::Return { .. } => following,
    }
}

/// How many legs a method has, or the greatest number.
pub fn leg_count(method: &Method) -> u64
    ensures { result ≡ capped (count_of_method (method_tree method.now)) }
{
    leg_count_behind(method.body.as_slice(), 1)
}
