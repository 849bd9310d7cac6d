ghost use Rattle.std.specs.Prelude.{◌≡◌, map, nat_le};
ghost use Rattle.slang_tree.specs.DeclTree.{const_tree, consts_of};
ghost use Rattle.text_heights.specs.Heights.{const_height, greatest_const};
ghost use Rattle.type_faults.specs.FirstFault.{with_first};
ghost use Rattle.height_rules.specs.Faults.{const_too_high};

use crate::limits::{HEIGHT_LIMIT, too_high};
use crate::places::const_place;
use slang_tree::Const;
use type_faults::FirstFault;

/// Whether a constant is not higher than a limit.
#[cycle(within)]
#[tactic(auto, using(slang_tree::proofs::Lines::const_lines))]
fn is_within(constant: &Const, limit: u32) -> bool
    ensures { result ≡ nat_le (const_height (const_tree constant.now)) limit }
{
    if limit == 0 {
        return false;
    }
    let inner = limit - 1;
    match constant {
        Const::Number(..) => true,
        Const::Minus(..) => inner > 0,
        Const::True(_) => true,
        Const::False(_) => true,
        Const::Sequence(_, _, elements) => are_within(elements.as_slice(), inner),
        Const::Record(_, fields) => are_within(fields.as_slice(), inner),
    }
}

/// Whether no constant of several is higher than a limit.
#[cycle(within)]
fn are_within(constants: &[Const], limit: u32) -> bool
    ensures { result ≡ nat_le (greatest_const (consts_of (map const_tree constants.now))) limit }
{
    for constant in constants {
        if !is_within(constant, limit) {
            return false;
        }
    }
    true
}

/// Tells where a constant is too high.
pub fn constant_height(told: &mut FirstFault, constant: &Const)
    ensures { told.new.found ≡ with_first told.old.found (const_too_high (const_tree constant.now)) }
{
    let holds = is_within(constant, HEIGHT_LIMIT);
    told.tell_unless(holds, too_high(const_place(constant)));
}
