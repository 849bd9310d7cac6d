ghost use Rattle.std.specs.Prelude.{◌≡◌, map};
ghost use Rattle.std.specs.List.{list_any};
ghost use Rattle.lk_claims.specs.Claim.{claim_tree};
ghost use Rattle.lk_programs.specs.Program.{noted_tree};
ghost use Rattle.program_trees.specs.Claims.{renamed_noted};
ghost use Rattle.leg_rules.specs.LegNames.{same_name};
ghost use Rattle.leg_rules.specs.Mentions.{mentions as mentions_of, some_mention};
ghost use Rattle.leg_items.specs.Names.{frame_name, leg_name};
ghost use Rattle.leg_items.specs.Drafts.{framed};

use leg_items::{Frame, Name};
use lk_claims::{Claim, Shape};
use lk_programs::Noted;

/// Whether the claim names the variable.
#[cycle(mentions)]
#[tactic(auto, using(crate::proofs::MentionLines::mention_lines))]
pub fn mentions(claim: &Claim, frame: Frame, name: Name) -> bool
    ensures { result ≡ mentions_of (same_name (leg_name name)) (framed frame (claim_tree claim.now)) }
{
    match claim.shape() {
        Shape::Literal(_) => false,
        Shape::Truth(_) => false,
        Shape::Bound(_) => false,
        Shape::LetSymbol(_) => false,
        Shape::Variable(n) => name.same(frame.name(n)),
        Shape::OldVariable(n) => name.same(frame.name(n)),
        Shape::Unary(_, a) => mentions(a, frame, name),
        Shape::Binary(_, a, b) => mentions(a, frame, name) || mentions(b, frame, name),
        Shape::Update(a, i, x) => {
            mentions(a, frame, name) || (mentions(i, frame, name) || mentions(x, frame, name))
        }
        Shape::Quantified(_, low, high, body) => {
            mentions(low, frame, name)
                || (mentions(high, frame, name) || mentions(body, frame, name))
        }
        Shape::Sequence(_, claims) => some_mentions(claims, frame, name),
        Shape::Record(_, claims) => some_mentions(claims, frame, name),
    }
}

/// Whether one of the claims names the variable.
#[cycle(mentions)]
#[tactic(auto, using(lk_claims::proofs::Sizes::deepest_lines, crate::proofs::MentionLines::any_lines))]
fn some_mentions(claims: &[Claim], frame: Frame, name: Name) -> bool
    ensures { result ≡ list_any (λ claim. mentions_of (same_name (leg_name name)) (framed frame (claim_tree claim))) claims.now }
{
    for claim in claims {
        if mentions(claim, frame, name) {
            return true;
        }
    }
    false
}

/// Whether one of the claims, which have their nodes beside them, names the variable.
pub fn some_noted_mentions(claims: &[Noted], frame: Frame, name: Name) -> bool
    ensures { result ≡ some_mention (same_name (leg_name name)) (map (λ noted. renamed_noted (frame_name frame) (noted_tree noted)) claims.now) }
{
    for noted in claims {
        if mentions(&noted.claim, frame, name) {
            return true;
        }
    }
    false
}
