ghost use Rattle.std.specs.Prelude.{◌≡◌, map};
ghost use Rattle.rule_check.specs.Cited.{cited_tree, TellsClaim, TellsBlock, TellsLet, TellsOneClaim, TellsTwoClaims, TellsOneBlock, TellsOneLet, TellsClaimAndLet, TellsClaimAndBlocks};

use term_trees::Term;

/// What a label stands for.
#[derive(Clone, Copy)]
pub enum Cited<'a> {
    /// The claim of a step, or an assumption.
    Claim(&'a Term),
    /// A block: the symbol of its Let, its assumption, and its last claim.
    Block(Option<u32>, &'a Term, Option<&'a Term>),
}

fn claim_in(cited: Cited<'_>) -> Option<&Term>
    ensures { TellsClaim (cited_tree cited.entry) result }
{
    match cited {
        Cited::Claim(t) => Some(t),
        Cited::Block(_, _, _) => None,
    }
}

/// The assumption and the last claim of a block without a Let.
fn block_in(cited: Cited<'_>) -> Option<(&Term, &Term)>
    ensures { TellsBlock (cited_tree cited.entry) result }
{
    match cited {
        Cited::Block(None, given, Some(shown)) => Some((given, shown)),
        Cited::Block(None, _, None) => None,
        Cited::Block(Some(_), _, _) => None,
        Cited::Claim(_) => None,
    }
}

/// The symbol of a block's Let, its assumption and its last claim.
fn let_in(cited: Cited<'_>) -> Option<(u32, &Term, &Term)>
    ensures { TellsLet (cited_tree cited.entry) result }
{
    match cited {
        Cited::Block(Some(k), given, Some(shown)) => Some((k, given, shown)),
        Cited::Block(Some(_), _, None) => None,
        Cited::Block(None, _, _) => None,
        Cited::Claim(_) => None,
    }
}

#[tactic(auto, using(crate::proofs::Citing::one_lines))]
pub fn one_claim<'a>(cited: &[Cited<'a>]) -> Option<&'a Term>
    ensures { TellsOneClaim (map cited_tree cited.now) result }
{
    if cited.len() != 1 {
        return None;
    }
    claim_in(cited[0])
}

#[tactic(auto, using(crate::proofs::Citing::one_lines))]
pub fn one_block<'a>(cited: &[Cited<'a>]) -> Option<(&'a Term, &'a Term)>
    ensures { TellsOneBlock (map cited_tree cited.now) result }
{
    if cited.len() != 1 {
        return None;
    }
    block_in(cited[0])
}

#[tactic(auto, using(crate::proofs::Citing::one_lines))]
pub fn one_let<'a>(cited: &[Cited<'a>]) -> Option<(u32, &'a Term, &'a Term)>
    ensures { TellsOneLet (map cited_tree cited.now) result }
{
    if cited.len() != 1 {
        return None;
    }
    let_in(cited[0])
}

#[tactic(auto, using(crate::proofs::Citing::two_lines))]
pub fn two_claims<'a>(cited: &[Cited<'a>]) -> Option<(&'a Term, &'a Term)>
    ensures { TellsTwoClaims (map cited_tree cited.now) result }
{
    if cited.len() != 2 {
        return None;
    }
    match claim_in(cited[0]) {
        Some(a) => match claim_in(cited[1]) {
            Some(b) => Some((a, b)),
            None => None,
        },
        None => None,
    }
}

#[tactic(auto, using(crate::proofs::Citing::two_lines))]
pub fn claim_and_let<'a>(cited: &[Cited<'a>]) -> Option<(&'a Term, u32, &'a Term, &'a Term)>
    ensures { TellsClaimAndLet (map cited_tree cited.now) result }
{
    if cited.len() != 2 {
        return None;
    }
    match claim_in(cited[0]) {
        Some(t) => match let_in(cited[1]) {
            Some((k, given, shown)) => Some((t, k, given, shown)),
            None => None,
        },
        None => None,
    }
}

#[tactic(auto, using(crate::proofs::Citing::three_lines))]
pub fn claim_and_blocks<'a>(
    cited: &[Cited<'a>],
) -> Option<(&'a Term, &'a Term, &'a Term, &'a Term, &'a Term)>
    ensures { TellsClaimAndBlocks (map cited_tree cited.now) result }
{
    if cited.len() != 3 {
        return None;
    }
    match claim_in(cited[0]) {
        Some(t) => match block_in(cited[1]) {
            Some((a, x)) => match block_in(cited[2]) {
                Some((b, y)) => Some((t, a, x, b, y)),
                None => None,
            },
            None => None,
        },
        None => None,
    }
}
