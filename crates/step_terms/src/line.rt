ghost use Rattle.std.specs.Prelude.{◌≡◌, ◌∷◌, [], true, map, length, IfOk, IfErr, OnOk};
ghost use Rattle.term_trees.specs.Term.{sort_type};
ghost use Rattle.term_store.specs.Store.{GainsAmong, subtrees};
ghost use Rattle.lk_claims.specs.Claim.{claim_tree};
ghost use Rattle.deduction_rules.specs.Step.{line};
ghost use Rattle.deduction.specs.Steps as term_steps;
ghost use Rattle.leg_rules.specs.Store.{read_claim, is_small};
ghost use Rattle.leg_rules.specs.Sequents.{read_term};
ghost use Rattle.claim_reading.specs.Readable.{IsReadable};
ghost use Rattle.leg_states.specs.State.{state_of, IsOver};
ghost use Rattle.step_terms.specs.Steps.{IsPast, ClaimMore};

use crate::end::ItemEnd;
use crate::small::read_small;
use leg_states::LegState;
use lk_claims::Claim;
use lk_terms::StepTerm;
use sqlite_items::Items;
use std::alloc::Global;
use stored_trees::term_at;
use term_store::TermStore;
use term_trees::Sort;

/// A line over the term of its claim, whose number is one more of the claims.
#[tactic(auto, using(deduction::proofs::Steps::step_lines))]
pub fn read_line(
    alloc: Global,
    store: &mut TermStore,
    state: &mut LegState,
    sorts: &[Sort],
    label: u32,
    claim: &Claim,
    rule: u8,
    cites: &[u32],
    claims: &mut Items<usize>,
) -> Result<StepTerm, ItemEnd>
    requires over { IsOver (length sorts.now) store.old state.old }
    requires readable { IsReadable (length sorts.now) (claim_tree claim.now) }
    ensures state { OnOk result (state_of store.new state.new
        ≡ read_claim (map sort_type sorts.now) (claim_tree claim.now) (state_of store.old state.old)) }
    ensures term { IfOk result (λ s. term_steps.step_tree s
        ≡ line label (read_term (map sort_type sorts.now) (state_of store.old state.old) (claim_tree claim.now)) rule cites.now) }
    ensures over { OnOk result (IsOver (length sorts.now) store.new state.new) }
    ensures small { OnOk result (is_small (read_term (map sort_type sorts.now) (state_of store.old state.old) (claim_tree claim.now)) ≡ true) }
    ensures claims { OnOk result (ClaimMore store.old claims.old store.new claims.new
        (read_term (map sort_type sorts.now) (state_of store.old state.old) (claim_tree claim.now) ∷ [])) }
    ensures end { IfErr result (λ end. IsPast end
        (is_small (read_term (map sort_type sorts.now) (state_of store.old state.old) (claim_tree claim.now)))) }
    ensures gains { GainsAmong store.old store.new
        (subtrees (read_term (map sort_type sorts.now) (state_of store.old state.old) (claim_tree claim.now))) }
{
    let id = read_small(alloc, store, state, sorts, claim)?;
    claims.push(id)?;
    match term_at(alloc, store, id) {
        Err(_) => Err(ItemEnd::NoMemory),
        Ok(term) => match Items::from_slice(alloc, cites) {
            Err(_) => Err(ItemEnd::NoMemory),
            Ok(cited) => Ok(StepTerm::Line {
                label,
                claim: term,
                rule,
                cites: cited,
            }),
        },
    }
}
