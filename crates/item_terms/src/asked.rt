use lk_terms::StepTerm;
use sqlite_items::Items;
use term_store::IdSequent;

/// What an item asks for.
#[derive(Drop)]
pub enum Asked {
    Nothing,
    /// The sequent of a check.
    Sequent(IdSequent),
    /// The steps of a proof, to be accepted over the facts of the base, whose goal is not looked at.
    Proof {
        base: IdSequent,
        steps: Items<StepTerm>,
    },
}
