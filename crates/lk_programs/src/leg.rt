use crate::expression::NodeNo;
use lk_claims::{Claim, ProofStep, Ty};
use program_trees::Kind;
use sqlite_items::Items;

/// One step of a leg.
#[derive(Drop)]
pub enum Item {
    /// The claim holds from here on.
    Assume(Claim),
    /// The claim is to be shown, and holds from here on.
    Check(Kind, Claim),
    /// The variable has the value of the claim from here on.
    Set(u32, Claim),
    /// The variables have any values from here on.
    Fresh(Items<u32>),
    /// The steps are to be accepted, and their outermost claims hold from here on.
    Proof(Items<ProofStep>),
}

/// One straight path through a method, over records with fields of these types and variables of these types.
#[derive(Drop)]
pub struct Leg {
    pub records: Items<Items<Ty>>,
    pub vars: Items<Ty>,
    pub items: Items<Item>,
}

/// The legs of a method, and beside each item the node that it is reported at.
#[derive(Drop)]
pub struct Legs {
    pub legs: Items<Leg>,
    pub nodes: Items<Items<NodeNo>>,
}
