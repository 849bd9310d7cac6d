use crate::name::{Frame, Name};
use lk_claims::{Claim, ProofStep};
use lk_programs::{Kind, NodeNo};
use sqlite_items::Items;

/// An item of a leg, whose claims name variables as their frames say.
#[derive(Drop)]
pub enum Draft {
    Assume(Frame, Claim),
    Check(Kind, Frame, Claim),
    Set(Name, Frame, Claim),
    /// The first variable has the value of the second from here on.
    SetToVariable(Name, Name),
    Fresh(Items<Name>),
    Proof(Frame, Items<ProofStep>),
}

/// An item and the node that it is reported at.
#[derive(Drop)]
pub struct DraftItem {
    pub draft: Draft,
    pub node: NodeNo,
}
