use crate::claim::Claim;
use sqlite_items::Items;

/// A step of a proof, over claims.
#[derive(Drop)]
pub enum ProofStep {
    /// A claim by a rule, which is named by its number, from the steps of the cited labels, in order.
    Line {
        label: u32,
        claim: Claim,
        rule: u8,
        cites: Items<u32>,
    },
    /// A block that assumes a claim; `assumed` is the assumption's label. A block with a `Let` binds a symbol.
    Sub {
        label: u32,
        bind: bool,
        assumed: u32,
        assumption: Claim,
        steps: Items<ProofStep>,
    },
}
