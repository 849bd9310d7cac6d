use sqlite_items::Items;
use term_trees::Term;

/// A step of a proof, over terms.
#[derive(Drop)]
pub enum StepTerm {
    /// A claim by a rule, which is named by its number, from the steps of the cited labels, in order.
    Line {
        label: u32,
        claim: Term,
        rule: u8,
        cites: Items<u32>,
    },
    /// A block that assumes a claim; `assumed` is the assumption's label. A block with a `Let` has its symbol.
    Sub {
        label: u32,
        symbol: Option<u32>,
        assumed: u32,
        assumption: Term,
        steps: Items<StepTerm>,
    },
}
