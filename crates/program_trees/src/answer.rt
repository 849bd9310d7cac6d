/// What fails in a run, or is checked on a leg. `Deduce` is a proof, and `Term` an item that is neither a check nor a
/// proof.
#[derive(Clone, Copy, Debug, PartialEq, Eq)]
pub enum Kind {
    Assert,
    Requires,
    Ensures,
    InvStart,
    InvKept,
    Index,
    Division,
    Deduce,
    Term,
}

/// Why a check is not proved. `Rule` has the label of the first step that is refused.
#[derive(Clone, Copy, Debug, PartialEq, Eq)]
pub enum Reason {
    Open,
    Cases,
    Rows,
    Wide,
    Size,
    Instances,
    Rule(u32),
}

/// The answer for one leg: all its items are proved, or the first that is not.
#[derive(Clone, Copy, Debug, PartialEq, Eq)]
pub enum Answer {
    Proved,
    Unproved {
        item: u32,
        kind: Kind,
        reason: Reason,
    },
}
