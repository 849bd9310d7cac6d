use lk_programs::NodeNo;
use program_trees::{Kind, Reason};

/// What is known of a method: all its legs are proved, or the first check that is not, with its node, or it has more than 256 legs.
#[derive(Clone, Copy, Debug, PartialEq, Eq)]
pub enum Verdict {
    Verified,
    Unproved {
        node: NodeNo,
        kind: Kind,
        reason: Reason,
    },
    ManyLegs,
}

impl Verdict {
    ghost use Rattle.std.specs.Prelude.{◌≡◌};
    ghost use Rattle.verdicts.specs.Choice.{is_verified};

    /// Whether all legs are proved.
    pub fn is_verified(self) -> bool
        ensures { result ≡ is_verified self }
    {
        match self {
            Verdict::Verified => true,
            Verdict::Unproved { .. } => false,
            Verdict::ManyLegs => false,
        }
    }
}
