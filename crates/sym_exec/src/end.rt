use lk_programs::Kind;
use lk_terms::StepTerm;
use sqlite_items::Items;
use std::alloc::AllocError;
use term_store::IdSequent;

/// What comes next on a leg: the sequent of a check, at its item, or a proof, whose steps are to be accepted over the facts of the base,
/// or the end.
#[derive(Drop)]
pub enum Next {
    Check {
        item: u32,
        kind: Kind,
        sequent: IdSequent,
    },
    Proof {
        item: u32,
        base: IdSequent,
        steps: Items<StepTerm>,
    },
    Done,
}

/// Why a leg cannot be followed further: a term of the item is past a limit, or there is no memory. The kind is that of a check,
/// and `Term` at an item that is none.
#[derive(Clone, Copy, Debug, PartialEq, Eq, Drop)]
pub enum ExecEnd {
    Size { item: u32, kind: Kind },
    NoMemory,
}

impl From<AllocError> for ExecEnd {
    ghost use Rattle.std.specs.Prelude.{◌≡◌};
    ghost use Rattle.sym_exec.specs.declared.end.ExecEnd.TheVariants.{NoMemory};

    ghost from_gives = { λ _ e. e ≡ NoMemory };

    fn from(_end: AllocError) -> ExecEnd {
        ExecEnd::NoMemory
    }
}
