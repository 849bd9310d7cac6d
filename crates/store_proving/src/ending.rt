use quant_inst::InstEnd;
use std::alloc::{AllocError, AllocFailed};
use store_cases::SplitEnd;
use store_leaves::LeafEnd;

/// Why a sequent is not closed: a case of it is left open, it has too many cases or rows or instances, an instance is too large, a
/// number is too wide, or the work is not wanted any more, or there is no memory.
#[derive(Clone, Copy, Debug, PartialEq, Eq, Drop)]
pub enum ProveEnd {
    Open,
    Cases,
    Rows,
    Wide,
    Size,
    Instances,
    Stopped { told: u64 },
    NoMemory,
}

impl From<AllocError> for ProveEnd {
    ghost use Rattle.std.specs.Prelude.{◌≡◌};
    ghost use Rattle.store_proving.specs.declared.ending.ProveEnd.TheVariants.{NoMemory};

    ghost from_gives = { λ _ e. e ≡ NoMemory };

    fn from(_end: AllocError) -> ProveEnd {
        ProveEnd::NoMemory
    }
}

impl<T: Drop> From<AllocFailed<T>> for ProveEnd {
    ghost use Rattle.std.specs.Prelude.{◌≡◌};
    ghost use Rattle.store_proving.specs.declared.ending.ProveEnd.TheVariants.{NoMemory};

    ghost from_gives = { λ _ e. e ≡ NoMemory };

    fn from(_end: AllocFailed<T>) -> ProveEnd {
        ProveEnd::NoMemory
    }
}

impl From<InstEnd> for ProveEnd {
    ghost use Rattle.std.specs.Prelude.{◌≡◌};
    ghost use Rattle.store_proving.specs.Ends.{end_of_instances};

    ghost from_gives = { λ end e. e ≡ end_of_instances end };

    fn from(end: InstEnd) -> ProveEnd {
        match end {
            InstEnd::Instances => ProveEnd::Instances,
            InstEnd::Size => ProveEnd::Size,
            InstEnd::NoMemory => ProveEnd::NoMemory,
        }
    }
}

impl From<SplitEnd> for ProveEnd {
    ghost use Rattle.std.specs.Prelude.{◌≡◌};
    ghost use Rattle.store_proving.specs.Ends.{end_of_split};

    ghost from_gives = { λ end e. e ≡ end_of_split end };

    fn from(end: SplitEnd) -> ProveEnd {
        match end {
            SplitEnd::Cases => ProveEnd::Cases,
            SplitEnd::NoMemory => ProveEnd::NoMemory,
        }
    }
}

impl From<LeafEnd> for ProveEnd {
    ghost use Rattle.std.specs.Prelude.{◌≡◌};
    ghost use Rattle.store_proving.specs.Ends.{end_of_leaf};

    ghost from_gives = { λ end e. e ≡ end_of_leaf end };

    fn from(end: LeafEnd) -> ProveEnd {
        match end {
            LeafEnd::Open => ProveEnd::Open,
            LeafEnd::Rows => ProveEnd::Rows,
            LeafEnd::Wide => ProveEnd::Wide,
            LeafEnd::NoMemory => ProveEnd::NoMemory,
        }
    }
}
