use crate::NoMemory;
use lk_programs::NodeNo;

/// Where the evaluation of an expression stops: at a place out of range, at a division by 0, at a number that does not fit
/// in 128 bits, or for want of memory.
#[derive(Clone, Copy, Debug, PartialEq, Eq, Drop)]
pub enum EvalEnd {
    Index(NodeNo),
    Division(NodeNo),
    Wide(NodeNo),
    NoMemory,
}

impl From<NoMemory> for EvalEnd {
    ghost use Rattle.std.specs.Prelude.{◌≡◌};
    ghost use Rattle.expression_values.specs.declared.ending.EvalEnd.TheVariants.{NoMemory as want_of_memory};

    ghost from_gives = { λ _ e. e ≡ want_of_memory };

    fn from(_end: NoMemory) -> EvalEnd {
        EvalEnd::NoMemory
    }
}
