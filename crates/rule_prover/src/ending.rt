ghost use Rattle.std.specs.Prelude.{◌≡◌, Option, Some, IfOk, is_none};
ghost use Rattle.program_trees.specs.declared.answer.Reason.{Reason as Why};
ghost use Rattle.whole_closing.specs.Closing.{Closing as End};
ghost use Rattle.verdict_laws.specs.Rules.{told as told_of};
ghost use Rattle.proof_closing.specs.Prover.{IsAnswer, stop_of};
ghost use Rattle.store_proving.specs.Ends.{IsProveEnd, stop_of_prove};

use program_trees::Reason;
use proof_closing::{CloseEnd, Closing};
use store_proving::ProveEnd;

/// Why a sequent is not closed, unless the work was stopped or there is no memory.
pub fn reason_of(end: ProveEnd) -> Result<Reason, CloseEnd>
    ensures reason { IfOk result (λ reason. (c : End) → IsProveEnd end c → told_of c ≡ Some reason) }
    ensures stop { stop_of result ≡ stop_of_prove end }
{
    match end {
        ProveEnd::Open => Ok(Reason::Open),
        ProveEnd::Cases => Ok(Reason::Cases),
        ProveEnd::Rows => Ok(Reason::Rows),
        ProveEnd::Wide => Ok(Reason::Wide),
        ProveEnd::Size => Ok(Reason::Size),
        ProveEnd::Instances => Ok(Reason::Instances),
        ProveEnd::Stopped { told } => Err(CloseEnd::Stopped { told }),
        ProveEnd::NoMemory => Err(CloseEnd::NoMemory),
    }
}

/// A sequent is closed where there is no reason why not.
pub fn answer_of(told: Result<Option<Reason>, CloseEnd>) -> Result<Closing, CloseEnd>
    ensures answer { IfOk result (λ answer. (why : Option Why) → IfOk told (λ it. it ≡ why) → IsAnswer answer (is_none why)) }
    ensures stop { stop_of result ≡ stop_of told }
{
    match told {
        Ok(None) => Ok(Closing::Yes),
        Ok(Some(_)) => Ok(Closing::No),
        Err(end) => Err(end),
    }
}
