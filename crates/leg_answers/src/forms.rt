ghost use Rattle.std.specs.Prelude.{◌≡◌, Err, Ok};
ghost use Rattle.leg_answers.specs.Answering.{told_at, refused_at, ended, on_ok};

use deduction::CloseEnd;
use program_trees::{Answer, Kind, Reason};
use sym_exec::ExecEnd;

/// The answer at an item for whose claim a reason is told, where one is.
fn unproved(told: Option<Reason>, item: u32, kind: Kind) -> Option<Answer>
    ensures { result ≡ told_at item kind told }
{
    match told {
        None => None,
        Some(reason) => Some(Answer::Unproved { item, kind, reason }),
    }
}

/// The answer at a proof of which a step is refused, where one is.
fn refused(told: Option<u32>, item: u32) -> Option<Answer>
    ensures { result ≡ refused_at item told }
{
    match told {
        None => None,
        Some(label) => Some(Answer::Unproved {
            item,
            kind: Kind::Deduce,
            reason: Reason::Rule(label),
        }),
    }
}

/// The answer at a check, where its sequent is not closed.
pub fn of_check(
    told: Result<Option<Reason>, CloseEnd>,
    item: u32,
    kind: Kind,
) -> Result<Option<Answer>, CloseEnd>
    ensures { result ≡ on_ok (told_at item kind) told }
{
    match told {
        Ok(told) => Ok(unproved(told, item, kind)),
        Err(end) => Err(end),
    }
}

/// The answer at a proof, where a step of it is refused.
pub fn of_proof(told: Result<Option<u32>, CloseEnd>, item: u32) -> Result<Option<Answer>, CloseEnd>
    ensures { result ≡ on_ok (refused_at item) told }
{
    match told {
        Ok(told) => Ok(refused(told, item)),
        Err(end) => Err(end),
    }
}

/// The answer where a leg cannot be followed further.
pub fn of_end(end: ExecEnd) -> Result<Option<Answer>, CloseEnd>
    ensures { result ≡ ended end }
{
    match end {
        ExecEnd::Size { item, kind } => Ok(Some(Answer::Unproved {
            item,
            kind,
            reason: Reason::Size,
        })),
        ExecEnd::NoMemory => Err(CloseEnd::NoMemory),
    }
}
