ghost use Rattle.proof_closing.specs.Prover.{IsCurrent, Leaves};
ghost use Rattle.leg_check.specs.Keys.{AnswersKey, stop_of_leg};

use crate::end::{LegEnd, settled};
use leg_answers::{LegProver, leg_answer};
use leg_key::decode;
use program_trees::Answer;
use std::alloc::Global;

/// The answer of a key: all items of its leg are proved, or the first that is not, with the reason.
/// There is none where the bytes are no key, where the prover is told of later work, or without memory.
pub fn answer_leg<P: LegProver>(alloc: Global, key: &[u8], prover: &mut P) -> Result<Answer, LegEnd>
    requires current { IsCurrent (P.work prover.old) }
    ensures answer { AnswersKey P.reason P.closes key.now result }
    ensures leaves { Leaves (P.work prover.old) (P.work prover.new) (stop_of_leg result) }
{
    match decode(alloc, key) {
        Ok(found) => match found {
            Some(leg) => settled(leg_answer(alloc, &leg, prover)),
            None => Err(LegEnd::BadKey),
        },
        Err(_) => Err(LegEnd::NoMemory),
    }
}
