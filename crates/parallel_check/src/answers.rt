ghost use Rattle.std.specs.Prelude.{◌≡◌, ◌<◌, List, None, IfOk, length, map, slice_index_or};
ghost use Rattle.program_trees.specs.Legs.{LegTree};
ghost use Rattle.program_keys.specs.Keys.{AreKeysOf};
ghost use Rattle.parallel_check.specs.Answers.{IsAnswerAt, AreFound, key_at, answer_of};

use crate::NoMemory;
use leg_check::answer_leg;
use lk_io::NeverStop;
use program_trees::Answer;
use rule_prover::RuleProver;
use sqlite_items::Items;
use std::alloc::{AllocError, Global};
use std::thread;
use std::thread::Threads;

/// The answer for the leg of that key, or nothing where memory ran out.
fn answer_for(alloc: Global, key: &[u8]) -> Option<Answer>
    ensures { IsAnswerAt key.now result }
{
    let mut prover = RuleProver::new(0, NeverStop);
    match answer_leg(alloc, key, &mut prover) {
        Ok(answer) => Some(answer),
        Err(_) => None,
    }
}

/// What is found for each key, by at most so many threads.
pub fn found_answers<R: Threads + Sync>(
    rt: &R,
    alloc: Global,
    keys: &[Vec<u8>],
    threads: usize,
) -> Result<Vec<Option<Answer>>, NoMemory>
    requires { 0 < threads }
    ensures { IfOk result (λ found. AreFound keys.now found.items) }
{
    let mut found = vec![in alloc; None; keys.len()]?;
    thread::for_each_mut(
        rt,
        &mut found,
        threads,
        &|place: usize, answer: &mut Option<Answer>|
            requires { place < length keys.now }
            ensures { IsAnswerAt (key_at keys.entry.now place) answer.exit.now }
        { *answer = answer_for(alloc, &keys[place]) },
    );
    Ok(found)
}

/// What was found at that place.
fn found_at(found: &[Option<Answer>], place: usize) -> Option<Answer>
    ensures { result ≡ slice_index_or found.now place None }
{
    match found.get(place) {
        Some(answer) => *answer,
        None => None,
    }
}

/// The answers for the legs of these keys, in order. There are none where one was not found, for want of memory.
pub fn all_answers(
    alloc: Global,
    keys: &[Vec<u8>],
    found: &[Option<Answer>],
) -> Result<Items<Answer>, NoMemory>
    requires { AreFound keys.now found.now }
    ensures { IfOk result (λ answers. (legs : List LegTree) → AreKeysOf legs (map (λ key. key.items) keys.now) → answers ≡ map answer_of legs) }
{
    let mut answers = Items::new(alloc);
    for place in 0..keys.len() {
        match found_at(found, place) {
            Some(answer) => match answers.push(answer) {
                Ok(()) => {}
                Err(_) => return Err(AllocError),
            },
            None => return Err(AllocError),
        }
    }
    Ok(answers)
}
