ghost use Rattle.std.specs.Prelude.{◌≡◌, ℕ, ◌+◌};
ghost use Rattle.run_stops.specs.ClaimStops.{visit_limit};
ghost use Rattle.run_steps.specs.Steps.{program_of};
ghost use Rattle.frame_steps.specs.Runs.{Fits, run_on};
ghost use Rattle.interp.specs.Machines.{IsKnown, with_told, FitsWhere, WaitsWhere};

use crate::turned::{Turned, told_of};
use frame_steps::{Run, Turn, step};
use lk_programs::Typed;
use std::alloc::Global;

/// How many bodies of quantifiers each claim may have evaluated.
pub const VISIT_LIMIT: u64 = 1_000_000;

/// The run goes on with so many turns.
pub fn go_on(alloc: Global, typed: &Typed, run: &mut Run, turns: u64) -> Turned
    requires { Fits (program_of typed.now) run.old }
    ensures goes { IsKnown result → (n : ℕ) → run_on visit_limit (program_of typed.now) run.old (turns + n)
        ≡ with_told (program_of typed.now) result run.new n }
    ensures waits { WaitsWhere (program_of typed.now) result run.new }
    ensures fits { FitsWhere (program_of typed.now) result run.new }
{
    let mut left = turns;
    'steps: loop {
        match step(alloc, typed, run, &mut left, VISIT_LIMIT) {
            Err(end) => return told_of(end),
            Ok(turn) => match turn {
                Turn::Waits => return Turned::Going,
                Turn::Ended => return Turned::Ended,
                Turn::GoesOn => {}
            },
        }
    }
}
