ghost use Rattle.std.specs.Prelude.{◌≡◌, ◌↔◌, IfOk, IsTrue, map};
ghost use Rattle.std.specs.String.{string_bytes};
ghost use Rattle.argument_fronts.specs.Only.{IsOnly};
ghost use Rattle.run_words.specs.Run.{run_of, front_of, IsRun, IsRunFront, IsBehindRun, IsBehindMethod};

use crate::NoMemory;
use crate::arguments::are_arguments;
use crate::counts::count_of;
use std::alloc::Global;

/// What the words of the command `run` say.
#[derive(Clone, Copy)]
pub struct RunWords<'w> {
    pub method: &'w str,
    pub turns: u64,
    pub arguments: &'w [String],
}

/// What the words say, without the program's own name: `run`, a method, a number of turns, and arguments. None where they are no such words.
pub fn read_run<'w>(alloc: Global, words: &'w [String]) -> Result<Option<RunWords<'w>>, NoMemory>
    ensures { IfOk result (IsOnly run_of (IsRun (map string_bytes words.now))) }
{
    match run_front(words) {
        None => Ok(None),
        Some(front) => match count_of(front.count) {
            None => Ok(None),
            Some(turns) => match are_arguments(alloc, front.arguments) {
                Err(end) => Err(end),
                Ok(false) => Ok(None),
                Ok(true) => Ok(Some(RunWords {
                    method: front.method,
                    turns,
                    arguments: front.arguments,
                })),
            },
        },
    }
}

/// The words of `run` before they are read: any method, any number of turns, any arguments.
#[derive(Clone, Copy)]
pub struct RunFront<'w> {
    pub method: &'w str,
    pub count: &'w str,
    pub arguments: &'w [String],
}

fn run_front<'w>(words: &'w [String]) -> Option<RunFront<'w>>
    ensures { IsOnly front_of (IsRunFront (map string_bytes words.now)) result }
{
    match words.split_first() {
        None => None,
        Some((word, rest)) => {
            if is_named(word.as_str(), "run") {
                named_front(rest)
            } else {
                None
            }
        }
    }
}

fn is_named(word: &str, name: &str) -> bool
    ensures { IsTrue result ↔ (word.now ≡ name.now) }
{
    word == name
}

fn named_front<'w>(words: &'w [String]) -> Option<RunFront<'w>>
    ensures { IsOnly front_of (IsBehindRun (map string_bytes words.now)) result }
{
    match words.split_first() {
        None => None,
        Some((method, rest)) => method_front(method.as_str(), rest),
    }
}

fn method_front<'w>(method: &'w str, words: &'w [String]) -> Option<RunFront<'w>>
    ensures { IsOnly front_of (IsBehindMethod method.now (map string_bytes words.now)) result }
{
    match words.split_first() {
        None => None,
        Some((count, arguments)) => Some(RunFront {
            method,
            count: count.as_str(),
            arguments,
        }),
    }
}
