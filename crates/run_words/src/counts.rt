ghost use Rattle.std.specs.Prelude.{◌≡◌, ◌<◌, ◌^◌, ℕ, pos};
ghost use Rattle.std.specs.Option.{SomeIff};
ghost use Rattle.argument_fronts.specs.Only.{IsOnly};
ghost use Rattle.run_words.specs.Counts.{own, IsCountOf};

use slang_lexer::number_value;

/// The longest word that is a number.
const MOST_DIGITS: usize = 20;

/// The number below 2^64 that the word is, in one to twenty digits.
pub(crate) fn count_of(word: &str) -> Option<u64>
    ensures { IsOnly own (IsCountOf word.now) result }
{
    if word.len() > MOST_DIGITS {
        return None;
    }
    match number_value(word) {
        None => None,
        Some(number) => narrowed(number),
    }
}

fn narrowed(number: i128) -> Option<u64>
    ensures { (n : ℕ) → number ≡ pos n → SomeIff result (n < 2 ^ 64) n }
{
    if number < 0 {
        None
    } else if number >= 1 << 64 {
        None
    } else {
        Some(number as u64)
    }
}
