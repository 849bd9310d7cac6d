ghost use Rattle.std.specs.Prelude.{◌≡◌, ◌==◌, slice_index};
ghost use Rattle.slang_grammar.specs.Parts.{is_numeral};
ghost use Rattle.argument_rules.specs.Arguments.{is_below_zero};

use slang_lexer::number_value;

/// Whether the text is digits of a number below 2^127.
pub(crate) fn is_numeral(digits: &str) -> bool
    ensures { result ≡ is_numeral digits.now }
{
    match number_value(digits) {
        None => false,
        Some(_) => true,
    }
}

/// Whether the text is digits of a number that is 2^127 at most.
pub(crate) fn is_below_zero(digits: &str) -> bool
    ensures { result ≡ is_below_zero digits.now }
{
    if begins_with_plus(digits.as_bytes()) {
        return false;
    }
    match digits.parse::<u128>() {
        Err(_) => false,
        Ok(number) => number <= 1 << 127,
    }
}

fn begins_with_plus(bytes: &[u8]) -> bool
    ensures { result ≡ (slice_index bytes.now 0 == 43) }
{
    if bytes.is_empty() {
        false
    } else {
        bytes[0] == b'+'
    }
}
