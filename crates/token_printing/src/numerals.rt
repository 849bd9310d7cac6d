ghost use Rattle.std.specs.Prelude.{◌≡◌, ◌+◌, ◌<◌, ◌++◌, OnOk};
ghost use Rattle.print_expressions.specs.Accounts.{numeral};

use crate::NoMemory;

/// The character of a digit.
fn digit(number: u128) -> u8
    requires { number < 10 }
    ensures { result ≡ 48 + number }
{
    b'0' + (number as u8)
}

/// Adds the digits of a number, without leading zeros.
pub fn add_numeral(number: u128, text: &mut Vec<u8>) -> Result<(), NoMemory>
    ensures { OnOk result (text.new.items ≡ text.old.items ++ numeral number) }
{
    if number >= 10 {
        add_numeral(number / 10, text)?;
    }
    text.push(digit(number % 10))?;
    Ok(())
}
