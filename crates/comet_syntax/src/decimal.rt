//! Numbers from their digits.
ghost use Rattle.std.specs.Prelude.{◌≡◌, true, ◌<◌, ◌^◌, pos, SomeIff, Some, None, nat_lt, if◌then◌else◌};
ghost use Rattle.std.specs.List.{list_all};
ghost use Rattle.comet_syntax.specs.Lexeme.{is_digit, is_number};
ghost use Rattle.comet_syntax.specs.Number.{number_of_digits};

/// The number that digits spell. `None` exactly where it doesn't fit 64 bits.
fn wide_number(digits: &[u8]) -> Option<u64>
    requires { list_all is_digit digits.now ≡ true }
    ensures { SomeIff result (number_of_digits digits.now < 2 ^ 64) (number_of_digits digits.now) }
{
    let mut number: u64 = 0;
    for digit in digits {
        number = number
            .checked_mul(10)?
            .checked_add(u64::from(*digit - b'0'))?;
    }
    Some(number)
}

/// The number that digits spell. `None` exactly where it doesn't fit 64 bits signed.
pub fn number(digits: &[u8]) -> Option<i64>
    requires { is_number digits.now ≡ true }
    ensures { result ≡ (if nat_lt (number_of_digits digits.now) (2 ^ 63) then Some
        (pos (number_of_digits digits.now)) else None) }
{
    i64::try_from(wide_number(digits)?).ok()
}
