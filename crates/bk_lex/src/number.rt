// The numbers that digits stand for.

ghost use Rattle.std.specs.Prelude.{◌≡◌, ◌<◌, ◌^◌, IsTrue, SomeIff, pos};
ghost use Rattle.bk_lex.specs.Lexis.{is_numeral, numeral_from};

/// The first number that is no `i128`.
const TOO_LARGE: u128 = 1 << 127;

/// The number that digits stand for, None above 2^127 - 1.
pub(crate) fn number(digits: &[u8]) -> Option<i128>
    requires { IsTrue (is_numeral digits.now) }
    ensures { SomeIff result (numeral_from 0 digits.now < 2 ^ 127) (pos (numeral_from 0 digits.now)) }
{
    let mut number: u128 = 0;
    for digit in digits {
        number = number
            .checked_mul(10)?
            .checked_add(u128::from(*digit - b'0'))?;
    }
    if number >= TOO_LARGE {
        return None;
    }
    Some(number as i128)
}

/// The number that digits stand for, None from 2^32 on.
pub(crate) fn level(digits: &[u8]) -> Option<u32>
    requires { IsTrue (is_numeral digits.now) }
    ensures { SomeIff result (numeral_from 0 digits.now < 2 ^ 32) (numeral_from 0 digits.now) }
{
    let mut number: u32 = 0;
    for digit in digits {
        number = number
            .checked_mul(10)?
            .checked_add(u32::from(*digit - b'0'))?;
    }
    Some(number)
}
