//! The numbers that tokens write.
ghost use Rattle.std.specs.Prelude.{◌≡◌, ◌+◌, ◌-◌, ◌*◌, ◌^◌, ◌<◌, true, SomeIff};
ghost use Rattle.std.specs.Char.{is_ascii_digit};
ghost use Rattle.text_tokens.specs.Numbers.{is_digits, is_decimal, number_written};

/// Whether a token is one or more decimal digits.
pub fn is_digits(token: &str) -> bool
    ensures { result ≡ is_digits token.now }
{
    !token.is_empty() && token.as_bytes().iter().all(|byte| byte.is_ascii_digit())
}

/// Whether a token is a decimal number without leading zeros, of any length.
pub fn is_decimal(token: &str) -> bool
    ensures { result ≡ is_decimal token.now }
{
    is_digits(token) && (token.len() < 2 || token.as_bytes()[0] != b'0')
}

/// The number that a token writes in one or more decimal digits, if it is below `2^64`. There may be leading zeros, and
/// any count of digits.
pub fn number(token: &str) -> Option<u64>
    ensures { result ≡ number_written token.now }
{
    if !is_digits(token) {
        return None;
    }
    token.parse().ok()
}

/// A number with one digit more, if it is below `2^64`.
#[inline(always)]
pub fn with_digit(number: u64, digit: u8) -> Option<u64>
    requires { is_ascii_digit digit ≡ true }
    ensures { SomeIff result (number * 10 + (digit - 48) < 2 ^ 64) (number * 10 + (digit - 48)) }
{
    number.checked_mul(10)?.checked_add(u64::from(digit - b'0'))
}
