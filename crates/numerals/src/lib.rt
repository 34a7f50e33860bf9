// A decimal number in text, of any size.
#![tactic(auto)]

ghost use Rattle.std.specs.Prelude.{◌≡◌, ◌+◌, ◌*◌, ◌-◌, min};
ghost use Rattle.numerals.specs.Numerals.{is_decimal, decimal_number};

// What a digit is worth.
fn digit_value(b: u8) -> usize
    ensures { result ≡ b - 48 }
{
    usize::from(b.saturating_sub(b'0'))
}

// Ten times a number and a digit's worth, or the greatest number where that does not fit.
fn next_number(x: usize, d: usize) -> usize
    ensures { result ≡ min (10 * x + d) 18446744073709551615 }
{
    x.saturating_mul(10).saturating_add(d)
}

// Whether a text is a decimal number: digits, one at least.
pub fn is_decimal(text: &[u8]) -> bool
    ensures { result ≡ is_decimal text.now }
{
    !text.is_empty() && text.iter().all(|b| b.is_ascii_digit())
}

// The number that a decimal text stands for, or the greatest number where it does not fit.
pub fn number_in(text: &[u8]) -> usize
    ensures { result ≡ min (decimal_number text.now) 18446744073709551615 }
{
    let mut x = 0;
    for &b in text {
        x = next_number(x, digit_value(b));
    }
    x
}
