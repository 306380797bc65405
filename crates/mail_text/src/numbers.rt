//! Numbers as decimal digits.
ghost use Rattle.std.specs.Prelude.{◌≡◌, ◌+◌, ◌*◌, ◌^◌, ◌<◌, SomeIff};
ghost use Rattle.mail_text.specs.Decimals.{decimal_value};

/// The number that a text is, where it is one or more decimal digits and the number fits. Leading zeros are taken.
pub fn decimal(text: &[u8]) -> Option<u64>
    ensures { result ≡ decimal_value text.now }
{
    if text.is_empty() {
        return None;
    }
    let mut value: u64 = 0;
    for b in text {
        if !b.is_ascii_digit() {
            return None;
        }
        match with_digit(value, *b - b'0') {
            Some(longer) => value = longer,
            None => return None,
        }
    }
    Some(value)
}

fn with_digit(value: u64, digit: u8) -> Option<u64>
    ensures { SomeIff result (value * 10 + digit < 2 ^ 64) (value * 10 + digit) }
{
    value.checked_mul(10)?.checked_add(u64::from(digit))
}
