// Numerals: the number that decimal or hexadecimal digits write.
ghost use Rattle.std.specs.Prelude.{◌≡◌, ◌≤◌, length};
ghost use Rattle.wsjtx_vectors.specs.Number.{digit_value, number_in};

// The value of a decimal or lower-case hexadecimal digit. char::to_digit would take capitals too.
#[tactic(auto, unfolding(crate::specs::Number::digit_value))]
pub(crate) fn digit_value(byte: u8) -> Option<u8>
    ensures { result ≡ digit_value byte }
{
    match byte {
        b'0'..=b'9' => Some(byte - b'0'),
        b'a'..=b'f' => Some(byte - b'a' + 10),
        _ => None,
    }
}

// The number that a numeral writes, where each byte is a digit of the base. It has at most 16
// digits, so that the number fits. u64::from_str_radix would take a plus sign and capitals too.
pub(crate) fn read(base: u64, numeral: &[u8]) -> Option<u64>
    requires base_bound { base ≤ 16 }
    requires numeral_len_bound { length numeral.now ≤ 16 }
    ensures { result ≡ number_in base numeral.now }
{
    let mut number = 0u64;
    for byte in numeral {
        let digit = u64::from(digit_value(*byte)?);
        if base <= digit {
            return None;
        }
        number = number * base + digit;
    }
    Some(number)
}
