// Mixed-radix numerals: a list of digits, highest first, each below the radix at its own place.
//
// The digits of a callsign, a locator and of telemetry's two numbers and the bits of a word are such
// numerals, so that packing and unpacking are proved to be inverse once, here (proofs/Laws.antt), and
// every layer cites it.
#![tactic(auto)]

ghost use Rattle.std.specs.Prelude.{◌≡◌, ◌≤◌, ◌/◌, ◌^◌, length};
ghost use Rattle.radix.specs.Numeral.{Digits, Positive, count, number_of, digits_of};

// The number that the digits write: from the highest digit on, times the next radix plus the next
// digit.
#[tactic(auto, unfolding(crate::specs::Numeral::number_of))]
pub fn pack(radices: &[u64], digits: &[u64]) -> u64
    requires digits { Digits radices.now digits.now }
    requires radices_bound { count radices.now ≤ 2 ^ 64 }
    ensures { result ≡ number_of radices.now digits.now }
{
    let mut number = 0u64;
    for (&radix, &digit) in radices.iter().zip(digits) {
        number = number * radix + digit;
    }
    number
}

// Writes the digits of the number, and returns what is left of it above the highest digit: 0 exactly
// for the numbers that have a numeral in these radices (`rest_zero` in proofs/Laws.antt).
pub fn unpack(number: u64, radices: &[u64], digits: &mut [u64]) -> u64
    requires positive { Positive radices.now }
    requires digits_len { length digits.old ≡ length radices.now }
    ensures rest { result ≡ number / count radices.now }
    ensures written { digits.new ≡ digits_of radices.now number }
{
    let mut rest = number;
    // Written by index: of what a loop over `iter_mut` in a `zip` has written a proof knows nothing.
    for (i, &radix) in radices.iter().enumerate().rev() {
        digits[i] = rest % radix;
        rest /= radix;
    }
    rest
}
