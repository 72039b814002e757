// The numbers in a word: the callsign's (01: N), the locator's (01: M1) and the power, both ways.
ghost use Rattle.std.specs.Prelude.{◌≡◌, ◌≤◌, ◌<◌, ◌^◌};
ghost use Rattle.message.specs.Word.{callsign_number, locator_number, lower_number, word_from, word_of, callsign_part, locator_part, callsign_of, locator_of};
ghost use Rattle.message.specs.Answer.{word_message};

use super::Message;
use super::character::{read_digits, write_characters};
use refusal::Refusal;

// The sizes of the sets of places 0 to 5, and how many callsigns they make.
const CALLSIGN_RADICES: [u64; 6] = [37, 36, 10, 27, 27, 27];

const CALLSIGNS: u64 = 262_177_560;

// For 17 - a, 9 - c, b, d of a locator's values a b c d, and how many locators they make.
const LOCATOR_RADICES: [u64; 4] = [18, 10, 18, 10];

const LOCATORS: u64 = 32_400;

impl Message {
    // The word of the message.
    pub(crate) fn word(&self) -> u64
        ensures { result ≡ word_of self.now.callsign self.now.locator self.now.power }
    {
        let n = self.callsign_number();
        let m1 = self.locator_number();
        assemble(n, m1, self.power)
    }

    fn callsign_number(&self) -> u64
        ensures { result ≡ callsign_number self.now.callsign }
    {
        let mut digits = [0u64; 6];
        read_digits(0, &self.callsign, &mut digits);
        radix::pack(&CALLSIGN_RADICES, &digits)
    }

    fn locator_number(&self) -> u64
        ensures { result ≡ locator_number self.now.locator }
    {
        let mut values = [0u64; 4];
        read_digits(6, &self.locator, &mut values);
        let digits = [17 - values[0], 9 - values[2], values[1], values[3]];
        radix::pack(&LOCATOR_RADICES, &digits)
    }
}

// The word, from its upper 28 and lower 22 bits.
fn assemble(callsign: u64, locator: u64, power: u32) -> u64
    requires callsign_bound { callsign < 2 ^ 28 }
    requires locator_bound { locator < 32_400 }
    requires power_bound { power ≤ 60 }
    ensures { result ≡ word_from callsign (lower_number locator power) }
{
    let lower = locator * 128 + u64::from(power) + 64;
    (callsign << 22) | lower
}

// The callsign's number in a word, its upper 28 bits.
fn callsign_part(word: u64) -> u64
    ensures { result ≡ callsign_part word }
{
    word >> 22
}

// The locator's number in a word, the 15 bits above the low seven.
fn locator_part(word: u64) -> u64
    ensures { result ≡ locator_part word }
{
    (word % (1 << 22)) >> 7
}

// The power of a word that is a message's, or why it isn't. A word of 2^50 or more has a callsign
// number past the end too, so that one test serves for both.
pub(crate) fn power_of(word: u64) -> Result<u32, Refusal>
    ensures { result ≡ word_message word }
{
    if CALLSIGNS <= callsign_part(word) {
        return Err(Refusal::WordTooLarge);
    }
    if LOCATORS <= locator_part(word) {
        return Err(Refusal::BadLocatorNumber);
    }
    let bits = (word % 128) as u32;
    if bits < 64 || !power::is_legal(bits - 64) {
        return Err(Refusal::BadPowerBits);
    }
    Ok(bits - 64)
}

// Writes the callsign of a word.
pub(crate) fn write_callsign(word: u64, callsign: &mut [u8; 6])
    ensures { callsign.new ≡ callsign_of word }
{
    let mut digits = [0u64; 6];
    radix::unpack(callsign_part(word), &CALLSIGN_RADICES, &mut digits);
    write_characters(0, &digits, callsign);
}

// Writes the locator of a word.
pub(crate) fn write_locator(word: u64, locator: &mut [u8; 4])
    ensures { locator.new ≡ locator_of word }
{
    let mut digits = [0u64; 4];
    radix::unpack(locator_part(word), &LOCATOR_RADICES, &mut digits);
    let values = [17 - digits[0], digits[2], 9 - digits[1], digits[3]];
    write_characters(6, &values, locator);
}
