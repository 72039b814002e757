// A WSPR type 1 message (callsign, locator, power) and its 50-bit word, both ways.
#![tactic(auto)]

pub mod character;
mod word;

ghost use Rattle.std.specs.Prelude.{◌≡◌, true, IfOk};
ghost use Rattle.power.specs.Powers.{legal_power};
ghost use Rattle.message.specs.Character.{capital_form, first_bad};
ghost use Rattle.message.specs.Answer.{right_lengths, outcome, message_checked, message_packed, word_unpacked, callsign_after_unpack, locator_after_unpack, check_numbers, word_numbers, message_numbers};
ghost use Rattle.message.specs.RoundTrip.{UnpacksBack, PacksBack, WrittenInCapitals, UnpackRefusedExactly};

use refusal::Refusal;

// A legal message: each character is in its place's set, and the power is legal.
#[derive(Clone, Copy)]
pub struct Message {
    pub callsign: [u8; 6],
    pub locator: [u8; 4],
    pub power: u32,
    pub ghost callsign_legal: { first_bad 0 callsign ≡ 6 },
    pub ghost locator_legal: { first_bad 6 locator ≡ 10 },
    pub ghost power_legal: { legal_power power ≡ true },
}

impl Message {
    // The message of what is lent, as it was typed, where it is legal. It is so exactly where its capital form
    // is, and else is refused as that is.
    pub fn checked(callsign: &[u8], locator: &[u8], power: u32) -> Result<Self, Refusal>
        ensures answer { outcome result ≡ message_checked callsign.now locator.now power }
        ensures numbers { check_numbers (outcome result) ≡ check_numbers (message_checked callsign.now locator.now power) }
        ensures as_capitals { outcome result ≡ message_checked (capital_form callsign.now) (capital_form locator.now) power }
        ensures parts { IfOk result (λ m. (m.callsign ≡ callsign.now) × (m.locator ≡ locator.now) × (m.power ≡ power)) }
    {
        let (Some(callsign), Some(locator)) = (callsign.as_array::<6>(), locator.as_array::<4>())
        else {
            return Err(Refusal::WrongLength);
        };
        if let Some(bad) = character::first_bad_of(callsign, locator) {
            return Err(Refusal::BadCharacter(bad as u32));
        }
        if !power::is_legal(power) {
            return Err(Refusal::BadPower);
        }
        Ok(Message {
            callsign: *callsign,
            locator: *locator,
            power,
        })
    }
}

// Both lengths are right: 6 for a callsign, 4 for a locator.
pub fn right_lengths(callsign: usize, locator: usize) -> bool
    ensures { result ≡ right_lengths callsign locator }
{
    callsign == 6 && locator == 4
}

// Whether a message is legal: its lengths, its characters and its power. Small letters count as their
// capitals.
pub fn check(callsign: &[u8], locator: &[u8], power: u32) -> Result<(), Refusal>
    ensures answer { result ≡ message_checked callsign.now locator.now power }
    ensures numbers { check_numbers result ≡ check_numbers (message_checked callsign.now locator.now power) }
    ensures as_capitals { result ≡ message_checked (capital_form callsign.now) (capital_form locator.now) power }
{
    Message::checked(callsign, locator, power)?;
    Ok(())
}

// The word of a message, the same as that of its capital form.
pub fn pack(callsign: &[u8], locator: &[u8], power: u32) -> Result<u64, Refusal>
    ensures answer { result ≡ message_packed callsign.now locator.now power }
    ensures numbers { word_numbers result ≡ word_numbers (message_packed callsign.now locator.now power) }
    ensures as_capitals { result ≡ message_packed (capital_form callsign.now) (capital_form locator.now) power }
    ensures unpacks_back { UnpacksBack result callsign.now locator.now power }
{
    let message = Message::checked(callsign, locator, power)?;
    Ok(message.word())
}

// The message of a word: its callsign and locator are written, its power is the answer.
pub fn unpack(word: u64, callsign: &mut [u8], locator: &mut [u8]) -> Result<u32, Refusal>
    ensures answer { result ≡ word_unpacked callsign.old locator.old word }
    ensures numbers { message_numbers result ≡ message_numbers (word_unpacked callsign.old locator.old word) }
    ensures callsign_after { callsign.new ≡ callsign_after_unpack callsign.old locator.old word }
    ensures locator_after { locator.new ≡ locator_after_unpack callsign.old locator.old word }
    ensures packs_back { PacksBack result word callsign.new locator.new }
    ensures in_capitals { WrittenInCapitals result callsign.new locator.new }
    ensures refuses_exactly { UnpackRefusedExactly result word callsign.old locator.old }
{
    let Some(callsign) = callsign.as_mut_array::<6>() else {
        return Err(Refusal::WrongLength);
    };
    let Some(locator) = locator.as_mut_array::<4>() else {
        return Err(Refusal::WrongLength);
    };
    let power = word::power_of(word)?;
    word::write_callsign(word, callsign);
    word::write_locator(word, locator);
    Ok(power)
}
