// U4B basic telemetry: what a balloon measured, to and from a message.
#![tactic(auto)]

mod codes;
mod range;

ghost use Rattle.std.specs.Prelude.{◌≡◌};
ghost use Rattle.message.specs.Character.{capital_form};
ghost use Rattle.message.specs.Answer.{message_numbers};
ghost use Rattle.message.specs.RoundTrip.{WrittenInCapitals};
ghost use Rattle.telemetry.specs.Answer.{telemetry_written, callsign_after_telemetry, locator_after_telemetry, telemetry_read, word_telemetry, telemetry_numbers};
ghost use Rattle.telemetry.specs.RoundTrip.{TelemetryReadsBack, TelemetryWithinSteps, TelemetryWritesBack, TelemetryRefusedExactly, WordSentBack, WordTelemetryRefusedExactly};

use range::InRange;
use refusal::Refusal;
use u4b::channel::{Channel, FirstCharacters, SubSquare};

// What the sensors of a balloon give; GPS is 0 or 1.
#[repr(C)]
#[derive(Clone, Copy)]
pub struct Sensors {
    pub altitude: u32,
    pub temperature: i32,
    pub voltage: u32,
    pub speed: u32,
    pub gps: u32,
}

// What is sent: the sensors in metres, tenths of a degree, millivolts and tenths of a knot.
#[derive(Clone, Copy)]
pub struct Measured {
    pub channel: Channel,
    pub square: SubSquare,
    pub sensors: Sensors,
}

// What is read back: the sensors in metres, degrees, millivolts and knots. Its fields are those of
// `Measured`, and it is a type of its own so that degrees and knots aren't sent as tenths.
#[repr(C)]
#[derive(Clone, Copy)]
pub struct Reading {
    pub channel: Channel,
    pub square: SubSquare,
    pub sensors: Sensors,
}

// The message of what was measured: its callsign and locator are written, its power is the answer.
pub fn write(measured: Measured, callsign: &mut [u8], locator: &mut [u8]) -> Result<u32, Refusal>
    ensures answer { result ≡ telemetry_written callsign.old locator.old measured }
    ensures numbers { message_numbers result ≡ message_numbers (telemetry_written callsign.old locator.old measured) }
    ensures callsign_after { callsign.new ≡ callsign_after_telemetry callsign.old locator.old measured }
    ensures locator_after { locator.new ≡ locator_after_telemetry callsign.old locator.old measured }
    ensures reads_back { TelemetryReadsBack result measured callsign.new locator.new }
    ensures within_steps { TelemetryWithinSteps result measured callsign.new locator.new }
    ensures in_capitals { WrittenInCapitals result callsign.new locator.new }
{
    if !message::right_lengths(callsign.len(), locator.len()) {
        return Err(Refusal::WrongLength);
    }
    let measured = InRange::checked(FirstCharacters::ZeroOneQ, measured)?;
    let payload = measured.payload(codes::BASIC_BIT);
    u4b::write(FirstCharacters::ZeroOneQ, payload, callsign, locator)
}

// What a message says, where it is one of basic telemetry: the same as its capital form.
pub fn read(callsign: &[u8], locator: &[u8], power: u32) -> Result<Reading, Refusal>
    ensures answer { result ≡ telemetry_read callsign.now locator.now power }
    ensures numbers { telemetry_numbers result ≡ telemetry_numbers (telemetry_read callsign.now locator.now power) }
    ensures as_capitals { result ≡ telemetry_read (capital_form callsign.now) (capital_form locator.now) power }
    ensures writes_back { TelemetryWritesBack result callsign.now locator.now power }
    ensures refuses_exactly { TelemetryRefusedExactly result callsign.now locator.now power }
{
    let payload = u4b::read(FirstCharacters::ZeroOneQ, callsign, locator, power)?;
    codes::read_basic(payload)
}

// What the message of a word says, where it is one of basic telemetry.
pub fn read_word(word: u64) -> Result<Reading, Refusal>
    ensures answer { result ≡ word_telemetry word }
    ensures numbers { telemetry_numbers result ≡ telemetry_numbers (word_telemetry word) }
    ensures sent_back { WordSentBack result word }
    ensures refuses_exactly { WordTelemetryRefusedExactly result word }
{
    let mut callsign = [0u8; 6];
    let mut locator = [0u8; 4];
    let power = message::unpack(word, &mut callsign, &mut locator)?;
    read(&callsign, &locator, power)
}
