// A U4B message: the channel's two characters and two numbers, in a WSPR message and back. The upper
// number stands in the callsign, the lower one in the locator and the power.
#![tactic(auto)]

pub mod alphabet;
mod callsign;
pub mod channel;
mod locator;

ghost use Rattle.std.specs.Prelude.{◌≡◌};
ghost use Rattle.message.specs.Character.{capital_form};
ghost use Rattle.message.specs.Answer.{message_numbers};
ghost use Rattle.message.specs.RoundTrip.{WrittenInCapitals};
ghost use Rattle.u4b.specs.Answer.{payload_written, callsign_after_payload, locator_after_payload, payload_read, payload_numbers};
ghost use Rattle.u4b.specs.RoundTrip.{PayloadReadsBack, PayloadWritesBack, PayloadRefusedExactly};

use alphabet::Alphabet;
use channel::{Channel, FirstCharacters};
use message::Message;
use message::character::capital_of;
use refusal::Refusal;

// The channel, and the two numbers (01: A and B in basic telemetry): below 632,736 and 615,600 where
// they are a message's.
#[derive(Clone, Copy)]
pub struct Payload {
    pub channel: Channel,
    pub upper: u64,
    pub lower: u64,
}

// The message of a payload: its callsign and locator are written, its power is the answer. Each number
// is written modulo its count.
pub fn write(
    taken: FirstCharacters,
    payload: Payload,
    callsign: &mut [u8],
    locator: &mut [u8],
) -> Result<u32, Refusal>
    ensures answer { result ≡ payload_written taken callsign.old locator.old payload }
    ensures numbers { message_numbers result ≡ message_numbers (payload_written taken callsign.old locator.old payload) }
    ensures callsign_after { callsign.new ≡ callsign_after_payload taken callsign.old locator.old payload }
    ensures locator_after { locator.new ≡ locator_after_payload taken callsign.old locator.old payload }
    ensures reads_back { PayloadReadsBack result taken payload callsign.new locator.new }
    ensures in_capitals { WrittenInCapitals result callsign.new locator.new }
{
    let Some(callsign) = callsign.as_mut_array::<6>() else {
        return Err(Refusal::WrongLength);
    };
    let Some(locator) = locator.as_mut_array::<4>() else {
        return Err(Refusal::WrongLength);
    };
    let channel = payload.channel;
    if !channel::is_first_character(taken, channel.first) {
        return Err(Refusal::OutOfRange(0));
    }
    if !channel::is_third_character(channel.third) {
        return Err(Refusal::OutOfRange(1));
    }
    callsign::write_callsign(channel, payload.upper, callsign);
    Ok(locator::write_locator(payload.lower, locator))
}

// The payload of a message, the same as that of its capital form.
pub fn read(
    taken: FirstCharacters,
    callsign: &[u8],
    locator: &[u8],
    power: u32,
) -> Result<Payload, Refusal>
    ensures answer { result ≡ payload_read taken callsign.now locator.now power }
    ensures numbers { payload_numbers result ≡ payload_numbers (payload_read taken callsign.now locator.now power) }
    ensures as_capitals { result ≡ payload_read taken (capital_form callsign.now) (capital_form locator.now) power }
    ensures writes_back { PayloadWritesBack result taken callsign.now locator.now power }
    ensures refuses_exactly { PayloadRefusedExactly result taken callsign.now locator.now power }
{
    let message = Message::checked(callsign, locator, power)?;
    // In places 3 to 5 the numbers stand in letters alone.
    let alphabet = Alphabet {
        taken,
        last_space: false,
    };
    if let Some(place) = alphabet::first_not_taken(alphabet, &message.callsign) {
        return Err(Refusal::NotTelemetry(place as u32));
    }
    Ok(Payload {
        channel: Channel {
            first: capital_of(message.callsign[0]),
            third: message.callsign[2],
        },
        upper: callsign::upper_of(&message.callsign),
        lower: locator::lower_of(&message),
    })
}
