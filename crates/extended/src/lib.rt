// U4B extended telemetry: readings under a table of fields that the caller lends, to and from a message.
#![tactic(auto)]

mod field;
mod number;
mod table;

ghost use Rattle.std.specs.Prelude.{◌≡◌, length};
ghost use Rattle.message.specs.Character.{capital_form};
ghost use Rattle.message.specs.Answer.{message_numbers};
ghost use Rattle.message.specs.RoundTrip.{WrittenInCapitals};
ghost use Rattle.extended.specs.Answer.{one_each, legal_slot_and_type, extended_written, callsign_after_extended, locator_after_extended, extended_read, extended_numbers, readings_after_read};
ghost use Rattle.extended.specs.RoundTrip.{ExtendedReadsBack, ExtendedNearest, CodesNeverShared, ExtendedWritesBack, ExtendedRefusedExactly, OneKind};

use refusal::Refusal;
use table::Table;
use u4b::channel::{Channel, FirstCharacters, is_first_character, is_third_character};

// What a message says beside its readings: channel, slot and type.
#[repr(C)]
#[derive(Clone, Copy)]
pub struct Header {
    pub channel: Channel,
    pub slot: u32,
    pub kind: u32,
}

// There is one reading a field: three numbers of the table for each.
fn one_each(numbers: usize, readings: usize) -> bool
    ensures { result ≡ one_each numbers readings }
{
    numbers % 3 == 0 && numbers / 3 == readings
}

// The slot is 0 to 4 and the type 0 to 15.
#[tactic(auto, unfolding(crate::specs::Answer::legal_slot_and_type))]
fn legal_slot_and_type(header: Header) -> bool
    ensures { result ≡ legal_slot_and_type header }
{
    header.slot <= 4 && header.kind <= 15
}

// The message of the readings: its callsign and locator are written, its power is the answer. The fields
// are lent as C has them, three numbers each.
pub fn write(
    header: Header,
    fields: &[i64],
    readings: &[i64],
    callsign: &mut [u8],
    locator: &mut [u8],
) -> Result<u32, Refusal>
    ensures answer { result ≡ extended_written callsign.old locator.old header fields.now readings.now }
    ensures numbers { message_numbers result ≡ message_numbers (extended_written callsign.old locator.old header fields.now readings.now) }
    ensures callsign_after { callsign.new ≡ callsign_after_extended callsign.old locator.old header fields.now readings.now }
    ensures locator_after { locator.new ≡ locator_after_extended callsign.old locator.old header fields.now readings.now }
    ensures reads_back { ExtendedReadsBack result header fields.now readings.now callsign.new locator.new }
    ensures nearest { ExtendedNearest result fields.now readings.now callsign.new locator.new }
    ensures never_shared { CodesNeverShared result header fields.now readings.now callsign.new locator.new }
    ensures in_capitals { WrittenInCapitals result callsign.new locator.new }
{
    if !one_each(fields.len(), readings.len()) {
        return Err(Refusal::WrongLength);
    }
    if !message::right_lengths(callsign.len(), locator.len()) {
        return Err(Refusal::WrongLength);
    }
    let channel = header.channel;
    if !is_first_character(FirstCharacters::ZeroOneQ, channel.first) {
        return Err(Refusal::OutOfRange(0));
    }
    if !is_third_character(channel.third) {
        return Err(Refusal::OutOfRange(1));
    }
    let Some(table) = Table::checked(fields) else {
        return Err(Refusal::BadFieldTable);
    };
    if !legal_slot_and_type(header) {
        return Err(Refusal::BadSlotOrType);
    }
    let payload = number::payload_from(header, &table, readings);
    u4b::write(FirstCharacters::ZeroOneQ, payload, callsign, locator)
}

// What a message says, where it is one of extended telemetry, the same as its capital form: its readings
// are written, what stands beside them is the answer.
pub fn read(
    callsign: &[u8],
    locator: &[u8],
    power: u32,
    fields: &[i64],
    readings: &mut [i64],
) -> Result<Header, Refusal>
    ensures answer { result ≡ extended_read callsign.now locator.now power fields.now (length readings.old) }
    ensures numbers { extended_numbers result ≡ extended_numbers (extended_read callsign.now locator.now power fields.now (length readings.old)) }
    ensures readings_after { readings.new ≡ readings_after_read callsign.now locator.now power fields.now readings.old }
    ensures as_capitals { result ≡ extended_read (capital_form callsign.now) (capital_form locator.now) power fields.now (length readings.old) }
    ensures readings_as_capitals { readings.new ≡ readings_after_read (capital_form callsign.now) (capital_form locator.now) power fields.now readings.old }
    ensures writes_back { ExtendedWritesBack result fields.now readings.new callsign.now locator.now power }
    ensures refuses_exactly { ExtendedRefusedExactly result fields.now (length readings.old) callsign.now locator.now power }
    ensures one_kind { OneKind result fields.now (length readings.old) callsign.now locator.now power }
{
    if !one_each(fields.len(), readings.len()) {
        return Err(Refusal::WrongLength);
    }
    let payload = u4b::read(FirstCharacters::ZeroOneQ, callsign, locator, power)?;
    number::read_payload(payload, fields, readings)
}
