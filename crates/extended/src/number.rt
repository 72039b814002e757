// The number that holds the codes, the slot and the type.
ghost use Rattle.std.specs.Prelude.{◌≡◌, true, ◌<◌, length};
ghost use Rattle.extended.specs.Fields.{fields_of, codes_of, field_readings};
ghost use Rattle.extended.specs.Number.{extended_number, extended_payload, payload_number, codes_in, left_over};
ghost use Rattle.extended.specs.Answer.{legal_slot_and_type, payload_extended, readings_after};

use super::Header;
use super::table::{MOST_FIELDS, Table};
use refusal::Refusal;
use u4b::Payload;

// For slot, type, reserved and telemetry type, and how many numbers they make.
const HEADER_RADICES: [u64; 4] = [5, 16, 4, 2];

const HEADER_COUNT: u64 = 640;

// How many lower numbers of a message there are.
const LOWER_COUNT: u64 = 615_600;

// The channel and the two numbers of the readings and what stands beside them. A table and its readings
// stay two things here and below: the readings are lent to be read or to be written.
pub(crate) fn payload_from(header: Header, table: &Table, readings: &[i64]) -> Payload
    requires readings_len { length readings.now ≡ length table.now }
    requires header_value { legal_slot_and_type header ≡ true }
    ensures { result ≡ extended_payload header table.now (codes_of table.now readings.now) }
{
    let upper = table.pack(readings);
    let lower = radix::pack(
        &HEADER_RADICES,
        &[u64::from(header.slot), u64::from(header.kind), 0, 0],
    );
    let number = upper * HEADER_COUNT + lower;
    Payload {
        channel: header.channel,
        upper: number / LOWER_COUNT,
        lower: number % LOWER_COUNT,
    }
}

// What the two numbers of a message say: the readings are written, what stands beside them is the answer.
pub(crate) fn read_payload(
    payload: Payload,
    fields: &[i64],
    readings: &mut [i64],
) -> Result<Header, Refusal>
    requires upper_bound { payload.upper < 632_736 }
    requires lower_bound { payload.lower < 615_600 }
    requires readings_len { length readings.old ≡ length (fields_of fields.now) }
    ensures answer { result ≡ payload_extended (fields_of fields.now) payload }
    ensures readings_after { readings.new ≡ readings_after (payload_extended (fields_of fields.now) payload) readings.old (field_readings (fields_of fields.now) (codes_in (fields_of fields.now) (payload_number payload))) }
{
    let number = payload.upper * LOWER_COUNT + payload.lower;
    let mut header = [0u64; 4];
    let rest = radix::unpack(number, &HEADER_RADICES, &mut header);
    let [slot, kind, reserved, telemetry_type] = header;
    if telemetry_type != 0 {
        return Err(Refusal::NotExtended);
    }
    let Some(table) = Table::checked(fields) else {
        return Err(Refusal::BadFieldTable);
    };
    if reserved != 0 {
        return Err(Refusal::ReservedNotZero);
    }
    let counts = table.counts();
    // `unpack` writes into a lent slice: a `PerField` of zeros, cut to this length, would be no plainer.
    let mut codes = [0u64; MOST_FIELDS];
    let codes = &mut codes[..counts.len()];
    let left = radix::unpack(rest, counts.as_slice(), codes);
    if left != 0 {
        return Err(Refusal::NumberLeftOver);
    }
    readings.copy_from_slice(table.readings(codes).as_slice());
    Ok(Header {
        channel: payload.channel,
        slot: slot as u32,
        kind: kind as u32,
    })
}
