// The codes of what is measured, the two numbers that hold them, and the readings back.
ghost use Rattle.std.specs.Prelude.{◌≡◌, true, ◌≤◌};
ghost use Rattle.telemetry.specs.Ranges.{temperature_in_range};
ghost use Rattle.telemetry.specs.Codes.{temperature_code, voltage_code, degrees, millivolts};
ghost use Rattle.telemetry.specs.Payload.{position_number, sensor_number, payload_from, reading_of};
ghost use Rattle.telemetry.specs.Answer.{payload_telemetry, basic_telemetry};

use super::range::InRange;
use super::{Reading, Sensors};
use refusal::Refusal;
use u4b::Payload;
use u4b::channel::SubSquare;

// For the two letters of the sub-square and the altitude's code, and how many numbers they make.
const POSITION_RADICES: [u64; 3] = [24, 24, 1_068];

const POSITION_COUNT: u64 = 615_168;

// For the codes of temperature, voltage and speed, GPS and the lowest digit, and how many numbers they
// make.
const SENSOR_RADICES: [u64; 5] = [90, 40, 42, 2, 2];

const SENSOR_COUNT: u64 = 604_800;

// The lowest digit in basic telemetry.
pub(crate) const BASIC_BIT: u64 = 1;

// The code of a temperature in tenths of a degree, rounded down. Signed division rounds up where it
// leaves a remainder below zero; it stands here, not `div_euclid`, by a project rule. The branch says
// which case is which, so it is no `i32::from`.
fn temperature_code(tenths: i32) -> u64
    requires { temperature_in_range tenths ≡ true }
    ensures { result ≡ temperature_code tenths }
{
    let rounded_up = if tenths % 10 < 0 { 1 } else { 0 };
    (tenths / 10 - rounded_up + 50) as u64
}

// The code of a voltage in millivolts.
#[tactic(auto, unfolding(crate::specs::Codes::voltage_code))]
fn voltage_code(voltage: u32) -> u64
    requires { 3_000 ≤ voltage }
    ensures { result ≡ voltage_code voltage }
{
    u64::from((voltage - 2_000) / 50 % 40)
}

impl InRange {
    // The number of the sub-square and altitude (01: A).
    fn position_number(&self) -> u64
        ensures { result ≡ position_number self.now }
    {
        let square = self.measured.square;
        let sensors = self.measured.sensors;
        let digits = [
            u64::from(square.grid5 - b'A'),
            u64::from(square.grid6 - b'A'),
            u64::from(sensors.altitude / 20),
        ];
        radix::pack(&POSITION_RADICES, &digits)
    }

    // The number of temperature, voltage, speed and GPS (01: B), with the lowest digit.
    fn sensor_number(&self, lowest: u64) -> u64
        requires { lowest ≤ 1 }
        ensures { result ≡ sensor_number lowest self.now.sensors }
    {
        let sensors = self.measured.sensors;
        let digits = [
            temperature_code(sensors.temperature),
            voltage_code(sensors.voltage),
            u64::from(sensors.speed / 20),
            u64::from(sensors.gps),
            lowest,
        ];
        radix::pack(&SENSOR_RADICES, &digits)
    }

    // The channel and both numbers, with the lowest digit.
    #[tactic(auto, unfolding(crate::specs::Payload::payload_from))]
    pub(crate) fn payload(&self, lowest: u64) -> Payload
        requires { lowest ≤ 1 }
        ensures { result ≡ payload_from lowest self.now }
    {
        Payload {
            channel: self.measured.channel,
            upper: self.position_number(),
            lower: self.sensor_number(lowest),
        }
    }
}

// The degrees of a temperature's code.
fn degrees_of(code: u64) -> i32
    requires { code ≤ 89 }
    ensures { result ≡ degrees code }
{
    code as i32 - 50
}

// The millivolts of a voltage's code.
#[tactic(auto, unfolding(crate::specs::Codes::millivolts))]
fn millivolts_of(code: u64) -> u32
    requires { code ≤ 39 }
    ensures { result ≡ millivolts code }
{
    (3_000 + 50 * ((code + 20) % 40)) as u32
}

// The readings in the two numbers.
fn reading_of(payload: Payload) -> Reading
    ensures { result ≡ reading_of payload }
{
    let mut position = [0u64; 3];
    radix::unpack(payload.upper, &POSITION_RADICES, &mut position);
    let [grid5, grid6, altitude] = position;
    let mut sensors = [0u64; 5];
    radix::unpack(payload.lower, &SENSOR_RADICES, &mut sensors);
    let [temperature, voltage, speed, gps, _] = sensors;
    Reading {
        channel: payload.channel,
        square: SubSquare {
            grid5: grid5 as u8 + b'A',
            grid6: grid6 as u8 + b'A',
        },
        sensors: Sensors {
            altitude: (20 * altitude) as u32,
            temperature: degrees_of(temperature),
            voltage: millivolts_of(voltage),
            speed: (2 * speed) as u32,
            gps: gps as u32,
        },
    }
}

// The readings in the two numbers, where they hold such, whatever the lowest digit.
fn read_payload(payload: Payload) -> Result<Reading, Refusal>
    ensures { result ≡ payload_telemetry payload }
{
    if POSITION_COUNT <= payload.upper {
        return Err(Refusal::BadPositionNumber);
    }
    if SENSOR_COUNT <= payload.lower {
        return Err(Refusal::BadSensorNumber);
    }
    Ok(reading_of(payload))
}

// The readings in the two numbers, where they are those of basic telemetry.
pub(crate) fn read_basic(payload: Payload) -> Result<Reading, Refusal>
    ensures { result ≡ basic_telemetry payload }
{
    if payload.lower % 2 != BASIC_BIT {
        return Err(Refusal::ExtendedTelemetry);
    }
    read_payload(payload)
}
