// What is written: the header, and the line for an answer.
ghost use Rattle.std.specs.Prelude.{◌≡◌, ◌∷◌, ◌+◌, ◌≤◌, length};
ghost use Rattle.std.specs.Fmt.{decimal};
ghost use Rattle.arrayvec.specs.ArrayVec.{array_vec_len, Extends};
ghost use Rattle.telemetry_lines.specs.Text.{space, header, reading_text, refusal_text, answer_text, longest_line};

use arrayvec::ArrayVec;
use itoa::{Buffer, Integer};
use refusal::Refusal;
use telemetry::Reading;

// A line of output. None has more bytes: there are five numbers of at most ten digits, one with a sign,
// five other characters, a space before each number and the newline.
pub(crate) type Text = ArrayVec<u8, 62>;

#[tactic(auto, unfolding(crate::specs::Text::header, crate::specs::Text::line_of, basics::specs::Ascii::bytes))]
pub(crate) fn header() -> &'static [u8]
    ensures { result.now ≡ header }
{
    b"CH GR ALT TEMP MV KT GPS\n"
}

// Puts bytes behind those that stand.
fn put<const N: usize>(bytes: &[u8], out: &mut ArrayVec<u8, N>)
    requires { array_vec_len out.old + length bytes.now ≤ N }
    ensures text { Extends out.old bytes.now out.new }
    ensures len { array_vec_len out.new ≡ array_vec_len out.old + length bytes.now }
{
    let _ = out.try_extend_from_slice(bytes);
}

// Puts a space and a number.
fn put_field<I: Integer, const N: usize>(number: I, out: &mut ArrayVec<u8, N>)
    requires { array_vec_len out.old + 1 + I.MAX_STR_LEN ≤ N }
    ensures text { Extends out.old (space ∷ I.text number) out.new }
    ensures len { array_vec_len out.new ≤ array_vec_len out.old + 1 + I.MAX_STR_LEN }
{
    let mut digits = Buffer::new();
    out.push(b' ');
    put(digits.format(number).as_bytes(), out);
}

// Puts a space and a refusal's number or place. Most have one digit, which is put as it is: by way of a
// buffer, the two would take longer than all else that is done for an empty line.
#[tactic(auto, using(crate::proofs::TextLaws::digit_behind))]
fn put_refusal_field<const N: usize>(number: u32, out: &mut ArrayVec<u8, N>)
    requires { array_vec_len out.old + 11 ≤ N }
    ensures text { Extends out.old (space ∷ decimal number) out.new }
    ensures len { array_vec_len out.new ≤ array_vec_len out.old + 11 }
{
    if number < 10 {
        out.push(b' ');
        out.push(b'0' + number as u8);
    } else {
        put_field(number, out);
    }
}

// Puts the line for a reading behind what stands.
fn put_reading<const N: usize>(reading: Reading, out: &mut ArrayVec<u8, N>)
    requires { array_vec_len out.old + longest_line ≤ N }
    ensures { Extends out.old (reading_text reading) out.new }
{
    let Reading {
        channel,
        square,
        sensors,
    } = reading;
    put(&[channel.first, channel.third, b' '], out);
    put(&[square.grid5, square.grid6], out);
    put_field(sensors.altitude, out);
    put_field(sensors.temperature, out);
    put_field(sensors.voltage, out);
    put_field(sensors.speed, out);
    put_field(sensors.gps, out);
    out.push(b'\n');
}

// Puts the line for a refusal behind what stands.
#[tactic(auto, using(crate::proofs::TextLaws::refusal_behind), unfolding(basics::specs::Ascii::bytes))]
fn put_refusal<const N: usize>(refusal: Refusal, out: &mut ArrayVec<u8, N>)
    requires { array_vec_len out.old + longest_line ≤ N }
    ensures { Extends out.old (refusal_text refusal) out.new }
{
    put(b"refused", out);
    put_refusal_field(refusal.number(), out);
    put_refusal_field(refusal.place(), out);
    out.push(b'\n');
}

// Puts the line for an answer behind what stands, so that no line is copied on its way to the output.
#[tactic(auto, unfolding(crate::specs::Text::answer_text))]
pub(crate) fn put_answer<const N: usize>(
    answer: Result<Reading, Refusal>,
    out: &mut ArrayVec<u8, N>,
)
    requires { array_vec_len out.old + longest_line ≤ N }
    ensures { Extends out.old (answer_text answer) out.new }
{
    match answer {
        Ok(reading) => put_reading(reading, out),
        Err(refusal) => put_refusal(refusal, out),
    }
}
