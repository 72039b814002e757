// Runs the vectors that WSJT-X printed, one a line: callsign|locator|power|word|symbols.
//
// Each is answered by a line with, between bars: the word and the frame written from the vector's
// message, the frame written from its word, the message read from its word, and the word and the
// message read from its symbols. So each direction is tried, and where all are right the answer is
//
//     word|symbols|symbols|callsign|locator|power|word|callsign|locator|power
//
// with the vector's own fields. The file stdin has what wsprsim and wsprcode of WSJT-X 2.6.1 both
// print, and stdout has it in this order.
#![tactic(auto)]

mod field;
mod number;
mod output;
mod vector;

ghost use Rattle.std.specs.Prelude.{◌≡◌, length};
ghost use Rattle.wsjtx_vectors.specs.Field.{field_at};

use field::field;
use output::{print_bar, print_frame, print_message, print_word};
use std::io;
use std::io::{BufWriter, Read, Write};
use vector::Vector;

// What the vector's message gives: the word and the frame.
fn print_answers_of_message<W: Write>(
    out: &mut W,
    callsign: &[u8],
    locator: &[u8],
    power: u32,
) -> io::Result<()> {
    print_word(out, message::pack(callsign, locator, power))?;
    print_bar(out)?;
    print_frame(out, |symbols| {
        frame::write_message(callsign, locator, power, symbols)
    })
}

// What the vector's word gives: the frame and the message.
fn print_answers_of_word<W: Write>(out: &mut W, word: u64) -> io::Result<()> {
    print_frame(out, |symbols| frame::write_word(word, symbols))?;
    print_bar(out)?;
    print_message(out, |callsign, locator| {
        message::unpack(word, callsign, locator)
    })
}

// What the vector's symbols give: the word and the message.
fn print_answers_of_symbols<W: Write>(out: &mut W, symbols: &[u8]) -> io::Result<()> {
    print_word(out, frame::read_word(symbols))?;
    print_bar(out)?;
    print_message(out, |callsign, locator| {
        frame::read_message(symbols, callsign, locator)
    })
}

// The line is a vector, so its fifth field has 162 bytes.
fn print_answers<W: Write>(out: &mut W, line: &[u8], vector: Vector) -> io::Result<()>
    requires { length (field_at 4 line.now) ≡ 162 }
{
    print_answers_of_message(out, field(line, 0), field(line, 1), vector.power)?;
    print_bar(out)?;
    print_answers_of_word(out, vector.word)?;
    print_bar(out)?;
    print_answers_of_symbols(out, &vector::read_symbols(field(line, 4)))
}

fn print_vector<W: Write>(out: &mut W, line: &[u8]) -> io::Result<()> {
    match vector::read(line) {
        Some(vector) => print_answers(out, line, vector)?,
        None => out.write_all(b"malformed")?,
    }
    out.write_all(b"\n")
}

// A last line that no newline ends counts too.
fn print_vectors<W: Write>(out: &mut W, text: &[u8]) -> io::Result<()> {
    for line in text.split_inclusive(|b| *b == b'\n') {
        print_vector(out, line.strip_suffix(b"\n").unwrap_or(line))?;
    }
    Ok(())
}

// The text has room for 65,536 bytes; of a longer input it takes the start. Of one that can't be read to
// its end, what was read is answered.
fn main(rt: HostRuntime) -> io::Result<()> {
    let mut text = Vec::new(rt.alloc());
    let read = rt.reader().take(65_536).read_to_end(&mut text);
    let mut out = BufWriter::new(rt.alloc(), io::writer(&rt))?;
    print_vectors(&mut out, &text)?;
    out.flush()?;
    read?;
    Ok(())
}
