// Reads lines of a callsign, a locator and two power digits from standard input, and writes a header
// and a line each: what the message says as telemetry, or why it is refused.
//
//     QQ2XFT GP99 60
//
// gives
//
//     CH GR ALT TEMP MV KT GPS
//     Q2 SK 12340 -15 4100 30 1
//
// The input is read in parts, and each part's output is written at once: nothing but the start of a
// line is kept from one part to the next, so the input may be of any size, and its lines of any
// length.
#![tactic(auto)]

mod line;
mod output;
mod stream;

ghost use Rattle.std.specs.Prelude.{◌≡◌, ◌*◌, ◌≤◌, length, take, IfOk, OnErr};
ghost use Rattle.telemetry_lines.specs.Text.{longest_line};
ghost use Rattle.telemetry_lines.specs.Stream.{most_kept, line_after, output_after, held_by};

use line::Line;
use std::io;
use std::io::{Read, Stdin, Stdout, Write};
use stream::Output;

// Reads a part of the input, where the line has begun, and makes `out` its output and `line` the line
// that is then begun. Answers how many bytes there were: none at the input's end.
fn answer_part(
    mut stdin: Stdin,
    line: &mut Line,
    input: &mut [u8],
    out: &mut Output,
) -> io::Result<usize>
    requires { longest_line * length input.old ≤ 65536 }
    ensures output { IfOk result (λ count. out.new.items ≡ output_after (held_by line.old) (take count input.new)) }
    ensures line { IfOk result (λ count. held_by line.new ≡ take most_kept (line_after (held_by line.old) (take count input.new))) }
    ensures unread { OnErr result ((line.new ≡ line.old) × (out.new ≡ out.old)) }
{
    let count = stdin.read(input)?;
    stream::answer(line, &input[..count], out);
    Ok(count)
}

// Answers the lines that newlines end, and returns the line that none does, at the end of the input.
// A loop has to end, and nothing says that an input does: so it is read a number of times that no run
// uses up. Of the streams no contract can speak, so nothing is promised of the line.
fn answer_lines(stdin: Stdin, mut stdout: Stdout) -> io::Result<Line> {
    let mut input = [0u8; 1024];
    let mut out = Output::new();
    let mut line = Line::empty();
    for _ in 0..u64::MAX {
        let count = answer_part(stdin, &mut line, &mut input, &mut out)?;
        stdout.write_all(out.as_slice())?;
        if count == 0 {
            break;
        }
    }
    Ok(line)
}

// Writes the header and the answers to all lines.
fn answer_input(stdin: Stdin, mut stdout: Stdout) -> io::Result<()> {
    stdout.write_all(output::header())?;
    let line = answer_lines(stdin, stdout)?;
    stdout.write_all(stream::answer_last(&line).as_slice())
}

// Where the input can't be read, or the output not be written, the program ends with what it has
// written, and leaves out the line that is begun: what was read of it may be a part only.
fn main(rt: HostRuntime) {
    let _ = answer_input(rt.stdin(), rt.stdout());
}
