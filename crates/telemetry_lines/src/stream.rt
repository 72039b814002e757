// The output for the lines of a part of the input.
ghost use Rattle.std.specs.Prelude.{◌≡◌, ◌*◌, ◌≤◌, length, take};
ghost use Rattle.telemetry_lines.specs.Text.{longest_line};
ghost use Rattle.telemetry_lines.specs.Stream.{most_kept, line_after, output_after, last_text, held_by};

use super::line::Line;
use super::output::{Text, put_answer};
use arrayvec::ArrayVec;

// What ends a line.
const NEWLINE: u8 = b'\n';

// The output for a part of the input. A line of output has at most 62 bytes, and a byte of input ends
// at most one line: so that for 1,024 bytes has room.
pub(crate) type Output = ArrayVec<u8, 65536>;

// Makes `out` the output for a part of the input, where the line has begun, and `line` the line that
// is then begun.
pub(crate) fn answer(line: &mut Line, input: &[u8], out: &mut Output)
    requires { longest_line * length input.now ≤ 65536 }
    ensures output { out.new.items ≡ output_after (held_by line.old) input.now }
    ensures line { held_by line.new ≡ take most_kept (line_after (held_by line.old) input.now) }
{
    out.clear();
    for &byte in input {
        if byte == NEWLINE {
            put_answer(line.answer(), out);
            line.clear();
        } else {
            line.push(byte);
        }
    }
}

// What is written for the last line, where no newline has ended it.
#[tactic(auto, using(crate::proofs::StreamLaws::last_none, crate::proofs::StreamLaws::last_begun))]
pub(crate) fn answer_last(line: &Line) -> Text
    ensures { result.items ≡ last_text (held_by line.now) }
{
    let mut text = Text::new();
    if line.is_empty() {
        return text;
    }
    put_answer(line.answer(), &mut text);
    text
}
