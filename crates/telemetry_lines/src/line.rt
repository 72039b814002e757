// A line of input: the bytes that are kept of it while it is read, and its answer.
ghost use Rattle.std.specs.Prelude.{◌≡◌, true, ◌≤◌};
ghost use Rattle.basics.specs.Test.{between};
ghost use Rattle.message.specs.Character.{capital_form};
ghost use Rattle.arrayvec.specs.ArrayVec.{array_vec_len};
ghost use Rattle.telemetry_lines.specs.Line.{has_form, power_in, line_answer};

use arrayvec::ArrayVec;
use refusal::Refusal;
use telemetry::Reading;

// The start of a line, at most 15 bytes: one more than a line of the right length has, so that a
// longer one is told from it.
#[derive(Drop)]
pub(crate) struct Line {
    kept: ArrayVec<u8, 15>,
    ghost bounded: { array_vec_len kept ≤ 15 },
}

impl Line {
    ghost use Rattle.std.specs.Prelude.{[], ◌∷◌, ◌++◌, ◌==◌, length, take};
    ghost use Rattle.telemetry_lines.specs.Stream.{most_kept, held_by};

    pub(crate) fn empty() -> Line
        ensures { held_by result ≡ [] }
    {
        Line {
            kept: ArrayVec::new(),
        }
    }

    pub(crate) fn is_empty(&self) -> bool
        ensures { result ≡ (length (held_by self.now) == 0) }
    {
        self.kept.is_empty()
    }

    // Goes on with a byte, which is kept where there is room.
    #[tactic(auto, using(crate::proofs::LineLaws::kept_full))]
    pub(crate) fn push(&mut self, byte: u8)
        ensures { held_by self.new ≡ take most_kept (held_by self.old ++ (byte ∷ [])) }
    {
        if !self.kept.is_full() {
            self.kept.push(byte);
        }
    }

    pub(crate) fn clear(&mut self)
        ensures { held_by self.new ≡ [] }
    {
        self.kept.clear();
    }

    // The answer to the bytes that are kept. A line of more than those has the same.
    pub(crate) fn answer(&self) -> Result<Reading, Refusal>
        ensures { result ≡ line_answer (held_by self.now) }
    {
        answer_of(self.kept.as_slice())
    }
}

// A line has 14 bytes, two of them spaces and the last two digits.
#[tactic(auto, unfolding(crate::specs::Line::has_form))]
fn has_form(line: &[u8]) -> bool
    ensures { result ≡ has_form line.now }
{
    line.len() == 14
        && line[6] == b' '
        && line[11] == b' '
        && line[12].is_ascii_digit()
        && line[13].is_ascii_digit()
}

// The power that two digits write.
#[tactic(auto, using(crate::proofs::LineLaws::formed), unfolding(crate::specs::Line::power_in))]
fn power_in(line: &[u8]) -> u32
    requires { has_form line.now ≡ true }
    ensures { result ≡ power_in line.now }
{
    u32::from(line[12] - b'0') * 10 + u32::from(line[13] - b'0')
}

// The answer to a whole line, the same as to its capital form. The attribute names what its proof cites.
#[tactic(auto, using(crate::proofs::LineLaws::formed, crate::proofs::LineLaws::answer_other, crate::proofs::LineLaws::answer_formed, crate::proofs::LineLaws::line_capitals))]
fn answer_of(line: &[u8]) -> Result<Reading, Refusal>
    ensures answer { result ≡ line_answer line.now }
    ensures as_capitals { result ≡ line_answer (capital_form line.now) }
{
    if !has_form(line) {
        return Err(Refusal::WrongLength);
    }
    telemetry::read(&line[..6], &line[7..11], power_in(line))
}
