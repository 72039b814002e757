// A vector's line, callsign|locator|power|word|symbols: its form, and what its fields say.
ghost use Rattle.std.specs.Prelude.{◌≡◌, length};
ghost use Rattle.wsjtx_vectors.specs.Vector.{has_form, power_in, word_in, vector_in, symbols_in};

use super::field::field;
use super::number;
use super::number::digit_value;
use std::array;

// The numbers of a line that is a vector. Its texts stay fields of the line: the definition `vector_in` has
// the numbers alone.
#[derive(Clone, Copy)]
pub(crate) struct Vector {
    pub(crate) power: u32,
    pub(crate) word: u64,
}

// The callsign, the locator and the symbols have their lengths, and nothing follows the symbols:
// beside the power a line has 189 bytes, 6, 4, 13 and 162 in fields and four bars.
#[tactic(auto, unfolding(crate::specs::Vector::has_form))]
fn has_form(line: &[u8]) -> bool
    ensures { result ≡ has_form line.now }
{
    field(line, 0).len() == 6
        && field(line, 1).len() == 4
        && field(line, 4).len() == 162
        && line.len() == field(line, 2).len() + 189
}

// A power has one or two decimal digits. It and the word stay apart: one function would take the base and
// both lengths, and be no shorter.
#[tactic(auto, unfolding(crate::specs::Vector::power_in))]
fn read_power(text: &[u8]) -> Option<u64>
    ensures { result ≡ power_in text.now }
{
    match text.len() {
        1..=2 => number::read(10, text),
        _ => None,
    }
}

// A word has 13 hexadecimal digits, with the zeros in front.
#[tactic(auto, unfolding(crate::specs::Vector::word_in))]
fn read_word(text: &[u8]) -> Option<u64>
    ensures { result ≡ word_in text.now }
{
    match text.len() {
        13 => number::read(16, text),
        _ => None,
    }
}

// The power and the word of a line that is a vector.
#[tactic(auto, unfolding(crate::specs::Vector::vector_in, crate::specs::Vector::power_and_word))]
pub(crate) fn read(line: &[u8]) -> Option<Vector>
    ensures { result ≡ vector_in line.now }
{
    if !has_form(line) {
        return None;
    }
    let power = read_power(field(line, 2))?;
    let word = read_word(field(line, 3))?;
    Some(Vector {
        power: power as u32,
        word,
    })
}

// The symbols that 162 digits write. A byte other than the digits 0 to 3 makes a symbol above 3,
// which no frame has.
pub(crate) fn read_symbols(text: &[u8]) -> [u8; 162]
    requires { length text.now ≡ 162 }
    ensures { result ≡ symbols_in text.now }
{
    array::from_fn(|i| digit_value(text[i]).unwrap_or(16))
}
