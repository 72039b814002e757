// The characters that a kind of telemetry takes in a callsign, place by place.
ghost use Rattle.std.specs.Prelude.{◌≡◌, length};
ghost use Rattle.basics.specs.Lists.{some_below};
ghost use Rattle.u4b.specs.Alphabet.{taken_at, first_not_taken};

use super::channel::{FirstCharacters, is_first_character};
use message::character::capital_of;

// The characters that are taken as the first, and whether a space may stand last, in place 5.
#[derive(Clone, Copy)]
pub struct Alphabet {
    pub taken: FirstCharacters,
    pub last_space: bool,
}

// A legal character is taken at its place, a small letter where its capital is.
fn is_taken_at(alphabet: Alphabet, place: usize, byte: u8) -> bool
    ensures { result ≡ taken_at alphabet place byte }
{
    let taken = alphabet.taken;
    match place {
        0 => is_first_character(taken, capital_of(byte)),
        1 | 2 => true,
        5 => alphabet.last_space || byte != b' ',
        _ => byte != b' ',
    }
}

// The first place whose character isn't taken there. A `for`, as the place is tested with the character.
pub fn first_not_taken(alphabet: Alphabet, callsign: &[u8]) -> Option<usize>
    ensures { result ≡ some_below (length callsign.now) (first_not_taken alphabet callsign.now) }
{
    for (i, &byte) in callsign.iter().enumerate() {
        if !is_taken_at(alphabet, i, byte) {
            return Some(i);
        }
    }
    None
}
