// The two characters of a channel, and the two letters of a sub-square.
ghost use Rattle.std.specs.Prelude.{◌≡◌};
ghost use Rattle.u4b.specs.Channel.{is_first_character, is_third_character, is_sub_square};

// A channel: the first and the third character of its callsigns.
#[repr(C)]
#[derive(Clone, Copy)]
pub struct Channel {
    pub first: u8,
    pub third: u8,
}

// A sub-square: its two letters (01: g5, g6), the fifth and the sixth character of a locator.
#[repr(C)]
#[derive(Clone, Copy)]
pub struct SubSquare {
    pub grid5: u8,
    pub grid6: u8,
}

// The characters that a kind of telemetry takes as a callsign's first.
#[derive(Clone, Copy)]
pub enum FirstCharacters {
    ZeroOneQ,
    ZeroQ,
}

// One of the first characters that are taken.
pub fn is_first_character(taken: FirstCharacters, byte: u8) -> bool
    ensures { result ≡ is_first_character taken byte }
{
    match byte {
        b'0' => true,
        b'1' => match taken {
            FirstCharacters::ZeroOneQ => true,
            FirstCharacters::ZeroQ => false,
        },
        b'Q' => true,
        _ => false,
    }
}

// 0 to 9. It and `is_sub_square` stay apart, one range each: a common function would be the range itself.
pub fn is_third_character(byte: u8) -> bool
    ensures { result ≡ is_third_character byte }
{
    matches!(byte, b'0'..=b'9')
}

// A letter of a sub-square, A to X.
pub fn is_sub_square(byte: u8) -> bool
    ensures { result ≡ is_sub_square byte }
{
    matches!(byte, b'A'..=b'X')
}
