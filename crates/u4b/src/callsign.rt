// The channel and the upper number in a callsign.
ghost use Rattle.std.specs.Prelude.{◌≡◌};
ghost use Rattle.radix.specs.Numeral.{Digits};
ghost use Rattle.u4b.specs.Characters.{upper_radices, callsign_with, upper_digits, upper_of};

use super::channel::Channel;
use message::character::{read_digits, write_characters};

// For places 1, 3, 4 and 5.
const UPPER_RADICES: [u64; 4] = [36, 26, 26, 26];

// Writes the callsign with the channel's characters, in places 0 and 2, and the number.
pub(crate) fn write_callsign(channel: Channel, upper: u64, callsign: &mut [u8; 6])
    ensures { callsign.new ≡ callsign_with channel upper }
{
    let mut d = [0u64; 4];
    radix::unpack(upper, &UPPER_RADICES, &mut d);
    write_characters(0, &[0, d[0], 0, d[1], d[2], d[3]], callsign);
    callsign[0] = channel.first;
    callsign[2] = channel.third;
}

// The upper number in a callsign.
pub(crate) fn upper_of(callsign: &[u8; 6]) -> u64
    requires { Digits upper_radices (upper_digits callsign.now) }
    ensures { result ≡ upper_of callsign.now }
{
    let mut digits = [0u64; 6];
    read_digits(0, callsign, &mut digits);
    radix::pack(
        &UPPER_RADICES,
        &[digits[1], digits[3], digits[4], digits[5]],
    )
}
