// The lower number in a locator and a power.
ghost use Rattle.std.specs.Prelude.{◌≡◌};
ghost use Rattle.u4b.specs.Characters.{locator_with, power_with, lower_of};

use message::Message;
use message::character::{read_digits, write_characters};

// For places 6 to 9 and the power's index.
const LOWER_RADICES: [u64; 5] = [18, 18, 10, 10, 19];

// Writes the locator with the number; its power is returned.
pub(crate) fn write_locator(lower: u64, locator: &mut [u8; 4]) -> u32
    ensures its_power { result ≡ power_with lower }
    ensures its_locator { locator.new ≡ locator_with lower }
{
    let mut digits = [0u64; 5];
    radix::unpack(lower, &LOWER_RADICES, &mut digits);
    write_characters(6, &[digits[0], digits[1], digits[2], digits[3]], locator);
    power::power_at(digits[4] as u32)
}

// The lower number in the locator and the power of a message.
pub(crate) fn lower_of(message: &Message) -> u64
    ensures { result ≡ lower_of message.now.locator message.now.power }
{
    let mut values = [0u64; 4];
    read_digits(6, &message.locator, &mut values);
    let index = power::index_of(message.power).unwrap();
    radix::pack(
        &LOWER_RADICES,
        &[values[0], values[1], values[2], values[3], u64::from(index)],
    )
}
