// The ranges of what is measured, and what is measured in them.
ghost use Rattle.std.specs.Prelude.{◌≡◌};
ghost use Rattle.basics.specs.Lists.{some_below};
ghost use Rattle.telemetry.specs.Ranges.{first_out_of_range, InRangeForSome, range_checked};
ghost use Rattle.telemetry.specs.declared.Measured.{Measured};

use super::Measured;
use basics::first_false;
use refusal::Refusal;
use std::marker::Model;
use u4b::channel::{FirstCharacters, is_first_character, is_sub_square, is_third_character};

// What is measured, where nothing of it is out of its range; it is seen as what is measured.
#[derive(Drop)]
pub(crate) struct InRange {
    pub(crate) measured: Measured,
}

impl Model for InRange {
    ghost Value = { Measured };

    ghost view = { λ r. r.measured };

    ghost invariant = { λ r. InRangeForSome r.measured };
}

impl InRange {
    // What is measured, where it is in its ranges.
    pub(crate) fn checked(taken: FirstCharacters, measured: Measured) -> Result<Self, Refusal>
        ensures { result ≡ range_checked taken measured }
    {
        if let Some(bad) = first_out_of_range(taken, measured) {
            return Err(Refusal::OutOfRange(bad as u32));
        }
        Ok(InRange { measured })
    }
}

// The first input that is out of its range, 0 to 8 in the order of the fields.
fn first_out_of_range(taken: FirstCharacters, m: Measured) -> Option<usize>
    ensures { result ≡ some_below 9 (first_out_of_range taken m) }
{
    let channel = m.channel;
    let square = m.square;
    let sensors = m.sensors;
    first_false(&[
        is_first_character(taken, channel.first),
        is_third_character(channel.third),
        is_sub_square(square.grid5),
        is_sub_square(square.grid6),
        (0..=21_359).contains(&sensors.altitude),
        (-500..=399).contains(&sensors.temperature),
        (3_000..=4_999).contains(&sensors.voltage),
        (0..=839).contains(&sensors.speed),
        (0..=1).contains(&sensors.gps),
    ])
}
