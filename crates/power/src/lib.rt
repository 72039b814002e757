// The 19 legal powers, in dBm, and their indexes.
// A decision each way and no table that is searched: a project rule names this form for the powers. The
// attribute names the definitions that the proofs of all three may open.
#![tactic(auto, unfolding(basics::specs::Lists::first_failing, basics::specs::Lists::index_in, basics::specs::Lists::some_below, crate::specs::Powers::powers, crate::specs::Powers::power_index, crate::specs::Powers::power_at, crate::specs::Powers::legal_power))]

ghost use Rattle.std.specs.Prelude.{◌≡◌};
ghost use Rattle.basics.specs.Lists.{some_below};
ghost use Rattle.power.specs.Powers.{power_index, power_at, legal_power};

// The index of a power, 0 to 18; none where it isn't legal.
pub fn index_of(power: u32) -> Option<u32>
    ensures { result ≡ some_below 19 (power_index power) }
{
    let index = match power {
        0 => 0,
        3 => 1,
        7 => 2,
        10 => 3,
        13 => 4,
        17 => 5,
        20 => 6,
        23 => 7,
        27 => 8,
        30 => 9,
        33 => 10,
        37 => 11,
        40 => 12,
        43 => 13,
        47 => 14,
        50 => 15,
        53 => 16,
        57 => 17,
        60 => 18,
        _ => return None,
    };
    Some(index)
}

// The power is one of the 19.
pub fn is_legal(power: u32) -> bool
    ensures { result ≡ legal_power power }
{
    index_of(power).is_some()
}

// The power with an index from 0 to 18; 0 past them.
// No Option: it can't fail, and its definition has the 0.
pub fn power_at(index: u32) -> u32
    ensures { result ≡ power_at index }
{
    match index {
        0 => 0,
        1 => 3,
        2 => 7,
        3 => 10,
        4 => 13,
        5 => 17,
        6 => 20,
        7 => 23,
        8 => 27,
        9 => 30,
        10 => 33,
        11 => 37,
        12 => 40,
        13 => 43,
        14 => 47,
        15 => 50,
        16 => 53,
        17 => 57,
        18 => 60,
        _ => 0,
    }
}
