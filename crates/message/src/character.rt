// Characters, their capitals and values, and the sets of the ten places of a message.
ghost use Rattle.std.specs.Prelude.{◌≡◌, ◌+◌, ◌≤◌, ◌<◌, ◌++◌, length};
ghost use Rattle.basics.specs.Lists.{some_below};
ghost use Rattle.message.specs.Character.{capital, value, character, set_at, legal_at, first_bad, digit_at, digits_from, characters_from, DigitsAt};

// The capital of a small letter; any other byte is its own. By a project rule the classes of a message's
// characters stand as ranges of the byte, so this isn't `to_ascii_uppercase`.
pub fn capital_of(byte: u8) -> u8
    ensures { result ≡ capital byte }
{
    match byte {
        b'a'..=b'z' => byte - (b'a' - b'A'),
        _ => byte,
    }
}

// Digits count 0 to 9, letters 10 to 35, small ones as their capitals, the space 36; any other byte
// 37. No `Option`: 37 is past the end of each place's set, and the definition `value` has it.
fn value_of(byte: u8) -> u64
    ensures { result ≡ value byte }
{
    match byte {
        b'0'..=b'9' => u64::from(byte - b'0'),
        b'A'..=b'Z' => u64::from(byte - b'A') + 10,
        b'a'..=b'z' => u64::from(byte - b'a') + 10,
        b' ' => 36,
        _ => 37,
    }
}

// The character with a value from 0 to 36.
fn character_of(value: u64) -> u8
    ensures { result ≡ character value }
{
    if value < 10 {
        (value as u8) + b'0'
    } else if value < 36 {
        (value as u8) + (b'A' - 10)
    } else {
        b' '
    }
}

// The lowest value of a place's set: its characters have the values from there on, as many as its
// size. Both are decisions, and no tables: a table in a `const` that is read entry by entry is copied
// whole for each entry.
fn lowest_at(place: usize) -> u64
    ensures { result ≡ (set_at place).lowest }
{
    match place {
        3..=7 => 10,
        _ => 0,
    }
}

// The size of a place's set.
fn size_at(place: usize) -> u64
    requires { place < 10 }
    ensures { result ≡ (set_at place).size }
{
    match place {
        0 => 37,
        1 => 36,
        2 => 10,
        3..=5 => 27,
        6 | 7 => 18,
        _ => 10,
    }
}

// The byte is a character of its place's set.
fn is_legal_at(place: usize, byte: u8) -> bool
    requires { place < 10 }
    ensures { result ≡ legal_at place byte }
{
    let value = value_of(byte);
    let lowest = lowest_at(place);
    lowest <= value && value < lowest + size_at(place)
}

// The first place from `start` on whose character is outside its set. No `position`: that counts
// from 0, so `start` would be added once more, and it would be no plainer.
fn first_bad(start: usize, bytes: &[u8]) -> Option<usize>
    requires { start + length bytes.now ≤ 10 }
    ensures { result ≡ some_below (start + length bytes.now) (first_bad start bytes.now) }
{
    for (i, &byte) in bytes.iter().enumerate() {
        if !is_legal_at(start + i, byte) {
            return Some(start + i);
        }
    }
    None
}

// The first place of a message whose character is outside its set, 0 to 9.
pub(crate) fn first_bad_of(callsign: &[u8; 6], locator: &[u8; 4]) -> Option<usize>
    ensures { result ≡ some_below 10 (first_bad 0 (callsign.now ++ locator.now)) }
{
    match first_bad(0, callsign) {
        Some(place) => Some(place),
        None => first_bad(6, locator),
    }
}

// A character's value, counted from the lowest of its place's set: 0 below it, as the definition's
// difference is.
fn digit_at(place: usize, byte: u8) -> u64
    ensures { result ≡ digit_at place byte }
{
    let value = value_of(byte);
    let lowest = lowest_at(place);
    if value < lowest {
        return 0;
    }
    value - lowest
}

// Writes the digits of the characters at the places from `start` on. That these are places of a
// message stays a `requires` here and below: docs/DECISIONS.md lists both functions with it. Both write
// by index, as of what a loop over `iter_mut` in a `zip` has written a proof knows nothing.
pub fn read_digits(start: usize, bytes: &[u8], digits: &mut [u64])
    requires bytes_bound { start + length bytes.now ≤ 10 }
    requires digits_len { length digits.old ≡ length bytes.now }
    ensures { digits.new ≡ digits_from start bytes.now }
{
    for (i, &byte) in bytes.iter().enumerate() {
        digits[i] = digit_at(start + i, byte);
    }
}

// Writes the characters of the digits at the places from `start` on.
pub fn write_characters(start: usize, digits: &[u64], bytes: &mut [u8])
    requires bytes_bound { start + length bytes.old ≤ 10 }
    requires digits_len { length digits.now ≡ length bytes.old }
    requires digits_at { DigitsAt start digits.now }
    ensures { bytes.new ≡ characters_from start digits.now }
{
    for (i, &digit) in digits.iter().enumerate() {
        bytes[i] = character_of(lowest_at(start + i) + digit);
    }
}
