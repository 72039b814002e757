// A frame of 162 symbols: written from a word or a message, and strictly read to either.
#![tactic(auto)]

pub mod symbols;
mod sync;
mod writing;

ghost use Rattle.std.specs.Prelude.{◌≡◌};
ghost use Rattle.message.specs.Character.{capital_form};
ghost use Rattle.message.specs.Answer.{word_numbers, message_numbers};
ghost use Rattle.message.specs.RoundTrip.{WrittenInCapitals};
ghost use Rattle.frame.specs.Answer.{word_written, message_written, frame_after_word, frame_after_message, word_read, message_read, callsign_after_read, locator_after_read, write_numbers};
ghost use Rattle.frame.specs.RoundTrip.{WordReadsBack, WordWritesBack, WordRefusedExactly, NoWordRefused, MessageReadsBack, MessageWritesBack, MessageRefusedExactly};

use refusal::Refusal;

// Writes the frame of a word.
pub fn write_word(word: u64, frame: &mut [u8]) -> Result<(), Refusal>
    ensures answer { result ≡ word_written frame.old word }
    ensures numbers { write_numbers result ≡ write_numbers (word_written frame.old word) }
    ensures frame_after { frame.new ≡ frame_after_word frame.old word }
    ensures reads_back { WordReadsBack result word frame.new }
{
    let Some(symbols) = frame.as_mut_array::<162>() else {
        return Err(Refusal::WrongLength);
    };
    if 1 << 50 <= word {
        return Err(Refusal::WordTooLarge);
    }
    writing::write_symbols(word, symbols);
    Ok(())
}

// Writes the frame of a message, the same as that of its capital form.
pub fn write_message(
    callsign: &[u8],
    locator: &[u8],
    power: u32,
    frame: &mut [u8],
) -> Result<(), Refusal>
    ensures answer { result ≡ message_written callsign.now locator.now power frame.old }
    ensures numbers { write_numbers result ≡ write_numbers (message_written callsign.now locator.now power frame.old) }
    ensures frame_after { frame.new ≡ frame_after_message callsign.now locator.now power frame.old }
    ensures as_capitals { result ≡ message_written (capital_form callsign.now) (capital_form locator.now) power frame.old }
    ensures frame_as_capitals { frame.new ≡ frame_after_message (capital_form callsign.now) (capital_form locator.now) power frame.old }
    ensures reads_back { MessageReadsBack result callsign.now locator.now power frame.new }
{
    let Some(symbols) = frame.as_mut_array::<162>() else {
        return Err(Refusal::WrongLength);
    };
    // No `?`: the refusal has an arm of its own, as in the definition `written_as`.
    match message::pack(callsign, locator, power) {
        Ok(word) => {
            writing::write_symbols(word, symbols);
            Ok(())
        }
        Err(refusal) => Err(refusal),
    }
}

// The word of a frame.
pub fn read_word(frame: &[u8]) -> Result<u64, Refusal>
    ensures answer { result ≡ word_read frame.now }
    ensures numbers { word_numbers result ≡ word_numbers (word_read frame.now) }
    ensures writes_back { WordWritesBack result frame.now }
    ensures refuses_exactly { WordRefusedExactly result frame.now }
    ensures no_word { NoWordRefused result frame.now }
{
    if frame.len() != 162 {
        return Err(Refusal::WrongLength);
    }
    if let Some(place) = symbols::first_large(frame) {
        return Err(Refusal::SymbolTooLarge(place as u32));
    }
    if let Some(place) = symbols::first_wrong_sync(frame) {
        return Err(Refusal::WrongSync(place as u32));
    }
    symbols::word_of_data(frame)
}

// The message of a frame: its callsign and locator are written, its power is the answer.
pub fn read_message(frame: &[u8], callsign: &mut [u8], locator: &mut [u8]) -> Result<u32, Refusal>
    ensures answer { result ≡ message_read frame.now callsign.old locator.old }
    ensures numbers { message_numbers result ≡ message_numbers (message_read frame.now callsign.old locator.old) }
    ensures callsign_after { callsign.new ≡ callsign_after_read frame.now callsign.old locator.old }
    ensures locator_after { locator.new ≡ locator_after_read frame.now callsign.old locator.old }
    ensures writes_back { MessageWritesBack result frame.now callsign.new locator.new }
    ensures in_capitals { WrittenInCapitals result callsign.new locator.new }
    ensures refuses_exactly { MessageRefusedExactly result frame.now callsign.old locator.old }
{
    // No `?`, by a project rule: let .. else takes the answer apart before the word is unpacked.
    let answer = read_word(frame);
    let Ok(word) = answer else {
        return Err(answer.unwrap_err());
    };
    message::unpack(word, callsign, locator)
}
