// The symbols of a frame: each a sync bit and a data bit, and the coded bits behind the data.
ghost use Rattle.std.specs.Prelude.{◌≡◌, ◌≤◌, length};
ghost use Rattle.basics.specs.Lists.{some_below};
ghost use Rattle.frame.specs.Symbols.{received_bits, wrong_sync_in};
ghost use Rattle.frame.specs.RoundTrip.{RightForm};
ghost use Rattle.frame.specs.Answer.{first_large, first_wrong_sync, word_of_data};

use super::sync::sync_vector;
use refusal::Refusal;

// The largest symbol.
const LARGEST: u8 = 3;

// The first place whose symbol is above 3. By `position` a frame took longer.
pub fn first_large(frame: &[u8]) -> Option<usize>
    ensures { result ≡ some_below (length frame.now) (first_large frame.now) }
{
    for (place, &symbol) in frame.iter().enumerate() {
        if LARGEST < symbol {
            return Some(place);
        }
    }
    None
}

// The first place whose sync bit is wrong.
pub(crate) fn first_wrong_sync(frame: &[u8]) -> Option<usize>
    requires { length frame.now ≤ 162 }
    ensures { result ≡ some_below (length frame.now) (first_wrong_sync frame.now) }
{
    let sync = sync_vector();
    frame
        .iter()
        .zip(&sync)
        .position(|(symbol, sync_bit)| symbol % 2 != *sync_bit)
}

// How many symbols have a wrong sync bit. By `filter` and `count` it takes longer: the compiler then
// counts one symbol at a time.
pub fn wrong_sync(frame: &[u8]) -> u32
    requires { length frame.now ≡ 162 }
    ensures { result ≡ wrong_sync_in frame.now }
{
    let sync = sync_vector();
    let mut wrong: u32 = 0;
    for (symbol, sync_bit) in frame.iter().zip(&sync) {
        if *symbol % 2 != *sync_bit {
            wrong += 1;
        }
    }
    wrong
}

// The data bits of a frame in coded order: each goes to its index as it comes.
pub fn received_bits(frame: &[u8]) -> [u8; 162]
    requires { length frame.now ≡ 162 }
    ensures { result ≡ received_bits frame.now }
{
    let indexes = interleaver::indexes::table();
    let mut received = [0u8; 162];
    for (symbol, index) in frame.iter().zip(&indexes) {
        received[usize::from(*index)] = symbol / 2;
    }
    received
}

// The word of a frame whose symbols and sync bits are right, or that there is none. Only one word
// may have its data bits: that one is encoded anew, and compared.
pub(crate) fn word_of_data(frame: &[u8]) -> Result<u64, Refusal>
    requires { RightForm frame.now }
    ensures { result ≡ word_of_data frame.now }
{
    let received = received_bits(frame);
    let word = convolution::decode(received);
    let coded = convolution::encode(word);
    if coded != received {
        return Err(Refusal::NoWord);
    }
    Ok(word)
}
