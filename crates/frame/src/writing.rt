// Writing a frame: the data bits of a word at their places, then the sync bits.
ghost use Rattle.std.specs.Prelude.{◌≡◌};
ghost use Rattle.convolution.specs.Code.{coded_bits};
ghost use Rattle.frame.specs.Symbols.{interleaved, with_sync, frame_of, DataBits};

use super::sync::sync_vector;

// Writes the data bits of a word's frame: each coded bit goes to its place as it comes. So the loop that
// clocks a word stands here and in `encode`: by way of `encode` a frame took half as long again when that
// was tried (docs/DECISIONS.md).
fn write_data(word: u64, frame: &mut [u8; 162])
    ensures { frame.new ≡ interleaved (coded_bits word) }
{
    let places = interleaver::places::table();
    let mut register: u32 = 0;
    for step in 0..81 {
        register = convolution::clock(register, convolution::clocked_bit(word, step));
        frame[usize::from(places[2 * step])] = convolution::first_coded(register);
        frame[usize::from(places[2 * step + 1])] = convolution::second_coded(register);
    }
}

// Makes symbols of the data bits of a frame. By place: of what a `zip` with `iter_mut` has written a proof
// knows nothing.
fn add_sync(frame: &mut [u8; 162])
    requires { DataBits frame.old }
    ensures { frame.new ≡ with_sync frame.old }
{
    let sync = sync_vector();
    for (place, symbol) in frame.iter_mut().enumerate() {
        *symbol = sync[place] + 2 * *symbol;
    }
}

// Writes the frame of a word's 50 lowest bits. The sync bits are added in a pass of their own, so
// that the compiler adds them to many places at a time.
pub(crate) fn write_symbols(word: u64, frame: &mut [u8; 162])
    ensures { frame.new ≡ frame_of word }
{
    write_data(word, frame);
    add_sync(frame);
}
