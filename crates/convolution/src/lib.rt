// The convolutional code of a word: its 162 coded bits, and the word that coded bits determine.
#![tactic(auto)]

ghost use Rattle.std.specs.Prelude.{◌≡◌, ◌<◌, get_or};
ghost use Rattle.convolution.specs.Code.{first_mask, second_mask, clocked, parity, clocked_bits, coded_bits};
ghost use Rattle.convolution.specs.Decoding.{next_bit, decoded_word, OnlyWord};

const FIRST_MASK: u32 = 0xF2D0_5351;

const SECOND_MASK: u32 = 0xE461_3C47;

// The parity of a masked register, 0 or 1: 11 operations, counted behind each line, no loop, call or table. Two folds
// leave the parity of each field of four bits in its lowest bit. The product adds these eight bits up, and the lowest
// bit of their sum is bit 31: of 32 bits the highest, so that a product of 32 bits does where there is none of 64.
// `as` widens here, as `from` is a call.
fn masked_parity(mask: u32, register: u32) -> u8
    ensures { result ≡ parity mask register }
{
    let masked = register & mask; // 1
    let folded = masked ^ (masked >> 2); // 2, 3
    let parities = (folded ^ (folded >> 1)) & 0x1111_1111; // 4, 5, 6
    let sums = parities as u64 * 0x8888_8888; // 7, 8
    ((sums & 0xFFFF_FFFF) >> 31) as u8 // 9, 10, 11
}

// The first coded bit of a register. One function has both masks; a generic name for both bits would be no plainer.
pub fn first_coded(register: u32) -> u8
    ensures { result ≡ parity first_mask register }
{
    masked_parity(FIRST_MASK, register)
}

// The second coded bit of a register.
pub fn second_coded(register: u32) -> u8
    ensures { result ≡ parity second_mask register }
{
    masked_parity(SECOND_MASK, register)
}

// The register after a bit: shifted left, the new bit lowest. Both registers of the definition hold
// the same bits, so that one serves for both.
#[tactic(auto, using(crate::proofs::CodeLaws::clocked_shifted))]
pub fn clock(register: u32, bit: u8) -> u32
    requires { bit < 2 }
    ensures { result ≡ clocked register bit }
{
    (register << 1) | u32::from(bit)
}

// The bit of a word that is clocked at a step: its 50 bits, highest first, then zeros.
#[tactic(auto, using(crate::proofs::CodeLaws::clocked_first, crate::proofs::CodeLaws::clocked_later))]
pub fn clocked_bit(word: u64, step: usize) -> u8
    ensures { result ≡ get_or (clocked_bits word) step 0 }
{
    if step < 50 {
        ((word >> (49 - step)) % 2) as u8
    } else {
        0
    }
}

// The 162 coded bits of a word's 50 lowest bits.
pub fn encode(word: u64) -> [u8; 162]
    ensures { result ≡ coded_bits word }
{
    let mut coded = [0u8; 162];
    let mut register: u32 = 0;
    // Written by index: of what a loop over `chunks_exact_mut` has written a proof knows nothing.
    for step in 0..81 {
        register = clock(register, clocked_bit(word, step));
        coded[2 * step] = first_coded(register);
        coded[2 * step + 1] = second_coded(register);
    }
    coded
}

// The bit that gives the first coded bit, clocked next into the register.
#[tactic(auto, unfolding(crate::specs::Decoding::next_bit))]
fn next_bit(register: u32, coded: u8) -> u8
    ensures { result ≡ next_bit register coded }
{
    u8::from(first_coded(clock(register, 0)) != coded)
}

// The only word below 2^50 that may have these coded bits.
pub fn decode(coded: [u8; 162]) -> u64
    ensures answer { result ≡ decoded_word coded }
    ensures only { OnlyWord coded result }
{
    let mut word: u64 = 0;
    let mut register: u32 = 0;
    for pair in coded.chunks_exact(2).take(50) {
        let bit = next_bit(register, pair[0]);
        register = clock(register, bit);
        word = word * 2 + u64::from(bit);
    }
    word
}
