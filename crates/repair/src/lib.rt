// Repair (nearest-codeword decoding): the one word that is nearest to received symbols, found by a
// bounded search.
#![tactic(auto)]

mod best;
mod cost;
mod prefix;
mod search;

ghost use Rattle.std.specs.Prelude.{◌≡◌};
ghost use Rattle.basics.specs.Lists.{some_below};
ghost use Rattle.repair.specs.Answer.{first_bad_bound, frame_repaired, repair_numbers};
ghost use Rattle.repair.specs.Demand.{AsChecked, AsDemanded};
ghost use Rattle.repair.specs.Flips.{FlipsRepaired, TwoFlipsRepaired, FourFlipsRepaired, FlipsRefused, ThreeFlipsRefused, NeverShared, MarginLeft, WrongWordFlips};
ghost use Rattle.repair.specs.LiveCounts.{CleanRepaired, OneFlipRepaired, NeverOverBudget};
ghost use Rattle.repair.specs.Search.{answer_of};

use refusal::Refusal;
use search::Found;

// The nearest word, its disagreements, the live count, how many of the 162 sync bits are wrong, and the
// margin: how many more disagreements the next nearest word has. C gets it whole, in the struct of a
// repair.
#[repr(C)]
#[derive(Clone, Copy)]
pub struct Nearest {
    pub word: u64,
    pub disagreements: u32,
    pub live: u32,
    pub sync_wrong: u32,
    pub margin: u32,
}

// The first bound that is out of its range: 0 for the limit, 1 for the budget.
fn first_bad_bound(limit: u32, budget: u32) -> Option<u32>
    ensures { result ≡ some_below 2 (first_bad_bound limit budget) }
{
    if 12 < limit {
        return Some(0);
    }
    if !(1..=65_536).contains(&budget) {
        return Some(1);
    }
    None
}

// The answer that a search gives.
fn answer(found: Found, sync_wrong: u32, limit: u32, budget: u32) -> Result<Nearest, Refusal>
    ensures { result ≡ answer_of found sync_wrong limit budget }
{
    if budget < found.live {
        return Err(Refusal::OverBudget);
    }
    let best = found.best;
    if limit < best.fewest {
        return Err(Refusal::NoneWithinLimit);
    }
    if best.next <= best.fewest {
        return Err(Refusal::SharedFewest);
    }
    Ok(Nearest {
        word: best.word,
        disagreements: best.fewest,
        live: found.live,
        sync_wrong,
        margin: best.next - best.fewest,
    })
}

// The one word that is nearest to the symbols of a frame, if it is within the limit and the live count
// within the budget; else why not.
pub fn repair(frame: &[u8], limit: u32, budget: u32) -> Result<Nearest, Refusal>
    ensures answer { result ≡ frame_repaired frame.now limit budget }
    ensures numbers { repair_numbers result ≡ repair_numbers (frame_repaired frame.now limit budget) }
    ensures checked { AsChecked frame.now limit budget result }
    ensures demanded { AsDemanded frame.now limit budget result }
    ensures two_flips { TwoFlipsRepaired frame.now limit budget result }
    ensures three_flips { ThreeFlipsRefused frame.now limit budget result }
    ensures wrong_word { WrongWordFlips 28 frame.now limit budget result }
    ensures clean { CleanRepaired frame.now limit budget result }
    ensures one_flip { OneFlipRepaired frame.now limit budget result }
    ensures flips_repaired { FlipsRepaired frame.now limit budget result }
    ensures four_flips { FourFlipsRepaired frame.now limit budget result }
    ensures flips_refused { FlipsRefused 28 frame.now limit budget result }
    ensures never_shared { NeverShared result }
    ensures margin_left { MarginLeft limit result }
    ensures never_over_budget { NeverOverBudget limit budget result }
{
    if frame.len() != 162 {
        return Err(Refusal::WrongLength);
    }
    if let Some(bad) = first_bad_bound(limit, budget) {
        return Err(Refusal::BadBound(bad));
    }
    if let Some(place) = frame::symbols::first_large(frame) {
        return Err(Refusal::SymbolTooLarge(place as u32));
    }
    let received = frame::symbols::received_bits(frame);
    let found = search::search(&received, limit, budget);
    answer(found, frame::symbols::wrong_sync(frame), limit, budget)
}
