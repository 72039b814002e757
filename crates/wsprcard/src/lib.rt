// The card's functions for a host in C, declared in include/wsprcard.h: each is a thin layer over
// that of its crate, with the answer's result numbers in a struct.
#![tactic(auto)]

ghost use Rattle.std.specs.Prelude.{◌≡◌};
ghost use Rattle.message.specs.Character.{capital_form};
ghost use Rattle.message.specs.Answer.{message_packed, word_unpacked, callsign_after_unpack, locator_after_unpack, word_numbers, message_numbers};
ghost use Rattle.message.specs.RoundTrip.{UnpacksBack, PacksBack, WrittenInCapitals, UnpackRefusedExactly};
ghost use Rattle.frame.specs.Answer.{write_numbers, word_written, message_written, frame_after_word, frame_after_message, word_read, message_read, callsign_after_read, locator_after_read};
ghost use Rattle.frame.specs.RoundTrip.{WordReadsBack, WordWritesBack, WordRefusedExactly, NoWordRefused, MessageReadsBack, MessageWritesBack, MessageRefusedExactly};
ghost use Rattle.repair.specs.Answer.{frame_repaired, repair_numbers};
ghost use Rattle.repair.specs.Demand.{AsChecked, AsDemanded};
ghost use Rattle.repair.specs.Flips.{FlipsRepaired, TwoFlipsRepaired, FourFlipsRepaired, FlipsRefused, ThreeFlipsRefused, NeverShared, MarginLeft, WrongWordFlips};
ghost use Rattle.repair.specs.LiveCounts.{CleanRepaired, OneFlipRepaired, NeverOverBudget};
ghost use Rattle.telemetry.specs.Answer.{telemetry_written, telemetry_read, telemetry_numbers, callsign_after_telemetry, locator_after_telemetry};
ghost use Rattle.telemetry.specs.RoundTrip.{TelemetryReadsBack, TelemetryWithinSteps, TelemetryWritesBack, TelemetryRefusedExactly};
ghost use Rattle.wsprcard.specs.Results.{written_result, word_result, message_result, repaired_result, reading_result, write_answer_in, word_answer_in, message_answer_in, repair_answer_in, telemetry_answer_in, measured_from, numbers_if_refused};

use refusal::Refusal;
use repair::Nearest;
use telemetry::{Measured, Reading, Sensors};
use u4b::channel::{Channel, SubSquare};

// What stands in the result of a refusal.
const NO_NEAREST: Nearest = Nearest {
    word: 0,
    disagreements: 0,
    live: 0,
    sync_wrong: 0,
    margin: 0,
};

const NO_READING: Reading = Reading {
    channel: Channel { first: 0, third: 0 },
    square: SubSquare { grid5: 0, grid6: 0 },
    sensors: Sensors {
        altitude: 0,
        temperature: 0,
        voltage: 0,
        speed: 0,
        gps: 0,
    },
};

// The structs of the C interface. A struct for each kind of answer, and none over them all: an exported
// function can't give a generic one.
//
// Refusal number (0: success) and place.
#[repr(C)]
#[derive(Clone, Copy)]
pub struct WsprWritten {
    pub refusal: u32,
    pub place: u32,
}

// Refusal number (0: success), place, and the word.
#[repr(C)]
#[derive(Clone, Copy)]
pub struct WsprWord {
    pub refusal: u32,
    pub place: u32,
    pub word: u64,
}

// Refusal number (0: success), place, and the power of a message.
#[repr(C)]
#[derive(Clone, Copy)]
pub struct WsprMessage {
    pub refusal: u32,
    pub place: u32,
    pub power: u32,
}

// Refusal number (0: success), place, and the nearest word with what belongs to it. To C the fields of
// `nearest` are the struct's own, one after another: they start where its first would stand, at byte 8,
// and no padding follows them.
#[repr(C)]
#[derive(Clone, Copy)]
pub struct WsprRepaired {
    pub refusal: u32,
    pub place: u32,
    pub nearest: Nearest,
}

// Refusal number (0: success), place, and the readings of a telemetry message: to C, as above, the
// struct's own fields.
#[repr(C)]
#[derive(Clone, Copy)]
pub struct U4bReading {
    pub refusal: u32,
    pub place: u32,
    pub reading: Reading,
}

// A refusal by its number and place, success where there is none.
#[tactic(auto, unfolding(crate::specs::Results::written_result))]
fn refused(refusal: Option<Refusal>) -> WsprWritten
    ensures { result ≡ written_result (numbers_if_refused refusal) }
{
    match refusal {
        Some(refusal) => WsprWritten {
            refusal: refusal.number(),
            place: refusal.place(),
        },
        None => WsprWritten {
            refusal: 0,
            place: 0,
        },
    }
}

// The results are made by a function each, as the structs are.

// The result of writing a frame.
fn written_result(answer: Result<(), Refusal>) -> WsprWritten
    ensures { result ≡ written_result (write_numbers answer) }
{
    refused(answer.err())
}

// The result with a word, 0 where there is none.
fn word_result(answer: Result<u64, Refusal>) -> WsprWord
    ensures { result ≡ word_result (word_numbers answer) }
{
    let WsprWritten { refusal, place } = refused(answer.err());
    WsprWord {
        refusal,
        place,
        word: answer.unwrap_or(0),
    }
}

// The result with a message's power, 0 where there is none.
fn message_result(answer: Result<u32, Refusal>) -> WsprMessage
    ensures { result ≡ message_result (message_numbers answer) }
{
    let WsprWritten { refusal, place } = refused(answer.err());
    WsprMessage {
        refusal,
        place,
        power: answer.unwrap_or(0),
    }
}

// The result of a repair, 0 everywhere where there is no word.
fn repaired_result(answer: Result<Nearest, Refusal>) -> WsprRepaired
    ensures { result ≡ repaired_result (repair_numbers answer) }
{
    let WsprWritten { refusal, place } = refused(answer.err());
    WsprRepaired {
        refusal,
        place,
        nearest: answer.unwrap_or(NO_NEAREST),
    }
}

// The result of reading telemetry, 0 everywhere where there are no readings.
fn reading_result(answer: Result<Reading, Refusal>) -> U4bReading
    ensures { result ≡ reading_result (telemetry_numbers answer) }
{
    let WsprWritten { refusal, place } = refused(answer.err());
    U4bReading {
        refusal,
        place,
        reading: answer.unwrap_or(NO_READING),
    }
}

// Below, the C interface sets what is lent and given in each call: callsign, locator and power, a limit and
// a budget one by one, and a function for each call however alike they are.

// The word of a message, the same as that of its capital form.
#[unsafe(no_mangle)]
pub extern "C" fn wspr_pack(callsign: &[u8], locator: &[u8], power: u32) -> WsprWord
    ensures answer { result ≡ word_result (word_numbers (message_packed callsign.now locator.now power)) }
    ensures as_capitals { result ≡ word_result (word_numbers (message_packed (capital_form callsign.now) (capital_form locator.now) power)) }
    ensures unpacks_back { UnpacksBack (word_answer_in result) callsign.now locator.now power }
{
    word_result(message::pack(callsign, locator, power))
}

// The message of a word: its callsign and locator are written, its power is returned.
#[unsafe(no_mangle)]
pub extern "C" fn wspr_unpack(word: u64, callsign: &mut [u8], locator: &mut [u8]) -> WsprMessage
    ensures answer { result ≡ message_result (message_numbers (word_unpacked callsign.old locator.old word)) }
    ensures callsign_after { callsign.new ≡ callsign_after_unpack callsign.old locator.old word }
    ensures locator_after { locator.new ≡ locator_after_unpack callsign.old locator.old word }
    ensures packs_back { PacksBack (message_answer_in result) word callsign.new locator.new }
    ensures in_capitals { WrittenInCapitals (message_answer_in result) callsign.new locator.new }
    ensures refuses_exactly { UnpackRefusedExactly (message_answer_in result) word callsign.old locator.old }
{
    message_result(message::unpack(word, callsign, locator))
}

// Writes the frame of a word.
#[unsafe(no_mangle)]
pub extern "C" fn wspr_write_word(word: u64, frame: &mut [u8]) -> WsprWritten
    ensures answer { result ≡ written_result (write_numbers (word_written frame.old word)) }
    ensures frame_after { frame.new ≡ frame_after_word frame.old word }
    ensures reads_back { WordReadsBack (write_answer_in result) word frame.new }
{
    written_result(frame::write_word(word, frame))
}

// Writes the frame of a message, the same as that of its capital form.
#[unsafe(no_mangle)]
pub extern "C" fn wspr_write_message(
    callsign: &[u8],
    locator: &[u8],
    power: u32,
    frame: &mut [u8],
) -> WsprWritten
    ensures answer { result ≡ written_result (write_numbers (message_written callsign.now locator.now power frame.old)) }
    ensures frame_after { frame.new ≡ frame_after_message callsign.now locator.now power frame.old }
    ensures as_capitals { result ≡ written_result (write_numbers (message_written (capital_form callsign.now) (capital_form locator.now) power frame.old)) }
    ensures frame_as_capitals { frame.new ≡ frame_after_message (capital_form callsign.now) (capital_form locator.now) power frame.old }
    ensures reads_back { MessageReadsBack (write_answer_in result) callsign.now locator.now power frame.new }
{
    written_result(frame::write_message(callsign, locator, power, frame))
}

// The word of a frame.
#[unsafe(no_mangle)]
pub extern "C" fn wspr_read_word(frame: &[u8]) -> WsprWord
    ensures answer { result ≡ word_result (word_numbers (word_read frame.now)) }
    ensures writes_back { WordWritesBack (word_answer_in result) frame.now }
    ensures refuses_exactly { WordRefusedExactly (word_answer_in result) frame.now }
    ensures no_word { NoWordRefused (word_answer_in result) frame.now }
{
    word_result(frame::read_word(frame))
}

// The message of a frame: its callsign and locator are written, its power is returned.
#[unsafe(no_mangle)]
pub extern "C" fn wspr_read_message(
    frame: &[u8],
    callsign: &mut [u8],
    locator: &mut [u8],
) -> WsprMessage
    ensures answer { result ≡ message_result (message_numbers (message_read frame.now callsign.old locator.old)) }
    ensures callsign_after { callsign.new ≡ callsign_after_read frame.now callsign.old locator.old }
    ensures locator_after { locator.new ≡ locator_after_read frame.now callsign.old locator.old }
    ensures writes_back { MessageWritesBack (message_answer_in result) frame.now callsign.new locator.new }
    ensures in_capitals { WrittenInCapitals (message_answer_in result) callsign.new locator.new }
    ensures refuses_exactly { MessageRefusedExactly (message_answer_in result) frame.now callsign.old locator.old }
{
    message_result(frame::read_message(frame, callsign, locator))
}

// The one word that is nearest to the symbols of a frame.
#[unsafe(no_mangle)]
pub extern "C" fn wspr_repair(frame: &[u8], limit: u32, budget: u32) -> WsprRepaired
    ensures answer { result ≡ repaired_result (repair_numbers (frame_repaired frame.now limit budget)) }
    ensures checked { AsChecked frame.now limit budget (repair_answer_in result) }
    ensures demanded { AsDemanded frame.now limit budget (repair_answer_in result) }
    ensures two_flips { TwoFlipsRepaired frame.now limit budget (repair_answer_in result) }
    ensures three_flips { ThreeFlipsRefused frame.now limit budget (repair_answer_in result) }
    ensures wrong_word { WrongWordFlips 28 frame.now limit budget (repair_answer_in result) }
    ensures clean { CleanRepaired frame.now limit budget (repair_answer_in result) }
    ensures one_flip { OneFlipRepaired frame.now limit budget (repair_answer_in result) }
    ensures flips_repaired { FlipsRepaired frame.now limit budget (repair_answer_in result) }
    ensures four_flips { FourFlipsRepaired frame.now limit budget (repair_answer_in result) }
    ensures flips_refused { FlipsRefused 28 frame.now limit budget (repair_answer_in result) }
    ensures never_shared { NeverShared (repair_answer_in result) }
    ensures margin_left { MarginLeft limit (repair_answer_in result) }
    ensures never_over_budget { NeverOverBudget limit budget (repair_answer_in result) }
{
    repaired_result(repair::repair(frame, limit, budget))
}

// The message of what was measured: its callsign and locator are written, its power is returned.
#[unsafe(no_mangle)]
pub extern "C" fn u4b_write(
    first: u8,
    third: u8,
    grid5: u8,
    grid6: u8,
    altitude: u32,
    temperature: i32,
    voltage: u32,
    speed: u32,
    gps: u32,
    callsign: &mut [u8],
    locator: &mut [u8],
) -> WsprMessage
    ensures answer { result ≡ message_result (message_numbers (telemetry_written callsign.old locator.old (measured_from first third grid5 grid6 altitude temperature voltage speed gps))) }
    ensures callsign_after { callsign.new ≡ callsign_after_telemetry callsign.old locator.old (measured_from first third grid5 grid6 altitude temperature voltage speed gps) }
    ensures locator_after { locator.new ≡ locator_after_telemetry callsign.old locator.old (measured_from first third grid5 grid6 altitude temperature voltage speed gps) }
    ensures reads_back { TelemetryReadsBack (message_answer_in result) (measured_from first third grid5 grid6 altitude temperature voltage speed gps) callsign.new locator.new }
    ensures within_steps { TelemetryWithinSteps (message_answer_in result) (measured_from first third grid5 grid6 altitude temperature voltage speed gps) callsign.new locator.new }
    ensures in_capitals { WrittenInCapitals (message_answer_in result) callsign.new locator.new }
{
    let measured = Measured {
        channel: Channel { first, third },
        square: SubSquare { grid5, grid6 },
        sensors: Sensors {
            altitude,
            temperature,
            voltage,
            speed,
            gps,
        },
    };
    message_result(telemetry::write(measured, callsign, locator))
}

// The telemetry of a message, the same as that of its capital form.
#[unsafe(no_mangle)]
pub extern "C" fn u4b_read(callsign: &[u8], locator: &[u8], power: u32) -> U4bReading
    ensures answer { result ≡ reading_result (telemetry_numbers (telemetry_read callsign.now locator.now power)) }
    ensures as_capitals { result ≡ reading_result (telemetry_numbers (telemetry_read (capital_form callsign.now) (capital_form locator.now) power)) }
    ensures writes_back { TelemetryWritesBack (telemetry_answer_in result) callsign.now locator.now power }
    ensures refuses_exactly { TelemetryRefusedExactly (telemetry_answer_in result) callsign.now locator.now power }
{
    reading_result(telemetry::read(callsign, locator, power))
}
