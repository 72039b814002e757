// A refusal: why a function gives no answer, with the number and the place of the table of refusals.
#![tactic(auto)]

ghost use Rattle.std.specs.Prelude.{◌≡◌};
ghost use Rattle.refusal.specs.Refusals.{refusal_number, refusal_place};

// Why there is no answer, in the order of the numbers. Those that name a place hold it.
#[derive(Clone, Copy, Debug, PartialEq, Eq)]
pub enum Refusal {
    // A lent buffer hasn't its exact length. In the line program: a line hasn't its form.
    WrongLength,
    // A character is outside its set. Place: the first such, 0 to 9.
    BadCharacter(u32),
    // A power isn't one of the 19.
    BadPower,
    // A word is 2^50 or more; in word reading also the callsign's number is past its end.
    WordTooLarge,
    // In word reading the locator's number is past its end.
    BadLocatorNumber,
    // In word reading the low seven bits less 64 aren't a legal power.
    BadPowerBits,
    // A symbol is above 3. Place: the first such.
    SymbolTooLarge(u32),
    // In strict reading a sync bit is wrong. Place: the first such.
    WrongSync(u32),
    // In strict reading no 50-bit word has the frame.
    NoWord,
    // In telemetry reading the first character isn't 0, 1 or Q (place 0), or there is a space in places
    // 3 to 5 (that place).
    NotTelemetry(u32),
    // In telemetry reading the message is extended telemetry, not basic.
    ExtendedTelemetry,
    // In telemetry reading the number of the sub-square and altitude is past its end.
    BadPositionNumber,
    // In telemetry reading the number of temperature, voltage, speed and GPS is past its end.
    BadSensorNumber,
    // In telemetry writing an input is out of range. Place: the first such, 0 to 8.
    OutOfRange(u32),
    // In repair the limit is above 12 (place 0), or the budget is 0 or above 65,536 (place 1).
    BadBound(u32),
    // In repair the live count is above the budget.
    OverBudget,
    // In repair no word is within the limit.
    NoneWithinLimit,
    // In repair two or more words share the fewest disagreements.
    SharedFewest,
    // In extended telemetry the table of fields is bad.
    BadFieldTable,
    // In extended telemetry reading the message is basic telemetry, not extended.
    NotExtended,
    // In extended telemetry reading the reserved number isn't 0.
    ReservedNotZero,
    // In extended telemetry writing the slot is above 4 or the type above 15.
    BadSlotOrType,
    // In extended telemetry reading a number is left over above the fields.
    NumberLeftOver,
}

impl Refusal {
    // Its number in the table of refusals, 1 to 23.
    pub fn number(self) -> u32
        ensures { result ≡ refusal_number self }
    {
        match self {
            Refusal::WrongLength => 1,
            Refusal::BadCharacter(_) => 2,
            Refusal::BadPower => 3,
            Refusal::WordTooLarge => 4,
            Refusal::BadLocatorNumber => 5,
            Refusal::BadPowerBits => 6,
            Refusal::SymbolTooLarge(_) => 7,
            Refusal::WrongSync(_) => 8,
            Refusal::NoWord => 9,
            Refusal::NotTelemetry(_) => 10,
            Refusal::ExtendedTelemetry => 11,
            Refusal::BadPositionNumber => 12,
            Refusal::BadSensorNumber => 13,
            Refusal::OutOfRange(_) => 14,
            Refusal::BadBound(_) => 15,
            Refusal::OverBudget => 16,
            Refusal::NoneWithinLimit => 17,
            Refusal::SharedFewest => 18,
            Refusal::BadFieldTable => 19,
            Refusal::NotExtended => 20,
            Refusal::ReservedNotZero => 21,
            Refusal::BadSlotOrType => 22,
            Refusal::NumberLeftOver => 23,
        }
    }

    // Its place; 0 where it names none.
    pub fn place(self) -> u32
        ensures { result ≡ refusal_place self }
    {
        match self {
            Refusal::BadCharacter(place) => place,
            Refusal::SymbolTooLarge(place) => place,
            Refusal::WrongSync(place) => place,
            Refusal::NotTelemetry(place) => place,
            Refusal::OutOfRange(place) => place,
            Refusal::BadBound(place) => place,
            _ => 0,
        }
    }
}
