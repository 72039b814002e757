// A field of the table: whether it is legal, the code of a reading and the reading of a code.
ghost use Rattle.std.specs.Prelude.{◌≡◌, true, ◌<◌};
ghost use Rattle.extended.specs.Fields.{field_in, field_reading, legal_field, code_of};

// Its lowest reading, its step and its count. That it is legal is asked by clauses and no part of the type: the definitions
// `field_of` and `no_field` make fields that aren't.
#[derive(Clone, Copy)]
pub struct Field {
    pub lowest: i64,
    pub step: u64,
    pub count: u64,
}

// The ends of signed 32 bits. By `as`: a constant calls nothing.
const SMALLEST: i64 = i32::MIN as i64;

const LARGEST: i64 = i32::MAX as i64;

// No legal field has a longer step or more codes: its highest would be past the end.
const LONGEST_STEP: i64 = u32::MAX as i64;

const MOST_CODES: i64 = LONGEST_STEP + 1;

impl Field {
    // The three numbers are a legal field's. What is too large to be one's is refused first, so that
    // the product doesn't overflow.
    pub(crate) fn is_legal(three: &[i64; 3]) -> bool
        ensures { result ≡ legal_field (field_in three.now) }
    {
        let [lowest, step, count] = *three;
        if !(SMALLEST..=LARGEST).contains(&lowest) {
            return false;
        }
        if !(1..=LONGEST_STEP).contains(&step) {
            return false;
        }
        if !(2..=MOST_CODES).contains(&count) {
            return false;
        }
        (count as u64 - 1) * step as u64 <= LARGEST.abs_diff(lowest)
    }

    // The field of three numbers that are a legal one's.
    pub(crate) fn of(three: &[i64; 3]) -> Self
        requires { legal_field (field_in three.now) ≡ true }
        ensures { result ≡ field_in three.now }
    {
        let [lowest, step, count] = *three;
        Field {
            lowest,
            step: step as u64,
            count: count as u64,
        }
    }

    // The code of a reading: clamped, then rounded to the nearest step, halves up.
    pub(crate) fn code_of(self, reading: i64) -> u64
        requires { legal_field self ≡ true }
        ensures { result ≡ code_of self reading }
    {
        let highest = self.reading_of(self.count - 1);
        let y = reading.clamp(self.lowest, highest);
        (2 * y.abs_diff(self.lowest) + self.step) / (2 * self.step)
    }

    // The reading of a code. A plain sum: by the library's `strict_add_unsigned` it took longer.
    pub(crate) fn reading_of(self, code: u64) -> i64
        requires field_value { legal_field self ≡ true }
        requires code_lt_count { code < self.count }
        ensures { result ≡ field_reading self code }
    {
        self.lowest + (code * self.step) as i64
    }
}
