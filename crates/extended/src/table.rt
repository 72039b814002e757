// The table of fields that the caller lends, and what is gathered field by field.
ghost use Rattle.std.specs.Prelude.{◌≡◌, true, List, map, reverse, length};
ghost use Rattle.std.specs.Option.{SomeIff};
ghost use Rattle.radix.specs.Numeral.{Digits, number_of};
ghost use Rattle.extended.specs.Fields.{fields_of, field_in, legal_table, counts, codes_of, field_readings};
ghost use Rattle.extended.specs.declared.field.Field.{Field};

use super::field::Field;
use arrayvec::ArrayVec;
use std::marker::Model;

// The most fields of a table, and the largest product of their counts.
pub(crate) const MOST_FIELDS: usize = 29;

const LARGEST_PRODUCT: u64 = 608_612_940;

// One for each field of a table.
pub(crate) type PerField<T> = ArrayVec<T, MOST_FIELDS>;

// A legal table, seen as the list of its fields: lent, three numbers a field.
#[derive(Drop)]
pub(crate) struct Table<'a> {
    fields: &'a [[i64; 3]],
}

impl<'a> Model for Table<'a> {
    ghost Value = { List Field };

    ghost view = { λ t. map field_in t.fields.now };

    ghost invariant = { λ t. legal_table (map field_in t.fields.now) ≡ true };
}

impl<'a> Table<'a> {
    // The table of the numbers, where it is legal.
    pub(crate) fn checked(numbers: &'a [i64]) -> Option<Self>
        ensures { SomeIff result (legal_table (fields_of numbers.now) ≡ true) (fields_of numbers.now) }
    {
        let (fields, _) = numbers.as_chunks::<3>();
        if !(1..=MOST_FIELDS).contains(&fields.len()) {
            return None;
        }
        let mut product = 1u64;
        for three in fields {
            if !Field::is_legal(three) {
                return None;
            }
            product *= Field::of(three).count;
            if LARGEST_PRODUCT < product {
                return None;
            }
        }
        Some(Table { fields })
    }

    // Below loops that gather, and no `collect`: that takes an allocator, and may fail.

    // The counts of the fields, last field first. A caller sees the fields alone, so `legal` says what
    // holds of them.
    pub(crate) fn counts(&self) -> PerField<u64>
        ensures value { result.items ≡ reverse (counts self.now) }
        ensures legal { legal_table self.now ≡ true }
    {
        let mut counts = PerField::new();
        for three in self.fields.iter().rev() {
            counts.push(Field::of(three).count);
        }
        counts
    }

    // The number that the codes of the readings write, last field first. Counts and codes are gathered in
    // one pass, and stay here: a list that is handed out is copied.
    pub(crate) fn pack(&self, readings: &[i64]) -> u64
        requires { length readings.now ≡ length self.now }
        ensures value { result ≡ number_of (reverse (counts self.now)) (reverse (codes_of self.now readings.now)) }
        ensures legal { legal_table self.now ≡ true }
    {
        let mut counts = PerField::new();
        let mut codes = PerField::new();
        for (three, &reading) in self.fields.iter().rev().zip(readings.iter().rev()) {
            let field = Field::of(three);
            counts.push(field.count);
            codes.push(field.code_of(reading));
        }
        radix::pack(counts.as_slice(), codes.as_slice())
    }

    // The readings of the codes, which stand last field first.
    pub(crate) fn readings(&self, codes: &[u64]) -> PerField<i64>
        requires { Digits (counts self.now) (reverse codes.now) }
        ensures { result.items ≡ field_readings self.now (reverse codes.now) }
    {
        let mut readings = PerField::new();
        for (three, &code) in self.fields.iter().zip(codes.iter().rev()) {
            readings.push(Field::of(three).reading_of(code));
        }
        readings
    }
}
