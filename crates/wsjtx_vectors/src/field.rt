// The fields of a line: what stands between its bars, counted from 0.
ghost use Rattle.std.specs.Prelude.{◌≡◌};
ghost use Rattle.wsjtx_vectors.specs.Field.{field_at};

// A field's bytes: none where the line hasn't so many fields.
pub(crate) fn field(line: &[u8], number: usize) -> &[u8]
    ensures { result.now ≡ field_at number line.now }
{
    line.split(|b| *b == b'|').nth(number).unwrap_or(&[])
}
