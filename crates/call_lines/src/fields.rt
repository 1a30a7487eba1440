// The fields of a line by their numbers, from 0 on.
ghost use Rattle.std.specs.Prelude.{◌≡◌, ◌≤◌, ◌<◌, IfNone, IfSome, drop, eqb, length};
ghost use Rattle.text.specs.Text.{fields_of};
ghost use Rattle.call_lines.specs.Line.{field_of};

use text::first_field;

// The line from the field of number i on; none where it has no such field.
fn from_field(line: &[u8], i: usize) -> Option<&[u8]>
    ensures fewer { IfNone result (length (fields_of line.now) ≤ i) }
    ensures there { IfSome result (λ rest. fields_of rest.now ≡ drop i (fields_of line.now)) }
{
    let mut rest = line;
    for _passed in 0..i {
        rest = first_field(rest).1?;
    }
    Some(rest)
}

// Whether the line has n fields.
pub(crate) fn has_fields(line: &[u8], n: usize) -> bool
    requires n_positive { 0 < n }
    ensures { result ≡ eqb (length (fields_of line.now)) n }
{
    match from_field(line, n - 1) {
        Some(last) => first_field(last).1.is_none(),
        None => false,
    }
}

// The field of number i; an empty one where the line has fewer.
pub(crate) fn field(line: &[u8], i: usize) -> &[u8]
    ensures { result.now ≡ field_of (fields_of line.now) i }
{
    match from_field(line, i) {
        Some(rest) => first_field(rest).0,
        None => b"",
    }
}
