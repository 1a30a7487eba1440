// Numbers that their fields can hold.
ghost use Rattle.std.specs.Prelude.{◌≡◌, ◌^◌};
ghost use Rattle.text.specs.Text.{fields_of};
ghost use Rattle.call_lines.specs.Line.{field_of, number_below};

use crate::fields::field;
use text::decimal;

// The number in the field i.
pub(crate) fn number_at(line: &[u8], i: usize) -> Option<u64>
    ensures { result ≡ number_below (2 ^ 64) (field_of (fields_of line.now) i) }
{
    decimal(field(line, i))
}

// The number in the field i, which holds a word.
pub(crate) fn word_at(line: &[u8], i: usize) -> Option<u32>
    ensures { result ≡ number_below (2 ^ 32) (field_of (fields_of line.now) i) }
{
    u32::try_from(number_at(line, i)?).ok()
}

// The number in the field i, which holds a byte.
pub(crate) fn byte_at(line: &[u8], i: usize) -> Option<u8>
    ensures { result ≡ number_below (2 ^ 8) (field_of (fields_of line.now) i) }
{
    u8::try_from(number_at(line, i)?).ok()
}
