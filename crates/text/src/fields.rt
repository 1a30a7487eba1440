// The fields of a line: the parts between its commas.
ghost use Rattle.std.specs.Prelude.{◌≡◌, [], ◌∷◌, IfNone, IfSome};
ghost use Rattle.text.specs.Text.{fields_of};

use crate::scan::find;

const COMMA: u8 = 0x2c;

// The first field of the line, and what stands behind the comma that ends it. Inlined, since two slices are returned in memory.
#[inline(always)]
pub fn first_field(line: &[u8]) -> (&[u8], Option<&[u8]>)
    ensures last { IfNone result.1 (fields_of line.now ≡ result.0.now ∷ []) }
    ensures more { IfSome result.1 (λ rest. fields_of line.now ≡ result.0.now ∷ fields_of rest.now) }
{
    let end = find(line, 0, line.len(), COMMA);
    if end == line.len() {
        return (line, None);
    }
    (&line[..end], Some(&line[end + 1..]))
}
