// The bytes of a record, into a part of a buffer.
ghost use Rattle.std.specs.Prelude.{◌≡◌, true, length, set};
ghost use Rattle.recording.specs.Kinds.{is_kind, size};
ghost use Rattle.recording.specs.Fields.{record_by};
ghost use Rattle.recording.specs.Writer.{record_bytes};
ghost use Rattle.writer.specs.Parts.{second_field, four_put};

use crate::named::{first_field, high_half, low_half};
use recording::Fields;

// What stands after the first field: the upper half of the word of kinds 8 and 9, the value of
// kinds 1 and 2, the lower half of the value of kind 10.
fn second_field(f: Fields) -> u32
    ensures { result ≡ second_field f }
{
    match f.kind {
        8 | 9 => high_half(f.value),
        _ => low_half(f.value),
    }
}

// The first byte of a part, if it has one.
fn put_first(part: &mut [u8], b: u8)
    ensures { part.new ≡ set part.old 0 b }
{
    if let Some(first) = part.first_mut() {
        *first = b;
    }
}

// Four bytes of a part, most significant first; dropped where the part ends before them.
fn put_four(part: &mut [u8], at: u8, v: u32)
    ensures { part.new ≡ four_put part.old at v }
{
    let at = at as usize;
    if at + 4 <= part.len() {
        part[at..at + 4].copy_from_slice(&v.to_be_bytes());
    }
}

// Fills a part that is as long as a record with its bytes. So a field that its kind does not have
// finds no room and is dropped.
pub(crate) fn fill(part: &mut [u8], f: Fields)
    ensures { is_kind f.kind ≡ true → length part.old ≡ size f.kind → part.new ≡ record_bytes (record_by f) }
{
    put_first(part, f.kind);
    put_four(part, 1, first_field(f));
    put_four(part, 5, second_field(f));
    put_four(part, 9, low_half(f.value));
}
