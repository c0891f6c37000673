// The checks of a record, in the order of their numbers, and the writer.
ghost use Rattle.std.specs.Prelude.{◌≡◌, ◌+◌, IfOk, if◌then◌else◌};
ghost use Rattle.machine.specs.Refusals.{number_given};
ghost use Rattle.recording.specs.Kinds.{size};
ghost use Rattle.recording.specs.Writer.{has_room, write_number, answered, WriteRecordGives};

use crate::bytes::fill;
use crate::named::record_by;
use machine::{Answer, Refusal};
use reader::{check_address, is_kind, size};
use recording::Fields;

// The place after a record of this kind, if it ends within n bytes and the longest recording.
fn end_of(place: usize, kind: u8, n: usize) -> Option<usize>
    ensures { result ≡ (if has_room place kind n then Some (place + size kind) else None) }
{
    let end = place.checked_add(size(kind))?;
    (end <= n.min(16383)).then_some(end)
}

// The place after a record that may be written at a place of a buffer of n bytes.
#[tactic(auto, unfolding(recording::specs::Writer::write_number))]
fn check(f: Fields, place: usize, n: usize) -> Result<usize, Refusal>
    ensures number { number_given result ≡ write_number f place n }
    ensures end { IfOk result (λ end. end ≡ place + size f.kind) }
{
    if !is_kind(f.kind) {
        return Err(Refusal::UnknownKind);
    }
    check_address(record_by(f))?;
    end_of(place, f.kind, n).ok_or(Refusal::NoRoom)
}

fn answered(number: u32, value: u64) -> Answer
    ensures { result ≡ answered number value }
{
    Answer {
        number,
        value,
        count: 0,
    }
}

// Writes a record to a buffer from a place on; the value is the place after it, and no other byte
// changes. Refusals, by the first that applies: 7; 10 and 5 for a register's address, 6 for one of
// memory; and 14 where it would end past the buffer or past 16,383 bytes.
pub fn write_record(f: Fields, buffer: &mut [u8], place: usize) -> Answer
    ensures { WriteRecordGives f place buffer.old result buffer.new }
{
    match check(f, place, buffer.len()) {
        Ok(end) => {
            fill(&mut buffer[place..end], f);
            answered(0, end as u64)
        }
        Err(why) => answered(why.into(), 0),
    }
}
