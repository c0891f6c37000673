// The checks of a record, in the order of the rules, and the reader.
ghost use Rattle.std.specs.Prelude.{◌≡◌};
ghost use Rattle.machine.specs.Address.{register_at};
ghost use Rattle.machine.specs.Refusals.{number_given, register_number};
ghost use Rattle.recording.specs.Reader.{
  memory_allowed,
  memory_number,
  address_number,
  first,
  reading_of,
  RecordGives,
};

use crate::fields::{is_kind, record_of, size};
use checks::register_at;
use machine::Refusal;
use recording::Record;

// An address that kinds 8 and 9 may name.
fn memory_allowed(a: u32) -> bool
    ensures { result ≡ memory_allowed a }
{
    (a % 8 == 0) & ((a < 0x03F00000) | ((0x04000000 <= a) & (a < 0x04002000)))
}

fn check_memory(a: u32) -> Result<(), Refusal>
    ensures { number_given result ≡ memory_number a }
{
    if memory_allowed(a) {
        Ok(())
    } else {
        Err(Refusal::MemoryAddress)
    }
}

fn check_register(a: u32) -> Result<(), Refusal>
    ensures { number_given result ≡ register_number (register_at a) }
{
    register_at(a)?;
    Ok(())
}

// Whether a record's address is one that its kind may name. A record that has none passes.
pub fn check_address(item: Record) -> Result<(), Refusal>
    ensures { number_given result ≡ address_number item }
{
    match item {
        Record::Write(a, _) | Record::Read(a, _) => check_register(a),
        Record::Store(a, _) | Record::Check(a, _) => check_memory(a),
        Record::None
        | Record::SpRun(_)
        | Record::DpRun(_)
        | Record::Tick(_)
        | Record::Break
        | Record::Acknowledge
        | Record::Run(_, _) => Ok(()),
    }
}

// The record that bytes begin with, and the place after it.
#[tactic(auto, unfolding(recording::specs::Reader::first, recording::specs::Reader::record_number))]
fn first(s: &[u8]) -> Result<(Record, usize), Refusal>
    ensures { reading_of result ≡ first s.now }
{
    let Some(&kind) = s.first() else {
        return Err(Refusal::CutShort);
    };
    if !is_kind(kind) {
        return Err(Refusal::UnknownKind);
    }
    let size = size(kind);
    if s.len() < size {
        return Err(Refusal::CutShort);
    }
    let item = record_of(s);
    check_address(item)?;
    Ok((item, size))
}

// The record at a place of a recording, and the place after it. Refusals, by the first that
// applies: 9, 7, 8, 10, 5, 6; at or past the end 8.
pub fn read_record(recording: &[u8], place: usize) -> Result<(Record, usize), Refusal>
    ensures { RecordGives recording.now place (reading_of result) recording.exit.now }
{
    if 16383 < recording.len() {
        return Err(Refusal::TooLong);
    }
    let Some(rest) = recording.get(place..) else {
        return Err(Refusal::CutShort);
    };
    let (item, size) = first(rest)?;
    Ok((item, place + size))
}
