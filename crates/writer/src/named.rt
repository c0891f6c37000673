// Records by their kind and fields.
ghost use Rattle.std.specs.Prelude.{◌≡◌, ◌/◌, ◌%◌};
ghost use Rattle.recording.specs.Fields.{of_kind, fields_of, first_field, record_by};

use reader::decoded;
use recording::{Fields, Record};

fn of_kind(kind: u8, address: u32, value: u64) -> Fields
    ensures { result ≡ of_kind kind address value }
{
    Fields {
        value,
        address,
        kind,
    }
}

// The kind and the fields of a record; a field that its kind does not have is 0, and two budgets
// are the halves of one value.
pub fn fields_of(item: Record) -> Fields
    ensures { result ≡ fields_of item }
{
    match item {
        Record::None => of_kind(0, 0, 0),
        Record::Write(a, v) => of_kind(1, a, v as u64),
        Record::Read(a, v) => of_kind(2, a, v as u64),
        Record::SpRun(budget) => of_kind(3, 0, budget as u64),
        Record::DpRun(budget) => of_kind(4, 0, budget as u64),
        Record::Tick(n) => of_kind(5, 0, n as u64),
        Record::Break => of_kind(6, 0, 0),
        Record::Acknowledge => of_kind(7, 0, 0),
        Record::Store(a, word) => of_kind(8, a, word),
        Record::Check(a, word) => of_kind(9, a, word),
        Record::Run(sp, dp) => of_kind(10, 0, sp as u64 * 0x100000000 + dp as u64),
    }
}

// The low 32 bits of a value.
pub(crate) fn low_half(value: u64) -> u32
    ensures { result ≡ value % 0x100000000 }
{
    (value % 0x100000000) as u32
}

// The upper 32 bits of a value.
pub(crate) fn high_half(value: u64) -> u32
    ensures { result ≡ value / 0x100000000 }
{
    (value / 0x100000000) as u32
}

// What a body begins with: the value of kinds 3 to 5, the upper half of the value of kind 10, the
// address of the others.
pub(crate) fn first_field(f: Fields) -> u32
    ensures { result ≡ first_field f }
{
    match f.kind {
        3..=5 => low_half(f.value),
        10 => high_half(f.value),
        _ => f.address,
    }
}

// The record of this kind with these fields, None where the kind is unknown.
#[tactic(auto, unfolding(recording::specs::Fields::record_by))]
pub(crate) fn record_by(f: Fields) -> Record
    ensures { result ≡ record_by f }
{
    decoded(f.kind, first_field(f), low_half(f.value), f.value)
}
