// The bytes of a record, and the record that they make.
ghost use Rattle.std.specs.Prelude.{◌≡◌};
ghost use Rattle.recording.specs.Kinds.{byte, joined, is_kind, size, decoded, record_of};

use recording::Record;

// A byte, 0 past the end.
fn byte(s: &[u8], i: usize) -> u8
    ensures { result ≡ byte s.now i }
{
    s.get(i).copied().unwrap_or(0)
}

// Four bytes as a number, most significant first.
fn joined(a: u8, b: u8, c: u8, d: u8) -> u32
    ensures { result ≡ joined a b c d }
{
    u32::from_be_bytes([a, b, c, d])
}

pub fn is_kind(kind: u8) -> bool
    ensures { result ≡ is_kind kind }
{
    (1..=10).contains(&kind)
}

// How many bytes a record takes: its kind and its body.
pub fn size(kind: u8) -> usize
    ensures { result ≡ size kind }
{
    match kind {
        1 | 2 | 10 => 9,
        3..=5 => 5,
        8 | 9 => 13,
        _ => 1,
    }
}

// The record of a kind, where a is the first four bytes of its body, v the four after them, and w
// the eight after the first four.
#[tactic(auto, unfolding(recording::specs::Kinds::decoded))]
pub fn decoded(kind: u8, a: u32, v: u32, w: u64) -> Record
    ensures { result ≡ decoded kind a v w }
{
    match kind {
        1 => Record::Write(a, v),
        2 => Record::Read(a, v),
        3 => Record::SpRun(a),
        4 => Record::DpRun(a),
        5 => Record::Tick(a),
        6 => Record::Break,
        7 => Record::Acknowledge,
        8 => Record::Store(a, w),
        9 => Record::Check(a, w),
        10 => Record::Run(a, v),
        _ => Record::None,
    }
}

// The record that bytes begin with.
#[tactic(auto, unfolding(recording::specs::Kinds::record_of))]
pub(crate) fn record_of(s: &[u8]) -> Record
    ensures { result ≡ record_of s.now }
{
    let a = joined(byte(s, 1), byte(s, 2), byte(s, 3), byte(s, 4));
    let v = joined(byte(s, 5), byte(s, 6), byte(s, 7), byte(s, 8));
    let low = joined(byte(s, 9), byte(s, 10), byte(s, 11), byte(s, 12));
    decoded(byte(s, 0), a, v, v as u64 * 0x100000000 + low as u64)
}
