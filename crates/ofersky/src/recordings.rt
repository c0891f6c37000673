// The reader, the writer, the replay and its verdict.
ghost use Rattle.std.specs.Prelude.{◌≡◌};
ghost use Rattle.words.specs.Memory.{memory};
ghost use Rattle.recording.specs.Reader.{read_record};
ghost use Rattle.recording.specs.Writer.{WriteRecordGives};
ghost use Rattle.host.specs.States.{decoded, handed};
ghost use Rattle.host.specs.Records.{reading_handed};
ghost use Rattle.host.specs.Promised.{HostReplayGives, host_verdict};
ghost use Rattle.playback.specs.Verdict.{code_of};

use crate::states::handed;
use host::{HostReading, HostReplayed, HostState};
use machine::{Answer, State};
use playback::Verdict;
use recording::{Fields, Record};
use writer::fields_of;

#[unsafe(no_mangle)]
#[tactic(auto, unfolding(host::specs::Records::reading_handed))]
pub extern "C" fn ofersky_read_record(recording: &[u8], place: usize) -> HostReading
    ensures reading { result ≡ reading_handed (read_record recording.now place) }
    ensures kept { recording.exit.now ≡ recording.entry.now }
{
    match reader::read_record(recording, place) {
        Ok((item, place)) => HostReading {
            item: fields_of(item),
            place,
            number: 0,
        },
        Err(why) => HostReading {
            item: fields_of(Record::None),
            place: 0,
            number: why.into(),
        },
    }
}

#[unsafe(no_mangle)]
pub extern "C" fn ofersky_write_record(item: Fields, buffer: &mut [u8], place: usize) -> Answer
    ensures { WriteRecordGives item place buffer.old result buffer.new }
{
    writer::write_record(item, buffer, place)
}

#[unsafe(no_mangle)]
pub extern "C" fn ofersky_replay(
    s: HostState,
    recording: &[u8],
    rdram: &mut [u8],
    dmem: &mut [u8],
    imem: &mut [u8],
    out: &mut [u8],
) -> HostReplayed
    ensures { HostReplayGives s recording.now (memory rdram.old dmem.old imem.old) out.old result
        recording.exit.now (memory rdram.new dmem.new imem.new) out.new }
{
    let done = player::replay(State::from(s), recording, rdram, dmem, imem, out);
    HostReplayed {
        outcome: handed(s, done.outcome),
        written: done.written,
        place: done.place,
        findings: done.findings,
    }
}

// The code of a verdict. A variable that nobody set holds no verdict: no code is 0.
fn verdict_code(v: Verdict) -> u32
    ensures { result ≡ code_of v }
{
    match v {
        Verdict::Refused(..) => 103,
        Verdict::Differs(..) => 101,
        Verdict::NothingCompared => 102,
        Verdict::Passed(_) => 100,
    }
}

#[unsafe(no_mangle)]
pub extern "C" fn ofersky_verdict(r: HostReplayed) -> u32
    ensures { result ≡ host_verdict r }
{
    verdict_code(player::judged(r.outcome.answer.number, r.findings))
}
