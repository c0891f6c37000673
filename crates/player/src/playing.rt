// The records of a recording, one after the other.
ghost use Rattle.std.specs.Prelude.{◌≡◌, ◌≤◌, ◌<◌, is_some, length};
ghost use Rattle.words.specs.Memory.{memory};
ghost use Rattle.words.specs.Lent.{lent, SameLent};
ghost use Rattle.machine.specs.Refusals.{ending, number_given};
ghost use Rattle.laws.specs.World.{world};
ghost use Rattle.recording.specs.Split.{split};
ghost use Rattle.playback.specs.Findings.{no_findings};
ghost use Rattle.playback.specs.Replay.{replay_refusal};
ghost use Rattle.playback.specs.Promised.{noted, PlayGives, ReplayGives};
ghost use Rattle.player.specs.Expected.{is_unexpected};

use crate::effects::perform;
use checks::{ending, sp_refusal};
use lines::Lines;
use machine::{Refusal, State};
use playback::{Findings, Replayed};
use reader::read_record;
use words::memory::Lent;

fn replayed(
    state: State,
    number: u32,
    count: u32,
    written: usize,
    place: usize,
    findings: Findings,
) -> Replayed
    ensures { (result.outcome ≡ ending state number count) × (result.written ≡ written) × (result.place ≡ place) × (result.findings ≡ findings) }
{
    Replayed {
        outcome: ending(state, number, count),
        written,
        place,
        findings,
    }
}

// What was found so far, and one record more, which has this index and begins at this place.
#[tactic(auto, unfolding(playback::specs::Promised::noted))]
fn noted(f: Findings, as_expected: Option<bool>, index: u32, place: usize) -> Findings
    requires { (f.compared < 0xFFFFFFFF) × (f.differed < 0xFFFFFFFF) }
    ensures { result ≡ noted f (is_some as_expected) (is_unexpected as_expected) index place }
{
    match as_expected {
        None => f,
        Some(true) => Findings {
            compared: f.compared + 1,
            ..f
        },
        Some(false) if f.differed == 0 => Findings {
            compared: f.compared + 1,
            differed: 1,
            index,
            place,
        },
        Some(false) => Findings {
            compared: f.compared + 1,
            differed: f.differed + 1,
            ..f
        },
    }
}

// Performs records until none is left or one is declined, and writes the last line.
fn play(s: State, recording: &[u8], m: &mut Lent<'_>, lines: &mut Lines) -> Replayed
    requires { length recording.now ≤ 16383 }
    ensures same { SameLent m.old m.new }
    ensures same_buffer { lines.new.out.ghost_name ≡ lines.old.out.ghost_name }
    ensures played { PlayGives (split recording.now)
        (world s (lent m.old)) lines.old.out.now lines.old.at result
        (lent m.new) lines.new.out.now }
{
    let mut state = s;
    let mut at: usize = 0;
    let mut count: u32 = 0;
    let mut findings = Findings::default();
    while at < recording.len() {
        match read_record(recording, at) {
            Ok((item, next)) => {
                let done = perform(item, state, m, lines);
                findings = noted(findings, done.as_expected, count, at);
                state = done.state;
                at = next;
                count += 1;
            }
            Err(why) => {
                let number = why.into();
                lines.put_stop(count, number, at);
                return replayed(state, number, count, lines.at(), at, findings);
            }
        }
    }
    lines.put_end(count);
    replayed(state, 0, count, lines.at(), 0, findings)
}

// Whether a replay begins, and why not.
#[tactic(auto, unfolding(playback::specs::Replay::replay_refusal))]
fn replay_refusal(
    s: State,
    recording: &[u8],
    rdram: &[u8],
    dmem: &[u8],
    imem: &[u8],
) -> Result<(), Refusal>
    ensures { number_given result
        ≡ replay_refusal recording.now (world s (memory rdram.now dmem.now imem.now)) }
{
    if 16383 < recording.len() {
        return Err(Refusal::TooLong);
    }
    sp_refusal(s, rdram, dmem, imem)
}

// Replays a recording, and writes its listing to `out`; 69,204 bytes of room always suffice. It stops at the first record that is declined, with the
// state and bytes that the records before it left; the count is their number, and `place` is where that record begins. `findings` says what their reads
// and checks found. Refusals: 9, 1, 2, 3, 4, with place 0 and nothing found; then those of its records: 7, 8, 10, 5, 6.
pub fn replay(
    s: State,
    recording: &[u8],
    rdram: &mut [u8],
    dmem: &mut [u8],
    imem: &mut [u8],
    out: &mut [u8],
) -> Replayed
    ensures { ReplayGives s recording.now (memory rdram.old dmem.old imem.old) out.old result
        recording.exit.now (memory rdram.new dmem.new imem.new) out.new }
{
    let mut lines = Lines::new(out, 0);
    lines.put_header();
    if let Err(why) = replay_refusal(s, recording, rdram, dmem, imem) {
        let number = why.into();
        lines.put_stop(0, number, 0);
        return replayed(s, number, 0, lines.at(), 0, Findings::default());
    }
    let mut m = Lent { rdram, dmem, imem };
    play(s, recording, &mut m, &mut lines)
}
