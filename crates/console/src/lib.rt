// What the programs share: a recording comes in by a reader, is replayed from power-up, and is summed up in one line.
#![tactic(auto)]

ghost use Rattle.std.specs.Prelude.{MatchResult};
ghost use Rattle.io.specs.Counts.{IsPrefixLen};
ghost use Rattle.words.specs.Memory.{memory};
ghost use Rattle.lines.specs.Wrote.{Wrote};
ghost use Rattle.playback.specs.Verdict.{verdict};
ghost use Rattle.console.specs.Promised.{summary_of, ReportGives};

use checks::power_up;
use lines::Lines;
use playback::{Replayed, Verdict};
use player::{replay, verdict};
use std::io::Read;

// A read failed: how many bytes came before it.
#[derive(Clone, Copy)]
pub struct Cut {
    pub length: usize,
}

// How many bytes the listing has, and the line that sums it up.
#[derive(Clone, Copy)]
pub struct Report {
    pub listing: usize,
    pub summary: usize,
}

// Reads until the input ends or the buffer is full, or up to a read that fails. Which bytes come is
// up to the system, and not proved.
pub fn read_input<R: Read>(input: &mut R, buf: &mut [u8]) -> Result<usize, Cut>
    ensures { MatchResult result
        (λ n. IsPrefixLen n buf.new) (λ cut. IsPrefixLen cut.length buf.new) }
{
    let mut length = 0;
    while length < buf.len() {
        match input.read(&mut buf[length..]) {
            Ok(0) => break,
            Ok(more) => length += more,
            Err(_) => return Err(Cut { length }),
        }
    }
    Ok(length)
}

// Writes the line that sums up what a replay gave, made by its verdict.
fn put_summary(lines: &mut Lines, r: Replayed)
    ensures { Wrote (summary_of (verdict r) r.outcome.answer.count r.place r.findings)
        lines.old lines.new }
{
    let f = r.findings;
    match verdict(r) {
        Verdict::Refused(number, _, _) => {
            lines.put_refused(number, r.outcome.answer.count, r.place)
        }
        Verdict::Differs(compared, differed) => {
            lines.put_differs(compared, differed, f.index, f.place)
        }
        Verdict::NothingCompared => lines.put_nothing_compared(),
        Verdict::Passed(compared) => lines.put_passed(compared),
    }
}

// Replays a recording from power-up over the lent memory. Its listing goes to `out` and the line that sums it up to `line`; both always have room.
pub fn judge(
    recording: &[u8],
    rdram: &mut [u8],
    dmem: &mut [u8],
    imem: &mut [u8],
    out: &mut [u8; 69204],
    line: &mut [u8; 128],
) -> Report
    ensures report { ReportGives recording.now (memory rdram.old dmem.old imem.old) result
        (memory rdram.new dmem.new imem.new) out.new line.new }
    ensures listing_len { IsPrefixLen result.listing out.new }
    ensures summary_len { IsPrefixLen result.summary line.new }
{
    let done = replay(power_up(), recording, rdram, dmem, imem, out);
    let mut summary = Lines::new(line, 0);
    put_summary(&mut summary, done);
    Report {
        listing: done.written,
        summary: summary.at(),
    }
}
