// The verdict on what a replay gave.
ghost use Rattle.std.specs.Prelude.{◌≡◌};
ghost use Rattle.playback.specs.Verdict.{judged, VerdictGives};

use playback::{Findings, Replayed, Verdict};

// The verdict on a number and on what was found, whatever they are.
#[tactic(auto, unfolding(playback::specs::Verdict::judged))]
pub fn judged(number: u32, f: Findings) -> Verdict
    ensures { result ≡ judged number f }
{
    if number != 0 {
        Verdict::Refused(number, f.compared, f.differed)
    } else if 0 < f.differed {
        Verdict::Differs(f.compared, f.differed)
    } else if f.compared == 0 {
        Verdict::NothingCompared
    } else {
        Verdict::Passed(f.compared)
    }
}

// The verdict on what a replay gave: refused, differs, nothing compared or passed, by the first that applies.
pub fn verdict(r: Replayed) -> Verdict
    ensures { VerdictGives r result }
{
    judged(r.outcome.answer.number, r.findings)
}
