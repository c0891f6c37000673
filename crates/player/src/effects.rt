// What each record does, and its line.
ghost use Rattle.std.specs.Prelude.{◌≡◌, true, false, ◌==◌, is_some};
ghost use Rattle.words.specs.Lent.{lent, SameLent};
ghost use Rattle.machine.specs.Calls.{read_register};
ghost use Rattle.laws.specs.World.{world};
ghost use Rattle.recording.specs.declared.Record.TheVariants.{SpRun, DpRun, Run};
ghost use Rattle.listing.specs.Text.{letter_r, letter_l, found_line};
ghost use Rattle.lines.specs.Wrote.{Wrote};
ghost use Rattle.playback.specs.Effects.{replay_run, after_run, load_at};
ghost use Rattle.playback.specs.Promised.{ShowGives, PerformGives};
ghost use Rattle.player.specs.Expected.{is_unexpected};

use crate::stored::{load_at, store_at};
use access::{acknowledge, read_register, sp_break, tick, write_register};
use lines::Lines;
use machine::{Ran, State};
use recording::Record;
use runs::run;
use words::memory::Lent;

// The state after a record; and whether what it found is as expected, if it compared anything.
#[derive(Clone, Copy)]
pub struct Progress {
    pub state: State,
    pub as_expected: Option<bool>,
}

// A record that compares nothing.
fn uncompared(state: State) -> Progress
    ensures { result ≡ record { state = state; as_expected = None } }
{
    Progress {
        state,
        as_expected: None,
    }
}

// Reads a register and lists what was found and what was expected.
fn read_listed(s: State, a: u32, expected: u32, lines: &mut Lines) -> Progress
    ensures same_buffer { lines.new.out.ghost_name ≡ lines.old.out.ghost_name }
    ensures listed { ShowGives (read_register s a) (found_line letter_r false a (read_register s a).answer.value expected)
        lines.old.out.now lines.old.at result.state lines.new.out.now lines.new.at }
    ensures compared { result.as_expected ≡ Some ((read_register s a).answer.value == expected) }
{
    let done = read_register(s, a);
    let found = done.answer.value;
    let wanted = expected as u64;
    lines.put_found(b'R', false, a, found, wanted);
    Progress {
        state: done.state,
        as_expected: Some(found == wanted),
    }
}

// A run of the SP alone, and its count listed. Without budget for DP and consumer nothing is put out, so that eight bytes of output do for all.
#[inline(never)] // or its locals are zeroed for each record
fn sp_run_listed(s: State, budget: u32, m: &mut Lent<'_>, lines: &mut Lines) -> State
    ensures same { SameLent m.old m.new }
    ensures same_buffer { lines.new.out.ghost_name ≡ lines.old.out.ghost_name }
    ensures performed { PerformGives (SpRun budget)
        (world s (lent m.old)) lines.old.out.now lines.old.at
        (world result (lent m.new)) lines.new.out.now lines.new.at
        false false }
{
    let ran = run(s, budget, 0, 0, m.rdram, m.dmem, m.imem, &mut [0u8; 8]);
    lines.put_run(b'S', ran.outcome.answer.count);
    ran.outcome.state
}

// A run into 2,048 bytes of its own. The consumer has the DP's budget too.
fn replay_run(s: State, spbudget: u32, dpbudget: u32, m: &mut Lent<'_>) -> Ran
    ensures same { SameLent m.old m.new }
    ensures given { result ≡ replay_run (world s (lent m.old)) spbudget dpbudget }
    ensures bytes { lent m.new ≡ (after_run (world s (lent m.old)) spbudget dpbudget).memory }
{
    run(
        s,
        spbudget,
        dpbudget,
        dpbudget,
        m.rdram,
        m.dmem,
        m.imem,
        &mut [0u8; 2048],
    )
}

// A run of DP and consumer alone, and the consumer's count listed.
#[tactic(auto, unfolding(playback::specs::Effects::after, playback::specs::Effects::line))]
#[inline(never)] // or its locals are zeroed for each record
fn dp_run_listed(s: State, budget: u32, m: &mut Lent<'_>, lines: &mut Lines) -> State
    ensures same { SameLent m.old m.new }
    ensures same_buffer { lines.new.out.ghost_name ≡ lines.old.out.ghost_name }
    ensures performed { PerformGives (DpRun budget)
        (world s (lent m.old)) lines.old.out.now lines.old.at
        (world result (lent m.new)) lines.new.out.now lines.new.at
        false false }
{
    let ran = replay_run(s, 0, budget, m);
    lines.put_run(b'D', ran.words);
    ran.outcome.state
}

// A run of all three, and two counts listed: first the SP's, then the consumer's.
#[inline(never)] // or its locals are zeroed for each record
fn run_listed(s: State, spbudget: u32, dpbudget: u32, m: &mut Lent<'_>, lines: &mut Lines) -> State
    ensures same { SameLent m.old m.new }
    ensures same_buffer { lines.new.out.ghost_name ≡ lines.old.out.ghost_name }
    ensures performed { PerformGives (Run spbudget dpbudget)
        (world s (lent m.old)) lines.old.out.now lines.old.at
        (world result (lent m.new)) lines.new.out.now lines.new.at
        false false }
{
    let ran = replay_run(s, spbudget, dpbudget, m);
    lines.put_run(b'S', ran.outcome.answer.count);
    lines.put_run(b'D', ran.words);
    ran.outcome.state
}

// Lists the word at an address and the word expected there; every register is left alone.
fn check_listed(a: u32, expected: u64, m: &Lent<'_>, lines: &mut Lines) -> bool
    ensures listed { Wrote (found_line letter_l true a (load_at a (lent m.now)) expected)
        lines.old lines.new }
    ensures compared { result ≡ (load_at a (lent m.now) == expected) }
{
    let found = load_at(a, m);
    lines.put_found(b'L', true, a, found, expected);
    found == expected
}

// Does what a record says, and writes its line.
#[tactic(auto, unfolding(playback::specs::Effects::after, playback::specs::Effects::line))]
pub(crate) fn perform(item: Record, s: State, m: &mut Lent<'_>, lines: &mut Lines) -> Progress
    ensures same { SameLent m.old m.new }
    ensures same_buffer { lines.new.out.ghost_name ≡ lines.old.out.ghost_name }
    ensures performed { PerformGives item
        (world s (lent m.old)) lines.old.out.now lines.old.at
        (world result.state (lent m.new)) lines.new.out.now lines.new.at
        (is_some result.as_expected) (is_unexpected result.as_expected) }
{
    match item {
        Record::None => uncompared(s),
        Record::Write(a, v) => uncompared(write_register(s, a, v).state),
        Record::Read(a, v) => read_listed(s, a, v, lines),
        Record::SpRun(budget) => uncompared(sp_run_listed(s, budget, m, lines)),
        Record::DpRun(budget) => uncompared(dp_run_listed(s, budget, m, lines)),
        Record::Tick(n) => uncompared(tick(s, n).state),
        Record::Break => uncompared(sp_break(s).state),
        Record::Acknowledge => uncompared(acknowledge(s).state),
        Record::Store(a, word) => {
            store_at(a, word, m);
            uncompared(s)
        }
        Record::Check(a, word) => Progress {
            state: s,
            as_expected: Some(check_listed(a, word, m, lines)),
        },
        Record::Run(spbudget, dpbudget) => uncompared(run_listed(s, spbudget, dpbudget, m, lines)),
    }
}
