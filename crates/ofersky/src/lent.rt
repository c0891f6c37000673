// The calls that are lent memory or lists.
ghost use Rattle.std.specs.Prelude.{◌≡◌, cond, ◌%◌, eqb};
ghost use Rattle.words.specs.Memory.{memory};
ghost use Rattle.machine.specs.Turns.{sp_turn, sp_turn_memory, dp_turn};
ghost use Rattle.machine.specs.Runs.{end_of_run, run};
ghost use Rattle.machine.specs.Rows.{sp_row, sp_row_memory};
ghost use Rattle.machine.specs.Look.{look};
ghost use Rattle.bursts.specs.Bursts.{write_registers};
ghost use Rattle.host.specs.States.{decoded, handed, ran_handed};
ghost use Rattle.host.specs.Parts.{placed, part_handed};

use crate::states::handed;
use host::{HostOutcome, HostPart, HostRan, HostState};
use machine::State;

// A host hands over two lengths, so that unequal ones can come in.
#[unsafe(no_mangle)]
pub extern "C" fn ofersky_write_registers(
    s: HostState,
    addresses: &[u32],
    values: &[u32],
) -> HostOutcome
    ensures outcome { result ≡ handed s (write_registers (decoded s) addresses.now values.now) }
    ensures kept { (addresses.exit.now ≡ addresses.entry.now) × (values.exit.now ≡ values.entry.now) }
{
    handed(
        s,
        access::write_registers(State::from(s), addresses, values),
    )
}

#[unsafe(no_mangle)]
pub extern "C" fn ofersky_sp_turn(
    s: HostState,
    rdram: &mut [u8],
    dmem: &mut [u8],
    imem: &mut [u8],
) -> HostOutcome
    ensures outcome { result ≡ handed s (sp_turn (decoded s) (memory rdram.old dmem.old imem.old)) }
    ensures bytes { memory rdram.new dmem.new imem.new
        ≡ sp_turn_memory (decoded s) (memory rdram.old dmem.old imem.old) }
{
    handed(s, engines::sp_turn(State::from(s), rdram, dmem, imem))
}

#[unsafe(no_mangle)]
pub extern "C" fn ofersky_sp_row(
    s: HostState,
    rdram: &mut [u8],
    dmem: &mut [u8],
    imem: &mut [u8],
) -> HostOutcome
    ensures outcome { result ≡ handed s (sp_row (decoded s) (memory rdram.old dmem.old imem.old)) }
    ensures bytes { memory rdram.new dmem.new imem.new
        ≡ sp_row_memory (decoded s) (memory rdram.old dmem.old imem.old) }
{
    handed(s, engines::sp_row(State::from(s), rdram, dmem, imem))
}

#[unsafe(no_mangle)]
pub extern "C" fn ofersky_dp_turn(s: HostState, rdram: &[u8], dmem: &[u8]) -> HostOutcome
    ensures outcome { result ≡ handed s (dp_turn (decoded s) rdram.now dmem.now) }
    ensures kept { (rdram.exit.now ≡ rdram.entry.now) × (dmem.exit.now ≡ dmem.entry.now) }
{
    handed(s, engines::dp_turn(State::from(s), rdram, dmem))
}

#[unsafe(no_mangle)]
#[tactic(auto, unfolding(host::specs::States::ran_handed))]
pub extern "C" fn ofersky_run(
    s: HostState,
    spbudget: u32,
    dpbudget: u32,
    consumerbudget: u32,
    rdram: &mut [u8],
    dmem: &mut [u8],
    imem: &mut [u8],
    out: &mut [u8],
) -> HostRan
    ensures given { result ≡ ran_handed s (run (decoded s) spbudget dpbudget consumerbudget
        (memory rdram.old dmem.old imem.old) out.old) }
    ensures bytes { memory rdram.new dmem.new imem.new
        ≡ (end_of_run (decoded s) spbudget dpbudget consumerbudget (memory rdram.old dmem.old imem.old) out.old).memory }
    ensures output { out.new
        ≡ (end_of_run (decoded s) spbudget dpbudget consumerbudget (memory rdram.old dmem.old imem.old) out.old).out }
{
    let ran = runs::run(
        State::from(s),
        spbudget,
        dpbudget,
        consumerbudget,
        rdram,
        dmem,
        imem,
        out,
    );
    HostRan {
        outcome: handed(s, ran.outcome),
        words: ran.words,
    }
}

// Where n bytes stand that a look shows: the word at CURRENT in the memory that XBUS selects, or that
// memory's start where there are none.
fn part_at(xbus: bool, current: u32, n: usize) -> HostPart
    ensures { result ≡ cond xbus (placed 1 (cond (eqb n 0) 0 (current % 0x1000)) (cond (eqb n 0) 0 8))
        (placed 0 (cond (eqb n 0) 0 current) (cond (eqb n 0) 0 8)) }
{
    let (memory, word) = if xbus {
        (1, current % 0x1000)
    } else {
        (0, current)
    };
    let (offset, length) = if n == 0 { (0, 0) } else { (word, 8) };
    HostPart {
        memory,
        offset,
        length,
    }
}

// A host gets numbers and no reference: which memory, from where on, and how many bytes.
#[unsafe(no_mangle)]
pub extern "C" fn ofersky_look_ahead<'a>(s: HostState, rdram: &'a [u8], dmem: &'a [u8]) -> HostPart
    ensures part { result ≡ part_handed (look (decoded s) rdram.now dmem.now) }
    ensures kept { (rdram.exit.now ≡ rdram.entry.now) × (dmem.exit.now ≡ dmem.entry.now) }
{
    let state = State::from(s);
    let n = engines::look_ahead(state, rdram, dmem).len();
    part_at(state.dp.xbus, state.dp.current, n)
}
